// The lookup: the skip search in the table, or the search in the ranges themselves. A line in each of these crates, since each names
// its own table.
ghost use Rattle.std.specs.Prelude.{◌≡◌, ◌≤◌};
ghost use Rattle.sets.specs.Lists.{holds};
ghost use Rattle.table_titlecase.specs.Flat.{flat};

use crate::ranges::RANGES;
use crate::table::{HEADERS, OFFSETS};
use scalar::CodePoint;

// Whether n is titlecase and no ASCII character.
pub fn lookup(n: u32) -> bool
    requires { n ≤ 0x10FFFF }
    ensures { result ≡ holds flat n }
{
    skip::kernel::skip_search(&HEADERS, &OFFSETS, CodePoint { value: n })
}

// The same from the ten ranges themselves, for any number.
pub fn listed(n: u32) -> bool
    ensures { result ≡ holds flat n }
{
    sets::kernel::list_holds(&RANGES, n)
}
