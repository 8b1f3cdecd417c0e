// The lookup: the skip search in the table. A line in each of these crates, since each names its own table.
ghost use Rattle.std.specs.Prelude.{◌≡◌, ◌≤◌};
ghost use Rattle.sets.specs.Lists.{holds};
ghost use Rattle.table_alphabetic.specs.Flat.{flat};

use crate::table::{HEADERS, OFFSETS};
use scalar::CodePoint;

// Whether n is alphabetic and no ASCII character.
pub fn lookup(n: u32) -> bool
    requires { n ≤ 0x10FFFF }
    ensures { result ≡ holds flat n }
{
    skip::kernel::skip_search(&HEADERS, &OFFSETS, CodePoint { value: n })
}
