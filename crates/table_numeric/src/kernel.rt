// The lookup: a map of marks first, then the skip table.
ghost use Rattle.std.specs.Prelude.{◌≡◌, ◌/◌, ◌≤◌};
ghost use Rattle.bitset.specs.Marks.{marked};
ghost use Rattle.sets.specs.Lists.{holds};
ghost use Rattle.table_numeric.specs.Flat.{flat};
ghost use Rattle.table_numeric.specs.Marks.{marks};

use crate::marks::{MARKS_LENGTH, marks_at};
use crate::table::{HEADERS, OFFSETS};
use bitset::kernel::has_bit;
use scalar::CodePoint;

// Whether the bucket of n, which has 64 numbers, holds a numeric at all.
fn bucket_marked(n: u32) -> bool
    ensures { result ≡ marked marks (n / 64) }
{
    let bucket = n / 64;
    let k = (bucket / 64) as usize;
    k < MARKS_LENGTH && has_bit(marks_at(k), bucket)
}

// Whether n is numeric and no ASCII character. A name hardly holds such a number: the marks keep away from the skip table what is
// in none of its buckets.
pub fn lookup(n: u32) -> bool
    requires { n ≤ 0x10FFFF }
    ensures { result ≡ holds flat n }
{
    bucket_marked(n) && skip::kernel::skip_search(&HEADERS, &OFFSETS, CodePoint { value: n })
}
