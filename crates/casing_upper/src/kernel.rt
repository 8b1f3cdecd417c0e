// The upper mapping of a number. Its twin differs in its tables, its floor and its ASCII letters, which is all that is written here.
ghost use Rattle.std.specs.Prelude.{◌≡◌};
ghost use Rattle.casing.specs.Listed.{row_of};
ghost use Rattle.casing_upper.specs.Unicode.{rows};

use crate::table::{Plane0, Plane1};
use casing::kernel::from_floor;
use casing::{Mapping, ascii};

// What Unicode's rows say of a number: where no row from 0xB5 on holds it, only ASCII letters change.
// Inlined: what came back through memory would be read as a whole, and wait for its three single writes.
#[inline(always)]
pub fn to_upper(n: u32) -> Mapping
    ensures { result ≡ row_of rows n }
{
    match from_floor::<Plane0, Plane1>(0xB5, n) {
        Some((a, b, c)) => Mapping::new(a, b, c),
        None => Mapping::new(ascii::to_ascii_uppercase(n), 0, 0),
    }
}
