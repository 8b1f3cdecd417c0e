// The title mapping of a number.
ghost use Rattle.std.specs.Prelude.{◌≡◌};
ghost use Rattle.casing.specs.Listed.{row_of};
ghost use Rattle.casing_title.specs.Unicode.{rows};

use crate::table::{Plane0, Plane1};
use casing::Mapping;
use casing::kernel::from_floor;

// What Unicode's rows say of a number: its own rows from 0xB5 on, and only where they have none the upper mapping.
pub fn to_title(n: u32) -> Mapping
    ensures { result ≡ row_of rows n }
{
    match from_floor::<Plane0, Plane1>(0xB5, n) {
        Some((a, b, c)) => Mapping::new(a, b, c),
        None => casing_upper::kernel::to_upper(n),
    }
}
