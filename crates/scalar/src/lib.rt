// Scalar values: a number type with its limits, the refusals of every entry, and the ASCII tests.
#![tactic(auto)]

ghost use Rattle.std.specs.Prelude.{◌≡◌, true};
ghost use Rattle.scalar.specs.Scalars.{is_scalar};

pub mod ascii;
mod point;
mod refusal;

pub use point::CodePoint;
pub use refusal::{Refusal, Rule};

// A number to Scalar::MAX that is no surrogate, as Scalar::new makes it.
#[derive(Clone, Copy, Debug, PartialEq, Eq, PartialOrd, Ord, Hash)]
pub struct Scalar {
    pub value: u32,
    ghost is_scalar: { is_scalar value ≡ true },
}

impl Scalar {
    ghost use Rattle.scalar.specs.Values.{Made};

    pub const MAX: u32 = 0x10FFFF;

    pub const FIRST_SURROGATE: u32 = 0xD800;

    pub const LAST_SURROGATE: u32 = 0xDFFF;

    // The number as a scalar value; refuses 1, then 2.
    #[tactic(auto, unfolding(crate::specs::Scalars::scalar_else))]
    pub fn new(n: u32) -> Result<Scalar, Refusal>
        ensures { Made n result }
    {
        if n > Scalar::MAX {
            return Err(Refusal::AboveMax);
        }
        if n >= Scalar::FIRST_SURROGATE {
            if n <= Scalar::LAST_SURROGATE {
                return Err(Refusal::Surrogate);
            }
        }
        Ok(Scalar { value: n })
    }
}

impl TryFrom<u32> for Scalar {
    type Error = Refusal;

    ghost use Rattle.scalar.specs.Values.{Made};

    ghost try_from_gives = { Made };

    fn try_from(n: u32) -> Result<Scalar, Refusal> {
        Scalar::new(n)
    }
}
