// Code points: the numbers that a table may be asked for, surrogates among them.
ghost use Rattle.std.specs.Prelude.{◌≤◌};

use crate::{Refusal, Scalar};

// A number to Scalar::MAX, a surrogate or not, as CodePoint::new makes it.
#[derive(Clone, Copy, Debug, PartialEq, Eq, PartialOrd, Ord, Hash)]
pub struct CodePoint {
    pub value: u32,
    ghost inside: { value ≤ 0x10FFFF },
}

impl CodePoint {
    ghost use Rattle.scalar.specs.Points.{PointMade};

    // The number as a code point; refuses 1.
    pub fn new(n: u32) -> Result<CodePoint, Refusal>
        ensures { PointMade n result }
    {
        if n > Scalar::MAX {
            return Err(Refusal::AboveMax);
        }
        Ok(CodePoint { value: n })
    }
}

impl From<Scalar> for CodePoint {
    ghost use Rattle.scalar.specs.Points.{IsPoint};

    ghost from_gives = { IsPoint };

    #[tactic(auto, using(crate::proofs::Inside::scalar_inside))]
    fn from(s: Scalar) -> CodePoint {
        CodePoint { value: s.value }
    }
}
