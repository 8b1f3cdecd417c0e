// Cc: two ranges, which Unicode will never change. It has no table.
ghost use Rattle.std.specs.Prelude.{◌≡◌};
ghost use Rattle.scalar.specs.Scalars.{answered};
ghost use Rattle.properties.specs.Properties.{control};

use scalar::{Refusal, Scalar};

#[tactic(auto, unfolding(sets::specs::Lists::holds, crate::specs::Control::unicode))]
fn control(n: u32) -> bool
    ensures { result ≡ control n }
{
    matches!(n, 0..=0x1F | 0x7F..=0x9F)
}

// Whether n is category Cc; refuses 1, then 2.
#[tactic(auto, unfolding(scalar::specs::Scalars::scalar_else))]
pub fn is_control(n: u32) -> Result<bool, Refusal>
    ensures { result ≡ answered control n }
{
    Ok(control(Scalar::new(n)?.value))
}
