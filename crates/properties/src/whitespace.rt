// White_Space: few enough ranges for a match on the number itself. It has no table.
ghost use Rattle.std.specs.Prelude.{◌≡◌};
ghost use Rattle.scalar.specs.Scalars.{answered};
ghost use Rattle.properties.specs.Properties.{whitespace};

use scalar::{Refusal, Scalar};

#[tactic(auto, unfolding(sets::specs::Lists::holds, crate::specs::WhiteSpace::unicode))]
fn whitespace(n: u32) -> bool
    ensures { result ≡ whitespace n }
{
    // Of letters and digits of ASCII nothing more is asked.
    if n < 0x85 {
        return matches!(n, 9..=13 | 0x20);
    }
    matches!(
        n,
        0x85
            | 0xA0
            | 0x1680
            | 0x2000..=0x200A
            | 0x2028..=0x2029
            | 0x202F
            | 0x205F
            | 0x3000
    )
}

// Whether n is Unicode's White_Space; refuses 1, then 2.
#[tactic(auto, unfolding(scalar::specs::Scalars::scalar_else))]
pub fn is_whitespace(n: u32) -> Result<bool, Refusal>
    ensures { result ≡ answered whitespace n }
{
    Ok(whitespace(Scalar::new(n)?.value))
}
