// The nine properties of Unicode 17.0.0, each over any number: refuses 1, then 2, else yes or no. Promised names, a line
// each: a generic function that takes the property would be no plainer.
#![tactic(auto)]

ghost use Rattle.std.specs.Prelude.{◌≡◌};
ghost use Rattle.scalar.specs.Scalars.{answered};
ghost use Rattle.properties.specs.Properties.{alphabetic, lowercase, uppercase, titlecase, cased, numeric, alphanumeric};

mod control;
pub mod kernel;
mod whitespace;

pub use control::is_control;
use kernel::{alphabetic, alphanumeric, cased, lowercase, numeric, titlecase, uppercase};
use scalar::{Refusal, Scalar};
pub use whitespace::is_whitespace;

// Whether n is Unicode's Alphabetic; refuses 1, then 2.
#[tactic(auto, unfolding(scalar::specs::Scalars::scalar_else))]
pub fn is_alphabetic(n: u32) -> Result<bool, Refusal>
    ensures { result ≡ answered alphabetic n }
{
    Ok(alphabetic(Scalar::new(n)?.value))
}

// Whether n is Unicode's Lowercase; refuses 1, then 2.
#[tactic(auto, unfolding(scalar::specs::Scalars::scalar_else))]
pub fn is_lowercase(n: u32) -> Result<bool, Refusal>
    ensures { result ≡ answered lowercase n }
{
    Ok(lowercase(Scalar::new(n)?.value))
}

// Whether n is Unicode's Uppercase; refuses 1, then 2.
#[tactic(auto, unfolding(scalar::specs::Scalars::scalar_else))]
pub fn is_uppercase(n: u32) -> Result<bool, Refusal>
    ensures { result ≡ answered uppercase n }
{
    Ok(uppercase(Scalar::new(n)?.value))
}

// Whether n is category Lt; refuses 1, then 2.
#[tactic(auto, unfolding(scalar::specs::Scalars::scalar_else))]
pub fn is_titlecase(n: u32) -> Result<bool, Refusal>
    ensures { result ≡ answered titlecase n }
{
    Ok(titlecase(Scalar::new(n)?.value))
}

// Whether n is lowercase, uppercase or titlecase; refuses 1, then 2.
#[tactic(auto, unfolding(scalar::specs::Scalars::scalar_else))]
pub fn is_cased(n: u32) -> Result<bool, Refusal>
    ensures { result ≡ answered cased n }
{
    Ok(cased(Scalar::new(n)?.value))
}

// Whether n is category Nd, Nl or No; refuses 1, then 2.
#[tactic(auto, unfolding(scalar::specs::Scalars::scalar_else))]
pub fn is_numeric(n: u32) -> Result<bool, Refusal>
    ensures { result ≡ answered numeric n }
{
    Ok(numeric(Scalar::new(n)?.value))
}

// Whether n is alphabetic or numeric; refuses 1, then 2.
#[tactic(auto, unfolding(scalar::specs::Scalars::scalar_else))]
pub fn is_alphanumeric(n: u32) -> Result<bool, Refusal>
    ensures { result ≡ answered alphanumeric n }
{
    Ok(alphanumeric(Scalar::new(n)?.value))
}
