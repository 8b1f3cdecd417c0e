// Case mapping of any number: refuses 1 above 0x10FFFF, 2 for a surrogate; else what Unicode's rows say. Three promised names, a line
// each: one generic function for them would be longer.
#![tactic(auto, unfolding(scalar::specs::Scalars::scalar_else))]

ghost use Rattle.std.specs.Prelude.{◌≡◌};
ghost use Rattle.casing.specs.Listed.{mapping_of};
ghost use Rattle.casing_lower.specs.Unicode as lower;
ghost use Rattle.casing_title.specs.Unicode as title;
ghost use Rattle.casing_upper.specs.Unicode as upper;

use casing::Mapping;
use scalar::{Refusal, Scalar};

pub fn to_lowercase(n: u32) -> Result<Mapping, Refusal>
    ensures { result ≡ mapping_of lower.rows n }
{
    Scalar::new(n).map(|s| casing_lower::kernel::to_lower(s.value))
}

pub fn to_uppercase(n: u32) -> Result<Mapping, Refusal>
    ensures { result ≡ mapping_of upper.rows n }
{
    Scalar::new(n).map(|s| casing_upper::kernel::to_upper(s.value))
}

pub fn to_titlecase(n: u32) -> Result<Mapping, Refusal>
    ensures { result ≡ mapping_of title.rows n }
{
    Scalar::new(n).map(|s| casing_title::kernel::to_title(s.value))
}
