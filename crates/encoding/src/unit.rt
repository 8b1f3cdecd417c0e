// What both encodings share: the type of their units says how a scalar value is measured and written.
ghost use Rattle.std.specs.Prelude.{◌≡◌, ℕ, ◌≤◌, List, ◌++◌, length, drop};
ghost use Rattle.encoding.specs.Lengths.{measured};
ghost use Rattle.encoding.specs.Writes.{Encodes};

use scalar::{Refusal, Scalar};

pub(crate) trait Unit {
    // The units of a number.
    ghost units: { ℕ → List Self };

    // How many units a number takes.
    fn count(code: u32) -> usize
        ensures { result ≡ length (units code) };

    // The caller has seen that the units fit.
    fn write(code: u32, out: &mut [Self])
        requires scalar { code ≤ 0x10FFFF }
        requires room { length (units code) ≤ length out.old }
        ensures { out.new ≡ units code ++ drop (length (units code)) out.old };
}

// The number of units of a scalar value; refuses 1, then 2.
#[tactic(auto, unfolding(scalar::specs::Scalars::scalar_else))]
pub(crate) fn len<U: Unit>(n: u32) -> Result<usize, Refusal>
    ensures { result ≡ measured (λ k. length (U.units k)) n }
{
    let code = Scalar::new(n)?.value;
    Ok(U::count(code))
}

// Writes a scalar value and answers how many units; refuses 1, 2, then 10, and then writes nothing.
#[tactic(auto, unfolding(scalar::specs::Scalars::scalar_else))]
pub(crate) fn encode<U: Unit>(n: u32, out: &mut [U]) -> Result<usize, Refusal>
    ensures { Encodes U.units n out.old result out.new }
{
    let code = Scalar::new(n)?.value;
    let need = U::count(code);
    if out.len() < need {
        return Err(Refusal::ShortBuffer(need));
    }
    U::write(code, out);
    Ok(need)
}
