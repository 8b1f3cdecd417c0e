// Flat lists of ranges: the check, and the plain search in the list itself, the yardstick of every other reader.
#![tactic(auto)]

ghost use Rattle.std.specs.Prelude.{◌≡◌};
ghost use Rattle.sets.specs.Answers.{list_checked, list_searched};

pub mod kernel;

use kernel::{first_bad, list_holds};
use scalar::{CodePoint, Refusal};

// The most ranges that a list may have.
pub const MAX_RANGES: usize = 1023;

// How many ranges a list has whose ranges are in order, none touching another; refuses 3, 4, then 5.
#[tactic(auto, unfolding(crate::specs::Answers::list_else))]
pub fn check_list(list: &[u32]) -> Result<usize, Refusal>
    ensures { result ≡ list_checked list.now }
{
    if list.len() % 2 != 0 {
        return Err(Refusal::OddList);
    }
    let n = list.len() / 2;
    if n > MAX_RANGES {
        return Err(Refusal::TooManyRanges);
    }
    let bad = first_bad(list);
    if bad < n {
        return Err(Refusal::BadRange(bad));
    }
    Ok(n)
}

// Whether some range of the list holds x; refuses 3, 4, 5, then 1. Surrogates are numbers like any other.
pub fn search_list(list: &[u32], x: u32) -> Result<bool, Refusal>
    ensures { result ≡ list_searched list.now x }
{
    check_list(list)?;
    let point = CodePoint::new(x)?;
    Ok(list_holds(list, point.value))
}
