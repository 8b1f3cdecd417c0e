// What other crates call: the index of the first bad range, and membership in any flat list.
ghost use Rattle.std.specs.Prelude.{◌≡◌};
ghost use Rattle.sets.specs.Lists.{fits, bad_at, holds};

use scalar::Scalar;
use scalar::ascii::is_between;

// Whether a range may stand where no first below low may.
fn range_fits(low: u32, first: u32, last: u32) -> bool
    ensures { result ≡ fits low first last }
{
    low <= first && first <= last && last <= Scalar::MAX
}

// The index of the first range that refusal 5 names, or how many ranges there are.
#[tactic(auto, using(crate::proofs::Pairs::bad_on, crate::proofs::Pairs::bad_here, crate::proofs::Pairs::bad_end, crate::proofs::Pairs::fits_says))]
pub fn first_bad(list: &[u32]) -> usize
    ensures { result ≡ bad_at 0 0 list.now }
{
    let mut low: u32 = 0;
    let mut i: usize = 0;
    let mut rest = list;
    while let [first, last, tail @ ..] = rest {
        if !range_fits(low, *first, *last) {
            break;
        }
        low = *last + 2;
        i += 1;
        rest = tail;
    }
    i
}

// Whether some range of the list holds x.
#[tactic(auto, using(crate::proofs::Pairs::holds_on, crate::proofs::Pairs::holds_here, crate::proofs::Pairs::holds_end))]
pub fn list_holds(list: &[u32], x: u32) -> bool
    ensures { result ≡ holds list.now x }
{
    let mut rest = list;
    while let [first, last, tail @ ..] = rest {
        if is_between(*first, *last, x) {
            return true;
        }
        rest = tail;
    }
    false
}
