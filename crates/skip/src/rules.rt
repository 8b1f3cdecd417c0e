// The tests of the rules W1 to W5, each one pass over the table.
ghost use Rattle.std.specs.Prelude.{◌≡◌, ◌≤◌, length};
ghost use Rattle.skip.specs.Rules.{sized, W1, W2, W3, W4, W5};

use crate::kernel::run_end;
use crate::{prefix_sum, start_index};
use scalar::Scalar;

// The most headers, and the most offsets.
const MAX_SIZE: usize = 2048;

// Whether W1 allows n headers, or n offsets.
fn size_ok(n: usize) -> bool
    ensures { result ≡ sized n }
{
    0 < n && n <= MAX_SIZE
}

// W1.
pub(crate) fn sizes_ok(headers: &[u32], offsets: &[u8]) -> bool
    ensures { result ≡ W1 headers.now offsets.now }
{
    size_ok(headers.len()) && size_ok(offsets.len())
}

// W2, which says nothing where there are no headers.
pub(crate) fn starts_at_zero(headers: &[u32]) -> bool
    ensures { result ≡ W2 headers.now }
{
    match headers {
        [first, ..] => start_index(*first) == 0,
        [] => true,
    }
}

// W3, where there are n offsets.
#[tactic(auto, using(crate::proofs::Steps::starts_turns))]
pub(crate) fn starts_rise(headers: &[u32], n: usize) -> bool
    ensures { result ≡ W3 n headers.now }
{
    for (k, header) in headers.iter().enumerate() {
        if start_index(*header) >= run_end(headers, n, k) {
            return false;
        }
    }
    true
}

// W4, on the prefix sums alone: whole header words rise whenever the starts do.
#[tactic(auto, using(crate::proofs::Steps::sums_turns))]
pub(crate) fn sums_rise(headers: &[u32]) -> bool
    ensures { result ≡ W4 0 headers.now }
{
    let mut low: u32 = 0;
    for &word in headers {
        let sum = prefix_sum(word);
        if sum < low {
            return false;
        }
        low = sum + 1;
    }
    low > Scalar::MAX + 1
}

// W5: one walk over the offsets, k the run and `at` the sum so far in it.
#[tactic(auto, using(crate::proofs::Steps::fit_turns))]
pub(crate) fn sums_fit(headers: &[u32], offsets: &[u8]) -> bool
    requires { length offsets.now ≤ 2048 }
    ensures { result ≡ W5 (length offsets.now) 0 0 headers.now offsets.now }
{
    let mut at: u32 = 0;
    let mut k: usize = 0;
    for (i, offset) in offsets.iter().enumerate() {
        if k >= headers.len() {
            break;
        }
        if i + 1 == run_end(headers, offsets.len(), k) {
            let sum = prefix_sum(headers[k]);
            if at > sum {
                return false;
            }
            at = sum;
            k += 1;
        } else {
            at += u32::from(*offset);
        }
    }
    true
}
