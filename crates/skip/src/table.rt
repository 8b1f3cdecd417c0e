// The search in a table that breaks no rule.
ghost use Rattle.std.specs.Prelude.{◌≡◌, ◌*◌, ◌<◌, ◌≤◌, nat_le, None, length};
ghost use Rattle.skip.specs.Headers.{prefix_sum};
ghost use Rattle.skip.specs.Rules.{broken};
ghost use Rattle.skip.specs.Seek.{Run, Stops, prev, total, upto};

use crate::kernel::run_end;
use crate::{prefix_sum, start_index};
use scalar::CodePoint;

// Where a search stops.
#[derive(Clone, Copy)]
pub(crate) struct Stop {
    pub(crate) begin: usize,
    pub(crate) last: usize,
    pub(crate) at: usize,
}

// How many offsets are passed before the sum so far, which begins at `before`, passes x: one after the other.
#[tactic(auto, using(crate::proofs::Turn::upto_turns))]
fn one_by_one(offsets: &[u8], x: CodePoint, before: u32) -> usize
    requires { before ≤ x.value }
    ensures { (result ≡ upto x.value before offsets.now) × (result ≤ length offsets.now) }
{
    let mut at = before;
    for (i, offset) in offsets.iter().enumerate() {
        at += u32::from(*offset);
        if x.value < at {
            return i;
        }
    }
    offsets.len()
}

// The sum of eight offsets.
fn eight(offsets: &[u8; 8]) -> u32
    ensures { (result ≡ total offsets.now) × (result ≤ 8 * 255) }
{
    let [a, b, c, d, e, f, g, h] = *offsets;
    u32::from(a)
        + u32::from(b)
        + u32::from(c)
        + u32::from(d)
        + u32::from(e)
        + u32::from(f)
        + u32::from(g)
        + u32::from(h)
}

// The same count. No offset lowers the sum, so eight that together do not bring it past x are passed at once.
#[tactic(auto, using(crate::proofs::Turn::upto_on))]
fn passed(offsets: &[u8], x: CodePoint, before: u32) -> usize
    requires { before ≤ x.value }
    ensures { (result ≡ upto x.value before offsets.now) × (result ≤ length offsets.now) }
{
    let mut at = before;
    let mut passed: usize = 0;
    let mut rest = offsets;
    while let Some((chunk, tail)) = rest.split_first_chunk::<8>() {
        let next = at + eight(chunk);
        if x.value < next {
            break;
        }
        at = next;
        passed += 8;
        rest = tail;
    }
    passed + one_by_one(rest, x, at)
}

// A table that breaks no rule.
#[derive(Clone, Copy)]
pub(crate) struct Table<'a, 'b> {
    pub(crate) headers: &'a [u32],
    pub(crate) offsets: &'b [u8],
    ghost keeps: { broken headers.now offsets.now ≡ None },
}

impl<'a, 'b> Table<'a, 'b> {
    // The first run whose sum is above x.
    fn run_of(self, x: CodePoint) -> usize
        ensures { Run self.entry.headers.now x.value result }
    {
        let most = x.value;
        self.headers.partition_point(
            |header: &u32| -> bool
                ensures { result ≡ nat_le (prefix_sum header.now) most }
            { prefix_sum(*header) <= most },
        )
    }

    // The sum before run k.
    fn sum_before(self, k: usize) -> u32
        requires { k < length self.headers.now }
        ensures { result ≡ prev 0 self.entry.headers.now k }
    {
        if k == 0 {
            return 0;
        }
        let j = k - 1;
        prefix_sum(self.headers[j])
    }

    // Where a search in the table stops: at offset `at` of the run whose offsets go from `begin` to `last`, or at its last
    // offset, which is never read. Inlined: the table and the stop would cross in memory.
    #[inline(always)]
    pub(crate) fn seek(self, x: CodePoint) -> Stop
        ensures { Stops self.entry.headers.now self.entry.offsets.now x.value result.begin result.last result.at }
    {
        let k = self.run_of(x);
        let begin = start_index(self.headers[k]);
        let end = run_end(self.headers, self.offsets.len(), k);
        let last = end - 1;
        let at = begin + passed(&self.offsets[begin..last], x, self.sum_before(k));
        Stop { begin, last, at }
    }
}
