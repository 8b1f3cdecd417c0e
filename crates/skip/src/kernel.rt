// What other crates call: the lowest broken rule, and the search in a table that keeps the rules.
ghost use Rattle.std.specs.Prelude.{◌≡◌, ◌+◌, ◌<◌, ◌≤◌, None, length, drop};
ghost use Rattle.sets.specs.Boundaries.{member};
ghost use Rattle.skip.specs.Headers.{run_end};
ghost use Rattle.skip.specs.Table.{boundaries};
ghost use Rattle.skip.specs.Answers.{hit};
ghost use Rattle.skip.specs.Rules.{broken};

use crate::rules::{sizes_ok, starts_at_zero, starts_rise, sums_fit, sums_rise};
use crate::start_index;
use crate::table::Table;
use scalar::{CodePoint, Rule};

// Whether a number is in a table, and how many offsets of its run were read.
#[derive(Clone, Copy, Debug, PartialEq, Eq, Hash)]
pub struct Hit {
    pub yes: bool,
    pub read: usize,
}

// Where run k ends: the next start, or the end of the n offsets. Of the offsets only their number counts.
pub fn run_end(headers: &[u32], n: usize, k: usize) -> usize
    requires { k < length headers.now }
    ensures { result ≡ run_end n (drop (k + 1) headers.now) }
{
    match headers.get(k + 1) {
        Some(next) => start_index(*next),
        None => n,
    }
}

// The lowest broken rule.
#[tactic(auto, unfolding(crate::specs::Rules::lowest_of), using(crate::proofs::Lowest5::few_offsets))]
pub fn lowest_broken(headers: &[u32], offsets: &[u8]) -> Option<Rule>
    ensures { result ≡ broken headers.now offsets.now }
{
    if !sizes_ok(headers, offsets) {
        return Some(Rule::W1);
    }
    if !starts_at_zero(headers) {
        return Some(Rule::W2);
    }
    if !starts_rise(headers, offsets.len()) {
        return Some(Rule::W3);
    }
    if !sums_rise(headers) {
        return Some(Rule::W4);
    }
    if !sums_fit(headers, offsets) {
        return Some(Rule::W5);
    }
    None
}

// Whether an accepted table holds x: an odd number of boundaries are at most it. Inlined: each look-up knows its own table.
#[inline(always)]
pub fn skip_search(headers: &[u32], offsets: &[u8], x: CodePoint) -> bool
    requires { broken headers.now offsets.now ≡ None }
    ensures { result ≡ member (boundaries headers.now offsets.now) x.value }
{
    let stop = Table { headers, offsets }.seek(x);
    stop.at % 2 == 1
}

// The same, with the count of the offsets read.
pub fn skip_search_counted(headers: &[u32], offsets: &[u8], x: u32) -> Hit
    requires { (broken headers.now offsets.now ≡ None) × (x ≤ 0x10FFFF) }
    ensures { result ≡ hit headers.now offsets.now x }
{
    let stop = Table { headers, offsets }.seek(CodePoint { value: x });
    let yes = stop.at % 2 == 1;
    let read = if stop.at < stop.last {
        stop.at - stop.begin + 1
    } else {
        stop.last - stop.begin
    };
    Hit { yes, read }
}
