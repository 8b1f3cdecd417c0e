// Skip tables: header words, the checker, and the search, plain or with its read count. Headers and offsets are two slices here, as C
// lends them and as document 01 asks of the core.
#![tactic(auto)]

ghost use Rattle.std.specs.Prelude.{◌≡◌};
ghost use Rattle.skip.specs.Headers.{start_index, prefix_sum};
ghost use Rattle.skip.specs.Answers.{checks, searches, finds};

pub mod kernel;
mod rules;
mod table;

pub use kernel::Hit;
use kernel::{lowest_broken, skip_search_counted};
use scalar::{CodePoint, Refusal};

// A header word's start index, as Rust's ShortOffsetRunHeader has it.
pub fn start_index(h: u32) -> usize
    ensures { result ≡ start_index h }
{
    (h / 2097152) as usize
}

// A header word's prefix sum.
pub fn prefix_sum(h: u32) -> u32
    ensures { result ≡ prefix_sum h }
{
    h % 2097152
}

// Whether the table keeps the rules W1 to W5; else 8 with the lowest that it breaks.
#[tactic(auto, unfolding(crate::specs::Answers::table_else))]
pub fn check(headers: &[u32], offsets: &[u8]) -> Result<(), Refusal>
    ensures { result ≡ checks headers.now offsets.now }
{
    match lowest_broken(headers, offsets) {
        Some(rule) => Err(Refusal::BrokenRule(rule)),
        None => Ok(()),
    }
}

// Whether x is in the table's set, with the count of the offsets of its run that were read; refuses 8, then 1.
#[tactic(auto, unfolding(crate::specs::Answers::table_else), using(crate::proofs::Answers::accepted_rules, scalar::proofs::Points::point_refused, scalar::proofs::Points::point_good, scalar::proofs::Points::point_value))]
pub fn search_counted(headers: &[u32], offsets: &[u8], x: u32) -> Result<Hit, Refusal>
    ensures { result ≡ finds headers.now offsets.now x }
{
    check(headers, offsets)?;
    let point = CodePoint::new(x)?;
    Ok(skip_search_counted(headers, offsets, point.value))
}

// The same without the count.
#[tactic(auto, using(crate::proofs::Answers::searches_agree))]
pub fn search(headers: &[u32], offsets: &[u8], x: u32) -> Result<bool, Refusal>
    ensures { result ≡ searches headers.now offsets.now x }
{
    Ok(search_counted(headers, offsets, x)?.yes)
}
