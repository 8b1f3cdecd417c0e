// A list lent as a slice of range records.
ghost use Rattle.std.specs.Prelude.{◌≡◌, ◌≤◌, length};
ghost use Rattle.pack.specs.Answers.{Packs};
ghost use Rattle.skip_forms.specs.Records.{flatten, filled};

use pack::Packed;
use scalar::Refusal;
use sets::MAX_RANGES;

// How many numbers the most ranges have.
const MAX_NUMBERS: usize = 2 * MAX_RANGES;

// A range of a list, both ends counted.
#[derive(Clone, Copy, Debug, PartialEq, Eq, Hash)]
pub struct Range {
    pub first: u32,
    pub last: u32,
}

// The records as flat pairs; zeros fill what is left.
#[tactic(auto, using(crate::proofs::Flat::filled_none, crate::proofs::Flat::filled_more))]
fn flat_pairs(ranges: &[Range]) -> [u32; MAX_NUMBERS]
    requires { length ranges.now ≤ 1023 }
    ensures { result ≡ filled (length ranges.now) ranges.now }
{
    let mut pairs = [0; MAX_NUMBERS];
    for (i, range) in ranges.iter().enumerate() {
        pairs[i * 2] = range.first;
        pairs[i * 2 + 1] = range.last;
    }
    pairs
}

// Packs a list of range records: the answer and the buffers are the core's over the flat pairs, where 3 can't arise.
pub fn pack_ranges(
    ranges: &[Range],
    headers: &mut [u32],
    offsets: &mut [u8],
) -> Result<Packed, Refusal>
    ensures { Packs (flatten ranges.now) headers.old offsets.old result headers.new offsets.new }
{
    if ranges.len() > MAX_RANGES {
        return Err(Refusal::TooManyRanges);
    }
    let pairs = flat_pairs(ranges);
    let used = ranges.len() * 2;
    pack::pack(&pairs[..used], headers, offsets)
}
