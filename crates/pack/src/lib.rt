// The packer: from a flat list of ranges to the headers and offsets of a skip table.
#![tactic(auto)]

ghost use Rattle.std.specs.Prelude.{◌≡◌, ℕ, ◌+◌, ◌-◌, ◌*◌, ◌%◌, ◌≤◌, ◌<◌, length, get_or};
ghost use Rattle.sets.specs.Buffers.{over};
ghost use Rattle.sets.specs.Lists.{ranges, bad_at};
ghost use Rattle.pack.specs.Packing.{small, word, offsets_of, headers_of};
ghost use Rattle.pack.specs.Places.{edges_from, runs_of};
ghost use Rattle.pack.specs.Answers.{Packs};

use scalar::Refusal;

// The largest difference that is stored as an offset.
const MAX_OFFSET: u32 = u8::MAX as u32;

// The sum of the last run.
const CLOSING_SUM: u32 = 0x1FFFFF;

// How many headers and how many offsets were written.
#[derive(Clone, Copy, Debug, PartialEq, Eq, Hash)]
pub struct Packed {
    pub headers: usize,
    pub offsets: usize,
}

// The boundary that number x at place j of a list stands for: an even place holds a first, an odd one a last.
fn edge(j: usize, x: u32) -> u32
    requires { x + j % 2 ≤ 0x110000 }
    ensures { result ≡ x + j % 2 }
{
    x + (j % 2) as u32
}

// A difference as it is stored.
fn offset_of(gap: u32) -> u8
    ensures { result ≡ small gap }
{
    u8::try_from(gap).unwrap_or(0)
}

// A header word, as Rust's ShortOffsetRunHeader::new makes it.
fn header(start: usize, sum: u32) -> u32
    requires { (start < 2048) × (sum < 2097152) }
    ensures { result ≡ word start sum }
{
    start as u32 * 0x200000 + sum
}

// The numbers of a list that the check accepts.
#[derive(Clone, Copy)]
struct Accepted<'a> {
    numbers: &'a [u32],
    ghost even: { length numbers.now % 2 ≡ 0 },
    ghost few: { ranges numbers.now ≤ 1023 },
    ghost fine: { ranges numbers.now ≤ bad_at 0 0 numbers.now },
}

impl<'a> Accepted<'a> {
    // How many runs the list's boundaries make: one more than there are differences above 255.
    #[tactic(auto, using(crate::proofs::Edges::places_in_order, crate::proofs::Turns::runs_turns))]
    fn count_runs(self) -> usize
        ensures { result ≡ runs_of 0 (edges_from 0 self.entry.numbers.now) }
    {
        let mut runs: usize = 1;
        let mut before: u32 = 0;
        for (j, x) in self.numbers.iter().enumerate() {
            let b = edge(j, *x);
            if b - before > MAX_OFFSET {
                runs += 1;
            }
            before = b;
        }
        runs
    }

    #[tactic(auto, using(crate::proofs::Edges::places_in_order, crate::proofs::Turns::offsets_turns))]
    fn write_offsets(self, offsets: &mut [u8])
        requires { length self.numbers.now < length offsets.old }
        ensures { offsets.new ≡ over (offsets_of 0 (edges_from 0 self.entry.numbers.now)) offsets.old }
    {
        let mut before: u32 = 0;
        for (i, x) in self.numbers.iter().enumerate() {
            let b = edge(i, *x);
            offsets[i] = offset_of(b - before);
            before = b;
        }
        offsets[self.numbers.len()] = 0;
    }

    #[tactic(auto, using(crate::proofs::Edges::places_in_order, crate::proofs::Turns::headers_turns))]
    fn write_headers(self, headers: &mut [u32])
        requires { length (headers_of 0 0 0 (edges_from 0 self.numbers.now)) ≤ length headers.old }
        ensures { headers.new ≡ over (headers_of 0 0 0 (edges_from 0 self.entry.numbers.now)) headers.old }
    {
        let mut before: u32 = 0;
        let mut start: usize = 0;
        let mut k: usize = 0;
        for (j, x) in self.numbers.iter().enumerate() {
            let b = edge(j, *x);
            if b - before > MAX_OFFSET {
                headers[k] = header(start, b);
                k += 1;
                start = j + 1;
            }
            before = b;
        }
        headers[k] = header(start, CLOSING_SUM);
    }
}

// Packs a flat list; refuses 3, 4, 5, 6, 7 in that order. A refusal writes nothing, and a success nothing past what it reports.
#[tactic(auto, using(sets::proofs::Answers::accepted_good, crate::proofs::Edges::places))]
pub fn pack(list: &[u32], headers: &mut [u32], offsets: &mut [u8]) -> Result<Packed, Refusal>
    ensures { Packs list.now headers.old offsets.old result headers.new offsets.new }
{
    let n = sets::check_list(list)?;
    let need = 2 * n + 1;
    if offsets.len() < need {
        return Err(Refusal::ShortOffsets(need));
    }
    let list = Accepted { numbers: list };
    let runs = list.count_runs();
    if headers.len() < runs {
        return Err(Refusal::ShortHeaders(runs));
    }
    list.write_offsets(offsets);
    list.write_headers(headers);
    Ok(Packed {
        headers: runs,
        offsets: need,
    })
}
