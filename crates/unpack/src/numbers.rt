// The list that a table unpacks to, number by number.
ghost use Rattle.std.specs.Prelude.{◌≡◌, ◌+◌, ◌≤◌, false, length, drop};
ghost use Rattle.skip.specs.Headers.{run_end};
ghost use Rattle.skip.specs.Table.{boundaries};
ghost use Rattle.unpack.specs.Flow.{leaves, waits, flow, number_of, numbers};

use scalar::Scalar;
use skip::{prefix_sum, start_index};

// Boundary b as the next number of the list: a first, or the last before it.
fn number_of(last: bool, b: u32) -> u32
    ensures { result ≡ number_of last b }
{
    if last { b.saturating_sub(1) } else { b }
}

// Whether the boundary p, if it waits, is listed when b comes, and whether b waits then: an equal one cancels it.
fn meets(waiting: bool, p: u32, b: u32) -> (bool, bool)
    ensures { (result.0 ≡ leaves waiting p b) × (result.1 ≡ waits waiting (leaves waiting p b)) }
{
    let listed = waiting && p != b;
    (listed, listed || !waiting)
}

// Where the run of the first header ends: the next start, or the end of the n offsets.
fn first_end(headers: &[u32], n: usize) -> usize
    ensures { result ≡ run_end n (drop 1 headers.now) }
{
    match headers {
        [_, next, ..] => start_index(*next),
        _ => n,
    }
}

// The numbers that are left to list.
#[derive(Clone, Copy)]
pub(crate) struct Numbers<'a, 'b> {
    // The headers from the current run on and the offsets from index i on, of n offsets.
    headers: &'a [u32],
    offsets: &'b [u8],
    n: usize,
    i: usize,
    // Where the current run ends: it is read once for a run, and not for each offset.
    end: usize,
    // The boundary so far, which the next one may stand on, and whether it waits to be listed.
    at: u32,
    waiting: bool,
    // Whether the next number is the last of a range.
    last: bool,
    ghost inside: { at ≤ 0x10FFFF },
    ghost places: { i + length offsets.now ≤ n },
    ghost ends: { end ≡ run_end n (drop 1 headers.now) },
}

impl<'a, 'b> Numbers<'a, 'b> {
    ghost use Rattle.unpack.specs.Left.{numbers_left, GivesBoundary};

    pub(crate) fn new(headers: &'a [u32], offsets: &'b [u8]) -> Numbers<'a, 'b>
        ensures { numbers_left result ≡ numbers false (flow false 0 (boundaries headers.now offsets.now)) }
    {
        Numbers {
            headers,
            offsets,
            n: offsets.len(),
            i: 0,
            end: first_end(headers, offsets.len()),
            at: 0,
            waiting: false,
            last: false,
        }
    }

    // The next boundary. Those of an accepted table do not fall, so past 0x10FFFF none is left.
    #[inline(always)]
    fn boundary(&mut self) -> Option<u32>
        ensures { GivesBoundary self.old result self.new }
    {
        let (header, later) = self.headers.split_first()?;
        let (offset, rest) = self.offsets.split_first()?;
        if self.i + 1 != self.end {
            let b = self.at + u32::from(*offset);
            if b > Scalar::MAX {
                return None;
            }
            self.offsets = rest;
            self.i += 1;
            return Some(b);
        }
        let b = prefix_sum(*header);
        if b > Scalar::MAX {
            return None;
        }
        *self = Numbers {
            headers: later,
            offsets: rest,
            n: self.n,
            i: self.i + 1,
            end: first_end(later, self.n),
            at: self.at,
            waiting: self.waiting,
            last: self.last,
        };
        Some(b)
    }
}

impl<'a, 'b> Iterator for Numbers<'a, 'b> {
    ghost use Rattle.std.specs.Iterator.{YieldsFirst, item_count};
    ghost use Rattle.unpack.specs.Left.{numbers_left};

    type Item = u32;

    ghost next_gives = { YieldsFirst numbers_left };

    ghost remaining = { item_count numbers_left };

    #[inline(always)]
    fn next(&mut self) -> Option<u32> {
        while let Some(b) = self.boundary() {
            let before = self.at;
            let (listed, waiting) = meets(self.waiting, before, b);
            self.at = b;
            self.waiting = waiting;
            if listed {
                let number = number_of(self.last, before);
                self.last = !self.last;
                return Some(number);
            }
        }
        if self.waiting {
            self.waiting = false;
            let number = number_of(self.last, self.at);
            self.last = !self.last;
            return Some(number);
        }
        // The last of a pair that is open.
        let open = self.last;
        self.last = false;
        if open { Some(Scalar::MAX) } else { None }
    }
}
