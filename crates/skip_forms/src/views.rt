// Headers and offsets that travel as one view: it answers as the two slices do.
ghost use Rattle.std.specs.Prelude.{◌≡◌};
ghost use Rattle.skip.specs.Answers.{checks, searches, finds};

use scalar::Refusal;
use skip::{Hit, check, search, search_counted};

#[derive(Clone, Copy, Debug, PartialEq, Eq, Hash)]
pub struct TableView<'a, 'b> {
    pub headers: &'a [u32],
    pub offsets: &'b [u8],
}

impl<'a, 'b> TableView<'a, 'b> {
    // The two slices as one view.
    pub fn new(headers: &'a [u32], offsets: &'b [u8]) -> TableView<'a, 'b>
        ensures { (result.headers ≡ headers.entry) × (result.offsets ≡ offsets.entry) }
    {
        TableView { headers, offsets }
    }

    // Whether the table keeps the rules W1 to W5; else 8 with the lowest that it breaks.
    pub fn check(self) -> Result<(), Refusal>
        ensures { result ≡ checks self.entry.headers.now self.entry.offsets.now }
    {
        check(self.headers, self.offsets)
    }

    // Whether x is in the table's set; refuses 8, then 1.
    pub fn search(self, x: u32) -> Result<bool, Refusal>
        ensures { result ≡ searches self.entry.headers.now self.entry.offsets.now x }
    {
        search(self.headers, self.offsets, x)
    }

    // The same, with the count of the offsets of its run that were read.
    pub fn search_counted(self, x: u32) -> Result<Hit, Refusal>
        ensures { result ≡ finds self.entry.headers.now self.entry.offsets.now x }
    {
        search_counted(self.headers, self.offsets, x)
    }
}

// The search of the two slices by way of their view: for a caller that has plain slices. It and the next are one shape, since
// docs/PROMISES.md promises both.
pub fn search_by_view(headers: &[u32], offsets: &[u8], x: u32) -> Result<bool, Refusal>
    ensures { result ≡ searches headers.now offsets.now x }
{
    TableView::new(headers, offsets).search(x)
}

// The same, with the count.
pub fn search_by_view_counted(headers: &[u32], offsets: &[u8], x: u32) -> Result<Hit, Refusal>
    ensures { result ≡ finds headers.now offsets.now x }
{
    TableView::new(headers, offsets).search_counted(x)
}
