// The printable tables' two formats, read from any bytes: length lists, whose runs are yes and no by turns, and listed
// singletons.
#![tactic(auto)]

ghost use Rattle.std.specs.Prelude.{◌≡◌};
ghost use Rattle.runs.specs.Tables.{printable_by};

mod length_list;
mod singletons;

// A plane's tables. High bytes and counts stay two lists, not one of pairs: `printable_by` answers for lists of unlike lengths.
#[derive(Clone, Copy)]
pub struct Plane<'a> {
    pub highs: &'a [u8],
    pub counts: &'a [u8],
    pub lows: &'a [u8],
    pub normal: &'a [u8],
}

impl<'a> Plane<'a> {
    // Whether the tables call x printable: a listed singleton is no, else the length list decides, starting with yes.
    pub fn check(&self, x: u16) -> bool
        ensures { result ≡ printable_by self.now.highs.now self.now.counts.now self.now.lows.now self.now.normal.now x }
    {
        !singletons::is_singleton(self.highs, self.counts, self.lows, x)
            && length_list::starts_yes(self.normal, x)
    }
}
