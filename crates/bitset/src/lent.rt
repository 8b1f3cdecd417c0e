// A bitset whose tables are lent.
ghost use Rattle.std.specs.Prelude.{◌≡◌};
ghost use Rattle.bitset.specs.Bitsets.{bitset, Inside};

use crate::kernel::{Tables, mapped};

#[derive(Clone, Copy)]
pub struct Lent<'a> {
    pub map: &'a [u8],
    pub chunks: &'a [u8],
    pub canonical: &'a [u64],
    pub real: &'a [u8],
    pub mapping: &'a [u8],
    ghost inside: { Inside (bitset map.now chunks.now canonical.now real.now mapping.now) },
}

impl<'a> Tables for Lent<'a> {
    ghost tables = { λ s. bitset s.map.now s.chunks.now s.canonical.now s.real.now s.mapping.now };

    fn map_len(&self) -> usize {
        self.map.len()
    }

    fn chunk_at(&self, i: usize) -> u8 {
        self.map[i]
    }

    fn index_at(&self, i: usize) -> u8 {
        self.chunks[i]
    }

    #[tactic(auto, using(crate::proofs::Tables::below_read), unfolding(crate::specs::Bitsets::word_at))]
    fn word_at(&self, i: usize) -> u64 {
        if i < self.canonical.len() {
            return self.canonical[i];
        }
        let pair = i - self.canonical.len();
        mapped(
            self.mapping[pair],
            self.canonical[usize::from(self.real[pair])],
        )
    }

    ghost inside = { λ s. s.inside };
}
