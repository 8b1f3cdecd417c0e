// The lookup: the bitset's search in the tables that are compiled in.
ghost use Rattle.std.specs.Prelude.{◌≡◌};
ghost use Rattle.sets.specs.Lists.{holds};
ghost use Rattle.table_lowercase.specs.Flat.{flat};
ghost use Rattle.table_lowercase.specs.Inside.{table, table_inside};

use crate::table::{CHUNK_MAP_LENGTH, chunk_map_eight, chunks_eight, word_at};
use bitset::kernel::{Tables, byte_at, contains};

struct Lowercase;

impl Tables for Lowercase {
    ghost tables = { λ s. table };

    #[tactic(auto, unfolding(crate::specs::Table::chunk_map))]
    fn map_len(&self) -> usize {
        CHUNK_MAP_LENGTH
    }

    fn chunk_at(&self, i: usize) -> u8 {
        byte_at(chunk_map_eight(i / 8), i)
    }

    fn index_at(&self, i: usize) -> u8 {
        byte_at(chunks_eight(i / 8), i)
    }

    fn word_at(&self, i: usize) -> u64 {
        word_at(i)
    }

    ghost inside = { λ s. table_inside };
}

// Whether n is lowercase and no ASCII letter.
#[tactic(auto, using(crate::proofs::Right::table_right))]
pub fn lookup(n: u32) -> bool
    ensures { result ≡ holds flat n }
{
    contains(&Lowercase, n)
}
