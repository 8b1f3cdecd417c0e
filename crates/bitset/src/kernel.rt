// The search in a bitset's five tables, and the steps that readers of the tables take.
ghost use Rattle.std.specs.Prelude.{◌≡◌, ◌+◌, ◌%◌, ◌<◌, length, slice_index};
ghost use Rattle.bitset.specs.Bitsets.{Bitset, bitset, bit, inverted, turned, mapped, word_at, contains, Inside};
ghost use Rattle.bitset.specs.Packed.{byte};

use crate::lent::Lent;

// The tables of a bitset: lent slices, or functions that are compiled in.
pub trait Tables {
    ghost tables: { Self → Bitset };

    // How many chunks the map has.
    fn map_len(&self) -> usize
        ensures { result ≡ length (tables self.now).map };

    fn chunk_at(&self, i: usize) -> u8
        requires { i < length (tables self.now).map }
        ensures { result ≡ slice_index (tables self.now).map i };

    fn index_at(&self, i: usize) -> u8
        requires { i < length (tables self.now).chunks }
        ensures { result ≡ slice_index (tables self.now).chunks i };

    // The word of an index byte: a canonical word, or a pair's word after its mapping.
    fn word_at(&self, i: usize) -> u64
        requires { i < length (tables self.now).canonical + length (tables self.now).real }
        ensures { result ≡ word_at (tables self.now).canonical (tables self.now).real (tables self.now).mapping i };

    ghost inside: { (s : Self) → Inside (tables s) };
}

// Whether the bit of n is set.
pub fn contains<T: Tables>(tables: &T, n: u32) -> bool
    ensures { result ≡ contains (T.tables tables.now) n }
{
    let bucket = (n / 64) as usize;
    let chunk = bucket / 16;
    if chunk >= tables.map_len() {
        return false;
    }
    let at = usize::from(tables.chunk_at(chunk)) * 16 + bucket % 16;
    let index = usize::from(tables.index_at(at));
    has_bit(tables.word_at(index), n)
}

// The same in lent slices.
pub fn bitset_search(
    n: u32,
    map: &[u8],
    chunks: &[u8],
    canonical: &[u64],
    real: &[u8],
    mapping: &[u8],
) -> bool
    requires { Inside (bitset map.now chunks.now canonical.now real.now mapping.now) }
    ensures { result ≡ contains (bitset map.now chunks.now canonical.now real.now mapping.now) n }
{
    let tables = Lent {
        map,
        chunks,
        canonical,
        real,
        mapping,
    };
    contains(&tables, n)
}

// The mapping and the word stay two numbers in what follows: a struct of them would be no plainer.
fn invert(mapping: u8, word: u64) -> u64
    ensures { result ≡ inverted mapping word }
{
    if mapping / 64 % 2 == 1 { !word } else { word }
}

#[tactic(auto, using(crate::proofs::Rotate::as_std))]
fn turn(mapping: u8, word: u64) -> u64
    ensures { result ≡ turned mapping word }
{
    let quantity = u32::from(mapping % 64);
    if mapping / 128 % 2 == 1 {
        word >> quantity
    } else {
        word.rotate_left(quantity)
    }
}

// What a pair makes of its canonical word. The inversion comes first: what a shift brings in stays zero.
pub fn mapped(mapping: u8, word: u64) -> u64
    ensures { result ≡ mapped mapping word }
{
    turn(mapping, invert(mapping, word))
}

// Whether the bit of n is set in the word of its bucket.
pub fn has_bit(word: u64, n: u32) -> bool
    ensures { result ≡ bit (n % 64) word }
{
    (word >> (n % 64)) % 2 == 1
}

// The byte of a table at an index, from the word that holds it among eight.
pub fn byte_at(word: u64, index: usize) -> u8
    ensures { result ≡ byte (index % 8) word }
{
    ((word >> (8 * (index % 8))) % 256) as u8
}
