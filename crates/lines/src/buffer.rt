// Text in a buffer of its own, put together piece by piece or read; what it has no room for is left out.
ghost use Rattle.std.specs.Prelude.{◌≡◌, ℕ, ◌≤◌, List, [], ◌∷◌, ◌++◌, length, take};
ghost use Rattle.lines.specs.Buffers.{ShowsNext, ShowsLine};

use crate::text::{put, put_decimal, put_hex};
use std::marker::Model;

#[derive(Drop)]
pub struct TextBuffer<const N: usize> {
    bytes: [u8; N],
    len: usize,
}

// Clauses see the text.
impl<const N: usize> Model for TextBuffer<N> {
    ghost Value = { List ℕ };

    ghost view = { λ t. take t.len t.bytes };

    ghost invariant = { λ t. t.len ≤ N };
}

impl<const N: usize> TextBuffer<N> {
    pub fn new() -> Self
        ensures { result ≡ [] }
    {
        TextBuffer {
            bytes: [0; N],
            len: 0,
        }
    }

    pub fn as_bytes(&self) -> &[u8]
        ensures value { result.now ≡ self.now }
        ensures within { length result.now ≤ N }
    {
        &self.bytes[..self.len]
    }

    pub fn clear(&mut self)
        ensures { self.new ≡ [] }
    {
        self.len = 0;
    }

    pub fn put(&mut self, bytes: &[u8])
        ensures { self.new ≡ take N (self.old ++ bytes.now) }
    {
        self.len = put(&mut self.bytes, self.len, bytes);
    }

    // One function for each form of a value: a trait of what can be put would need a type for each base, and reads no plainer. `write!`
    // would give an error at each call, which can't come, and takes no name that is not UTF-8.
    // A number in decimal, with no zeros in front.
    pub fn decimal(&mut self, n: u64)
        ensures { ShowsNext N 10 n self.old self.new }
    {
        self.len = put_decimal(&mut self.bytes, self.len, n);
    }

    // A number in lowercase hex, with no zeros in front.
    pub fn hex(&mut self, n: u64)
        ensures { ShowsNext N 16 n self.old self.new }
    {
        self.len = put_hex(&mut self.bytes, self.len, n);
    }

    // A line of a key and a value, as they are.
    pub fn line(&mut self, key: &[u8], value: &[u8])
        ensures { self.new ≡ take N (self.old ++ key.now ++ value.now ++ 10 ∷ []) }
    {
        self.put(key);
        self.put(value);
        self.put(b"\n");
    }

    pub fn decimal_line(&mut self, key: &[u8], n: u64)
        ensures { ShowsLine N 10 key.now n self.old self.new }
    {
        self.put(key);
        self.decimal(n);
        self.put(b"\n");
    }

    pub fn hex_line(&mut self, key: &[u8], n: u64)
        ensures { ShowsLine N 16 key.now n self.old self.new }
    {
        self.put(key);
        self.hex(n);
        self.put(b"\n");
    }
}
