// Runs the bitset reader on a foreign table whose one pair has bits 6 and 7 both set, as no built-in pair has: it inverts
// first and then shifts right by 4, so that of the numbers 0 to 63 exactly 4 to 59 are in it. Shifting first would add 60 to 63.
#![tactic(auto)]

use bitset::Lent;
use bitset::kernel::contains;
use std::io;
use std::io::Write;

const MAP: [u8; 1] = [0];

const CHUNKS: [u8; 16] = [1, 0, 0, 0, 0, 0, 0, 0, 0, 0, 0, 0, 0, 0, 0, 0];

const CANONICAL: [u64; 1] = [0xF0];

const REAL: [u8; 1] = [0];

const MAPPING: [u8; 1] = [0xC4];

fn main(rt: HostRuntime) -> io::Result<()> {
    let table = Lent {
        map: &MAP,
        chunks: &CHUNKS,
        canonical: &CANONICAL,
        real: &REAL,
        mapping: &MAPPING,
    };
    let mut text = [b'\n'; 65];
    for (digit, n) in text.iter_mut().zip(0..64) {
        *digit = if contains(&table, n) { b'1' } else { b'0' };
    }
    io::writer(&rt).write_all(&text)
}
