// Generated from library/core/src/unicode/unicode_data.rs of Rust 1.97.0 by `oracle/make`; do not edit.
ghost use Rattle.std.specs.Prelude.{◌≡◌, ◌<◌, length};
ghost use Rattle.bitset.specs.Marks.{marks_at};
ghost use Rattle.table_numeric.specs.Marks.{marks};

// how many words there are
pub(crate) const MARKS_LENGTH: usize = 32;

// What the last arms answer, which no index reaches. No other arm has it, so that none is merged with them.
const UNREACHED: u64 = 0x0123456789ABCDEF;

// whether a bucket of 64 numbers holds one at all, 64 buckets to a word, the lowest first
#[tactic(auto, unfolding(bitset::specs::Marks::marks_at, crate::specs::Marks::marks))]
pub(crate) fn marks_at(k: usize) -> u64
    requires { k < length marks }
    ensures { result ≡ marks_at marks k }
{
    match k {
        0 => 0x1AAAAAA08A000004,
        1 => 0x000264A188002006,
        2 => 0x00080000600E0066,
        3 => 0x0000000000000741,
        4 => 0x0000000000000000,
        5 => 0x0000000000000000,
        6 => 0x0000000000000000,
        7 => 0x0000000000000000,
        8 => 0x0000000000000000,
        9 => 0x0000000000000000,
        10 => 0x0000829909000000,
        11 => 0x0000000000000000,
        12 => 0x0000000000000000,
        13 => 0x0000000000000000,
        14 => 0x0000000000000000,
        15 => 0x1000000000000000,
        16 => 0xB2386EDE0004B870,
        17 => 0xA0E280281A0A089A,
        18 => 0x0000000000030000,
        19 => 0x0000000000000000,
        20 => 0x0000000000000000,
        21 => 0x0000000000000000,
        22 => 0x84202A0000000010,
        23 => 0x0000000000000000,
        24 => 0x0000000000000000,
        25 => 0x0000000000000000,
        26 => 0x0000000000000000,
        27 => 0x0000000000000000,
        28 => 0x0008000000000000,
        29 => 0x0000000080002800,
        30 => 0x0016002800880820,
        31 => 0x0000800000000010,
        _ => UNREACHED,
    }
}
