// Generated from library/core/src/unicode/unicode_data.rs of Rust 1.97.0 by `oracle/make`; do not edit.
// A constant array would be built anew at each use; a `match` with an arm for each index is one load.
ghost use Rattle.std.specs.Prelude.{◌≡◌, ◌+◌, ◌*◌, ◌<◌, length};
ghost use Rattle.bitset.specs.Bitsets.{word_at};
ghost use Rattle.bitset.specs.Packed.{eight};
ghost use Rattle.table_lowercase.specs.Table.{chunk_map, chunks, canonical, mapped_word, mapping};

use bitset::kernel::mapped;

// how many chunks of 1,024 numbers the map has
pub const CHUNK_MAP_LENGTH: usize = 123;

// What the last arms answer, which no index reaches. No other arm has it, so that none is merged with them.
const UNREACHED: u64 = 0x0123456789ABCDEF;

// the chunk of each 1,024 numbers, eight bytes to an arm, the lowest first
#[tactic(auto, unfolding(bitset::specs::Packed::eight, bitset::specs::Packed::joined, crate::specs::Table::chunk_map))]
pub(crate) fn chunk_map_eight(k: usize) -> u64
    requires { 8 * k < length chunk_map }
    ensures { result ≡ eight chunk_map k }
{
    match k {
        0 => 0x0D0000090000110C,
        1 => 0x0000000010000A0E,
        2 => 0x0000000000000000,
        3 => 0x0000000000000000,
        4 => 0x0000000000000000,
        5 => 0x0000000000020600,
        6 => 0x0000000000000000,
        7 => 0x0104000000000000,
        8 => 0x000B000008000F00,
        9 => 0x0000000000000000,
        10 => 0x0000000000000000,
        11 => 0x0000000005000000,
        12 => 0x0000000000000000,
        13 => 0x0000000000000000,
        14 => 0x0300130000000000,
        15 => 0x0000000000070012,
        _ => UNREACHED,
    }
}

// the index bytes of the chunks, eight to an arm, the lowest first
#[tactic(auto, unfolding(bitset::specs::Packed::eight, bitset::specs::Packed::joined, crate::specs::Table::chunks))]
pub(crate) fn chunks_eight(k: usize) -> u64
    requires { 8 * k < length chunks }
    ensures { result ≡ eight chunks k }
{
    match k {
        0 => 0x0000000000000000,
        1 => 0x0000000000000000,
        2 => 0x0000000000000000,
        3 => 0x00003F0000000000,
        4 => 0x0000000000000000,
        5 => 0x00390E1000000000,
        6 => 0x0000000000000000,
        7 => 0x0000002900000000,
        8 => 0x0000000000000000,
        9 => 0x0000002D00000000,
        10 => 0x0000000000000000,
        11 => 0x000000003E130800,
        12 => 0x0000000000000000,
        13 => 0x22333135002C4500,
        14 => 0x00003A0900000000,
        15 => 0x0000000000000000,
        16 => 0x003B100003000000,
        17 => 0x0000000000000000,
        18 => 0x0000000014000000,
        19 => 0x1C00000000000000,
        20 => 0x0000000040000000,
        21 => 0x0000000000000000,
        22 => 0x0000000049000000,
        23 => 0x0000000000000000,
        24 => 0x3237361811230000,
        25 => 0x200C1D002B240730,
        26 => 0x00393939002F0000,
        27 => 0x26191A2517471717,
        28 => 0x004D0F1E00480500,
        29 => 0x0000000000000000,
        30 => 0x001F000006003D0A,
        31 => 0x0021000000000000,
        32 => 0x0000002827171B10,
        33 => 0x0000000000000000,
        34 => 0x003C084616023410,
        35 => 0x0000000000000000,
        36 => 0x0000000000004A10,
        37 => 0x0000000000000000,
        38 => 0x0D1241440B382A43,
        39 => 0x2E044C4B154E4201,
        _ => UNREACHED,
    }
}

// the word of an index byte: the canonical words, and then the pairs, each by its mapping and its word
#[tactic(auto, unfolding(bitset::specs::Bitsets::word_at, crate::specs::Table::canonical, crate::specs::Table::mapped_word, crate::specs::Table::mapping))]
pub(crate) fn word_at(index: usize) -> u64
    requires { index < length canonical + length mapped_word }
    ensures { result ≡ word_at canonical mapped_word mapping index }
{
    match index {
        0 => 0x0000000000000000,
        1 => 0x0FFFFFFC000000FF,
        2 => 0xAAAAAAAAAAAAA802,
        3 => 0x0007FFFFFFFFFFFF,
        4 => 0xFFFFFC000000FDFF,
        5 => 0x8002000000000000,
        6 => 0x0FFFFFFFFF000000,
        7 => 0xFFFFFFFFFFFFAA85,
        8 => 0xFFFFFFFF00000000,
        9 => 0xFFFFFFFC00000000,
        10 => 0xFFFFFF0000000000,
        11 => 0xFFFFFC000000FFEF,
        12 => 0xFFFFF00000010000,
        13 => 0xFFFFC000000FFFFF,
        14 => 0xFFFF03FFF7FFFFFF,
        15 => 0xFFFF0000000043C0,
        16 => 0xFFFF000000000000,
        17 => 0xFF7FFFFF80000000,
        18 => 0xFC000000FFFFFFC0,
        19 => 0xF800000000000000,
        20 => 0xF7FFFFFFFFFF0000,
        21 => 0xF0000003F7FFFFFC,
        22 => 0xAAAAAAAAAAAAD554,
        23 => 0xAAAAAAAAAAAAAAAA,
        24 => 0x55AAAAAAAAAAAAAA,
        25 => 0x40DF00FF00FF00FF,
        26 => 0x3FFF00FF00FF003F,
        27 => 0x3FDA1562FFFFFFFF,
        28 => 0x3F00000000000000,
        29 => 0x3C8A000000000020,
        30 => 0x321080000008C400,
        31 => 0x1BFBFFFBFF800000,
        32 => 0x192FAAAAAAE37FFF,
        33 => 0x07FDFFFFFFFFFFB9,
        34 => 0x075E00000AAAA50A,
        35 => 0x0420040000000000,
        36 => 0x01FFFFFFFFCFFFFF,
        37 => 0x00FF00FF003F00FF,
        38 => 0x00DC00FF00CF00DC,
        39 => 0x0008501AAAAAAAAA,
        40 => 0x000020BFFFFFFFFF,
        41 => 0x000007E07FFFFBFF,
        42 => 0x000000FFFFDFC000,
        43 => 0x0000001F00000003,
        44 => 0x000000003AAAAAAA,
        45 => 0x0000000000F8007F,
        46 => 0x0000000000000BF7,
        47 => 0x00000000000005FF,
        48 => 0x93FAAAAAAAAAAAAA,
        49 => 0x95FFAAAAAAAAAAAA,
        50 => 0xAA29AAAAB5555240,
        51 => 0xAAA082AAAABA50AA,
        52 => 0xAAAAAAAAFFFFFFFF,
        53 => 0xAAABAAA800000000,
        54 => 0xD4AAAAAAAAAAAB55,
        55 => 0xE6512D2A4E243129,
        56 => 0xEBC000000FFFFFFC,
        57 => mapped(64, 0x0000000000000000),
        58 => mapped(184, 0x0FFFFFFC000000FF),
        59 => mapped(182, 0x0FFFFFFC000000FF),
        60 => mapped(179, 0x0FFFFFFC000000FF),
        61 => mapped(172, 0x0FFFFFFC000000FF),
        62 => mapped(168, 0x0FFFFFFC000000FF),
        63 => mapped(161, 0x0FFFFFFC000000FF),
        64 => mapped(146, 0x0FFFFFFC000000FF),
        65 => mapped(144, 0x0FFFFFFC000000FF),
        66 => mapped(140, 0x0FFFFFFC000000FF),
        67 => mapped(136, 0x0FFFFFFC000000FF),
        68 => mapped(132, 0x0FFFFFFC000000FF),
        69 => mapped(146, 0xAAAAAAAAAAAAA802),
        70 => mapped(144, 0xAAAAAAAAAAAAA802),
        71 => mapped(83, 0xAAAAAAAAAAAAA802),
        72 => mapped(93, 0x0007FFFFFFFFFFFF),
        73 => mapped(147, 0x0007FFFFFFFFFFFF),
        74 => mapped(133, 0x0007FFFFFFFFFFFF),
        75 => mapped(12, 0xFFFFFC000000FDFF),
        76 => mapped(6, 0xFFFFFC000000FDFF),
        77 => mapped(187, 0x8002000000000000),
        78 => mapped(78, 0x0FFFFFFFFF000000),
        _ => UNREACHED,
    }
}
