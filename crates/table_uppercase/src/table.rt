// Generated from library/core/src/unicode/unicode_data.rs of Rust 1.97.0 by `oracle/make`; do not edit.
// A constant array would be built anew at each use; a `match` with an arm for each index is one load.
ghost use Rattle.std.specs.Prelude.{◌≡◌, ◌+◌, ◌*◌, ◌<◌, length};
ghost use Rattle.bitset.specs.Bitsets.{word_at};
ghost use Rattle.bitset.specs.Packed.{eight};
ghost use Rattle.table_uppercase.specs.Table.{chunk_map, chunks, canonical, mapped_word, mapping};

use bitset::kernel::mapped;

// how many chunks of 1,024 numbers the map has
pub const CHUNK_MAP_LENGTH: usize = 125;

// What the last arms answer, which no index reaches. No other arm has it, so that none is merged with them.
const UNREACHED: u64 = 0x0123456789ABCDEF;

// the chunk of each 1,024 numbers, eight bytes to an arm, the lowest first
#[tactic(auto, unfolding(bitset::specs::Packed::eight, bitset::specs::Packed::joined, crate::specs::Table::chunk_map))]
pub(crate) fn chunk_map_eight(k: usize) -> u64
    requires { 8 * k < length chunk_map }
    ensures { result ≡ eight chunk_map k }
{
    match k {
        0 => 0x0206060006060E03,
        1 => 0x060606060F060C05,
        2 => 0x0606060606060606,
        3 => 0x0606060606060606,
        4 => 0x0606060606060606,
        5 => 0x0606060606060906,
        6 => 0x0606060606060606,
        7 => 0x0706060606060606,
        8 => 0x060106060B060D06,
        9 => 0x0606060606060606,
        10 => 0x0606060606060606,
        11 => 0x0606060608060606,
        12 => 0x0606060606060606,
        13 => 0x0606060606060606,
        14 => 0x0606100606060606,
        15 => 0x00000004060A0606,
        _ => UNREACHED,
    }
}

// the index bytes of the chunks, eight to an arm, the lowest first
#[tactic(auto, unfolding(bitset::specs::Packed::eight, bitset::specs::Packed::joined, crate::specs::Table::chunks))]
pub(crate) fn chunks_eight(k: usize) -> u64
    requires { 8 * k < length chunks }
    ensures { result ≡ eight chunks k }
{
    match k {
        0 => 0x2C2C2C2C23052C2C,
        1 => 0x00052C2C2C2C2C2C,
        2 => 0x2C2C2C2C2C052C2C,
        3 => 0x2C2C2C2C2C2C2C2C,
        4 => 0x2C2C2C2C2C282C2C,
        5 => 0x17181D2B11421111,
        6 => 0x0F161524202C2C2C,
        7 => 0x271E0B2C2C2C220D,
        8 => 0x2C2D08092C2C2C2C,
        9 => 0x2C2C2C2C2C2C2C2C,
        10 => 0x2C431C252C2C2C2C,
        11 => 0x2C2C2C2C2C2C2C2C,
        12 => 0x2C2C2C2C2C2C2C2C,
        13 => 0x2C2C2C2C2C2C2C2C,
        14 => 0x2C2C2C2C2C2C2C2C,
        15 => 0x2C2C2C392C2C2C2C,
        16 => 0x2C2C2C2C2C2C2C2C,
        17 => 0x2C2C2C2C2C3F312C,
        18 => 0x2C2C2C2C2C2C2C2C,
        19 => 0x04100E142C40412C,
        20 => 0x2C2C2C322C2C2C2C,
        21 => 0x2C2C2C2C2C2C2C2C,
        22 => 0x2C2C1F2C2C352C2C,
        23 => 0x2C2C2C2C2C2C2C2C,
        24 => 0x2C2C2C2C2E362C2C,
        25 => 0x2C2C2C2C2C2C2C2C,
        26 => 0x2C212A2C2F092C33,
        27 => 0x2C2C2C2C2C2C2C2C,
        28 => 0x2C2C300A12031334,
        29 => 0x2C2C2C2C2C2C2C2C,
        30 => 0x2C2C2C2C1B112634,
        31 => 0x2C2C2C2C2C2C2C2C,
        32 => 0x3819070C371A013A,
        33 => 0x443C3D3E02063B29,
        _ => UNREACHED,
    }
}

// the word of an index byte: the canonical words, and then the pairs, each by its mapping and its word
#[tactic(auto, unfolding(bitset::specs::Bitsets::word_at, crate::specs::Table::canonical, crate::specs::Table::mapped_word, crate::specs::Table::mapping))]
pub(crate) fn word_at(index: usize) -> u64
    requires { index < length canonical + length mapped_word }
    ensures { result ≡ word_at canonical mapped_word mapping index }
{
    match index {
        0 => 0x003FFFFFFFFFFFFF,
        1 => 0xFFFFFF0000003FFF,
        2 => 0x07FFFFFC00000001,
        3 => 0x5555555555555401,
        4 => 0x0020000015555AF5,
        5 => 0xFFFFFFFF00000000,
        6 => 0xFFFFFF00000003FF,
        7 => 0xFFFFF0000001FC5F,
        8 => 0xFFFF03FFFFFF03FF,
        9 => 0xFFFF000000000000,
        10 => 0xFFFE555555555555,
        11 => 0x8045000000000000,
        12 => 0x7B0000001FDFE7B0,
        13 => 0x6C05555555555555,
        14 => 0x6A00555555555555,
        15 => 0x55D255554AAAA490,
        16 => 0x555F7D5555452855,
        17 => 0x5555555555555555,
        18 => 0x5555555555552AAB,
        19 => 0x5555555500000000,
        20 => 0x5554555400000000,
        21 => 0x2B555555555554AA,
        22 => 0x11AED2D5B1DBCED6,
        23 => 0x0F001F000F000F00,
        24 => 0x0F00000000000000,
        25 => 0x03FFFFFF0000003F,
        26 => 0x003FDE64D0000003,
        27 => 0x0004280555555555,
        28 => 0x0000FFFF00000020,
        29 => 0x0000FF00AA003F00,
        30 => 0x00000FFBFFFED740,
        31 => 0x0000003FFFFF0000,
        32 => 0x000000007F7FFFFF,
        33 => 0x000000000037F7FF,
        34 => 0x000000000000557A,
        35 => 0x00000000000020BF,
        36 => 0xAA55555555555555,
        37 => 0xC00F3D503E273884,
        38 => 0xC025EA9D00000000,
        39 => 0xE6905555551C8000,
        40 => 0xE7FFFFFFFFFF0200,
        41 => 0xF0000003FFFFFF00,
        42 => 0xF7FF000000000000,
        43 => 0xFF00FF003F00FF00,
        44 => mapped(182, 0x003FFFFFFFFFFFFF),
        45 => mapped(74, 0x003FFFFFFFFFFFFF),
        46 => mapped(166, 0x003FFFFFFFFFFFFF),
        47 => mapped(162, 0x003FFFFFFFFFFFFF),
        48 => mapped(159, 0x003FFFFFFFFFFFFF),
        49 => mapped(150, 0x003FFFFFFFFFFFFF),
        50 => mapped(148, 0x003FFFFFFFFFFFFF),
        51 => mapped(142, 0x003FFFFFFFFFFFFF),
        52 => mapped(134, 0x003FFFFFFFFFFFFF),
        53 => mapped(131, 0x003FFFFFFFFFFFFF),
        54 => mapped(64, 0x003FFFFFFFFFFFFF),
        55 => mapped(66, 0xFFFFFF0000003FFF),
        56 => mapped(70, 0xFFFFFF0000003FFF),
        57 => mapped(83, 0xFFFFFF0000003FFF),
        58 => mapped(12, 0xFFFFFF0000003FFF),
        59 => mapped(8, 0xFFFFFF0000003FFF),
        60 => mapped(146, 0x07FFFFFC00000001),
        61 => mapped(140, 0x07FFFFFC00000001),
        62 => mapped(134, 0x07FFFFFC00000001),
        63 => mapped(130, 0x07FFFFFC00000001),
        64 => mapped(164, 0x5555555555555401),
        65 => mapped(146, 0x5555555555555401),
        66 => mapped(20, 0x5555555555555401),
        67 => mapped(178, 0x0020000015555AF5),
        68 => mapped(171, 0x0020000015555AF5),
        _ => UNREACHED,
    }
}
