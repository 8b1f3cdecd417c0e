// Generated from library/core/src/unicode/unicode_data.rs of Rust 1.97.0 by `oracle/make`; do not edit.

// header words: start index times 2^21 plus prefix sum, the last sum by the house rule
pub static HEADERS: [u32; 3] = [0x000001C5, 0x00201F88, 0x013FFFFF];

// offsets: one for each boundary, and one that closes
pub static OFFSETS: [u8; 21] = [
    0, 1, 2, 1, 2, 1, 38, 1, 0, 8, 8, 8, 8, 8, 12, 1, 15, 1, 47, 1, 0,
];
