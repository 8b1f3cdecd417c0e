// Generated from library/core/src/unicode/unicode_data.rs of Rust 1.97.0 by `oracle/make`; do not edit.
ghost use Rattle.casing_title.specs.Planes as planes;
ghost use Rattle.casing_title.specs.Readable.{readable0, readable1};
ghost use Rattle.casing_title.specs.Table as lists;

use casing::kernel::Plane;

pub struct Plane0;

impl Plane<0> for Plane0 {
    ghost rows = { planes.plane0 };

    ghost pages = { lists.pages0 };

    ghost test = { readable0 };

    #[tactic(auto, unfolding(crate::specs::Table::ends0))]
    fn end(i: usize) -> u16 {
        match i {
            0 => 0x01C4,
            1 => 0x01C5,
            2 => 0x01C6,
            3 => 0x01C7,
            4 => 0x01C8,
            5 => 0x01C9,
            6 => 0x01CA,
            7 => 0x01CB,
            8 => 0x01CC,
            9 => 0x01F1,
            10 => 0x01F2,
            11 => 0x01F3,
            12 => 0x10FA,
            13 => 0x10FF,
            14 => 0x1F87,
            15 => 0x1F8F,
            16 => 0x1F97,
            17 => 0x1F9F,
            18 => 0x1FA7,
            19 => 0x1FAF,
            20 => 0x1FB3,
            21 => 0x1FBC,
            22 => 0x1FC3,
            23 => 0x1FCC,
            24 => 0x1FF3,
            25 => 0x1FFC,
            _ => 0,
        }
    }

    #[tactic(auto, unfolding(casing::specs::Reading::packed, casing::specs::Rows::zip, crate::specs::Table::starts0, crate::specs::Table::ends0, crate::specs::Table::steps0, crate::specs::Table::deltas0))]
    fn four(i: usize) -> [u64; 4] {
        match i {
            0 => [
                0x0001000101C401C4,
                0x0000000101C501C5,
                0xFFFF000101C601C6,
                0x0001000101C701C7,
            ],
            1 => [
                0x0000000101C801C8,
                0xFFFF000101C901C9,
                0x0001000101CA01CA,
                0x0000000101CB01CB,
            ],
            2 => [
                0xFFFF000101CC01CC,
                0x0001000101F101F1,
                0x0000000101F201F2,
                0xFFFF000101F301F3,
            ],
            3 => [
                0x0000000110FA10D0,
                0x0000000110FF10FD,
                0x000800011F871F80,
                0x000000011F8F1F88,
            ],
            4 => [
                0x000800011F971F90,
                0x000000011F9F1F98,
                0x000800011FA71FA0,
                0x000000011FAF1FA8,
            ],
            5 => [
                0x000900011FB31FB3,
                0x000000011FBC1FBC,
                0x000900011FC31FC3,
                0x000000011FCC1FCC,
            ],
            6 => [
                0x000900011FF31FF3,
                0x000000011FFC1FFC,
                0x0000000000000000,
                0x0000000000000000,
            ],
            _ => [0, 0, 0, 0],
        }
    }

    #[tactic(auto, unfolding(casing::specs::Reading::page_of, crate::specs::Table::pages0))]
    fn page(page: u16) -> Option<(usize, usize)> {
        match page {
            0x00 => Some((0, 0)),
            0x01 => Some((0, 12)),
            0x05 => Some((12, 12)),
            0x10 => Some((12, 14)),
            0x1F => Some((14, 26)),
            0xFB => Some((26, 26)),
            _ => None,
        }
    }

    #[tactic(auto, unfolding(casing::specs::Rows::multiple, casing::specs::Rows::first_row, casing::specs::Rows::zip, crate::specs::Table::multi0, crate::specs::Table::multi0_first, crate::specs::Table::multi0_second, crate::specs::Table::multi0_third))]
    fn multi(low: u16) -> Option<(u32, u32, u32)> {
        match low {
            0x00DF => Some((0x0053, 0x0073, 0x0000)),
            0x0587 => Some((0x0535, 0x0582, 0x0000)),
            0x1FB2 => Some((0x1FBA, 0x0345, 0x0000)),
            0x1FB4 => Some((0x0386, 0x0345, 0x0000)),
            0x1FB7 => Some((0x0391, 0x0342, 0x0345)),
            0x1FC2 => Some((0x1FCA, 0x0345, 0x0000)),
            0x1FC4 => Some((0x0389, 0x0345, 0x0000)),
            0x1FC7 => Some((0x0397, 0x0342, 0x0345)),
            0x1FF2 => Some((0x1FFA, 0x0345, 0x0000)),
            0x1FF4 => Some((0x038F, 0x0345, 0x0000)),
            0x1FF7 => Some((0x03A9, 0x0342, 0x0345)),
            0xFB00 => Some((0x0046, 0x0066, 0x0000)),
            0xFB01 => Some((0x0046, 0x0069, 0x0000)),
            0xFB02 => Some((0x0046, 0x006C, 0x0000)),
            0xFB03 => Some((0x0046, 0x0066, 0x0069)),
            0xFB04 => Some((0x0046, 0x0066, 0x006C)),
            0xFB05 => Some((0x0053, 0x0074, 0x0000)),
            0xFB06 => Some((0x0053, 0x0074, 0x0000)),
            0xFB13 => Some((0x0544, 0x0576, 0x0000)),
            0xFB14 => Some((0x0544, 0x0565, 0x0000)),
            0xFB15 => Some((0x0544, 0x056B, 0x0000)),
            0xFB16 => Some((0x054E, 0x0576, 0x0000)),
            0xFB17 => Some((0x0544, 0x056D, 0x0000)),
            _ => None,
        }
    }
}

pub struct Plane1;

impl Plane<1> for Plane1 {
    ghost rows = { planes.plane1 };

    ghost pages = { lists.pages1 };

    ghost test = { readable1 };

    #[tactic(auto, unfolding(crate::specs::Table::ends1))]
    fn end(_i: usize) -> u16 {
        0
    }

    #[tactic(auto, unfolding(casing::specs::Reading::packed, casing::specs::Rows::zip, crate::specs::Table::starts1, crate::specs::Table::ends1, crate::specs::Table::steps1, crate::specs::Table::deltas1))]
    fn four(_i: usize) -> [u64; 4] {
        [0, 0, 0, 0]
    }

    #[tactic(auto, unfolding(casing::specs::Reading::page_of, crate::specs::Table::pages1))]
    fn page(_page: u16) -> Option<(usize, usize)> {
        None
    }

    #[tactic(auto, unfolding(casing::specs::Rows::multiple, casing::specs::Rows::first_row, casing::specs::Rows::zip, crate::specs::Table::multi1, crate::specs::Table::multi1_first, crate::specs::Table::multi1_second, crate::specs::Table::multi1_third))]
    fn multi(_low: u16) -> Option<(u32, u32, u32)> {
        None
    }
}
