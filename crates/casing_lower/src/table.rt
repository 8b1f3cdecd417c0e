// Generated from library/core/src/unicode/unicode_data.rs of Rust 1.97.0 by `oracle/make`; do not edit.
ghost use Rattle.casing_lower.specs.Planes as planes;
ghost use Rattle.casing_lower.specs.Readable.{readable0, readable1};
ghost use Rattle.casing_lower.specs.Table as lists;

use casing::kernel::Plane;

pub struct Plane0;

impl Plane<0> for Plane0 {
    ghost rows = { planes.plane0 };

    ghost pages = { lists.pages0 };

    ghost test = { readable0 };

    #[tactic(auto, unfolding(crate::specs::Table::ends0))]
    fn end(i: usize) -> u16 {
        match i {
            0 => 0x00D6,
            1 => 0x00DE,
            2 => 0x012E,
            3 => 0x0136,
            4 => 0x0147,
            5 => 0x0176,
            6 => 0x0178,
            7 => 0x017D,
            8 => 0x0181,
            9 => 0x0184,
            10 => 0x0186,
            11 => 0x0187,
            12 => 0x018A,
            13 => 0x018B,
            14 => 0x018E,
            15 => 0x018F,
            16 => 0x0190,
            17 => 0x0191,
            18 => 0x0193,
            19 => 0x0194,
            20 => 0x0196,
            21 => 0x0197,
            22 => 0x0198,
            23 => 0x019C,
            24 => 0x019D,
            25 => 0x019F,
            26 => 0x01A4,
            27 => 0x01A6,
            28 => 0x01A7,
            29 => 0x01A9,
            30 => 0x01AC,
            31 => 0x01AE,
            32 => 0x01AF,
            33 => 0x01B2,
            34 => 0x01B5,
            35 => 0x01B7,
            36 => 0x01B8,
            37 => 0x01BC,
            38 => 0x01C4,
            39 => 0x01C5,
            40 => 0x01C7,
            41 => 0x01C8,
            42 => 0x01CA,
            43 => 0x01DB,
            44 => 0x01EE,
            45 => 0x01F1,
            46 => 0x01F4,
            47 => 0x01F6,
            48 => 0x01F7,
            49 => 0x021E,
            50 => 0x0220,
            51 => 0x0232,
            52 => 0x023A,
            53 => 0x023B,
            54 => 0x023D,
            55 => 0x023E,
            56 => 0x0241,
            57 => 0x0243,
            58 => 0x0244,
            59 => 0x0245,
            60 => 0x024E,
            61 => 0x0372,
            62 => 0x0376,
            63 => 0x037F,
            64 => 0x0386,
            65 => 0x038A,
            66 => 0x038C,
            67 => 0x038F,
            68 => 0x03A1,
            69 => 0x03AB,
            70 => 0x03CF,
            71 => 0x03EE,
            72 => 0x03F4,
            73 => 0x03F7,
            74 => 0x03F9,
            75 => 0x03FA,
            76 => 0x03FF,
            77 => 0x040F,
            78 => 0x042F,
            79 => 0x0480,
            80 => 0x04BE,
            81 => 0x04C0,
            82 => 0x04CD,
            83 => 0x052E,
            84 => 0x0556,
            85 => 0x10C5,
            86 => 0x10C7,
            87 => 0x10CD,
            88 => 0x13EF,
            89 => 0x13F5,
            90 => 0x1C89,
            91 => 0x1CBA,
            92 => 0x1CBF,
            93 => 0x1E94,
            94 => 0x1E9E,
            95 => 0x1EFE,
            96 => 0x1F0F,
            97 => 0x1F1D,
            98 => 0x1F2F,
            99 => 0x1F3F,
            100 => 0x1F4D,
            101 => 0x1F5F,
            102 => 0x1F6F,
            103 => 0x1F8F,
            104 => 0x1F9F,
            105 => 0x1FAF,
            106 => 0x1FB9,
            107 => 0x1FBB,
            108 => 0x1FBC,
            109 => 0x1FCB,
            110 => 0x1FCC,
            111 => 0x1FD9,
            112 => 0x1FDB,
            113 => 0x1FE9,
            114 => 0x1FEB,
            115 => 0x1FEC,
            116 => 0x1FF9,
            117 => 0x1FFB,
            118 => 0x1FFC,
            119 => 0x2126,
            120 => 0x212A,
            121 => 0x212B,
            122 => 0x2132,
            123 => 0x216F,
            124 => 0x2183,
            125 => 0x24CF,
            126 => 0x2C2F,
            127 => 0x2C60,
            128 => 0x2C62,
            129 => 0x2C63,
            130 => 0x2C64,
            131 => 0x2C6B,
            132 => 0x2C6D,
            133 => 0x2C6E,
            134 => 0x2C6F,
            135 => 0x2C70,
            136 => 0x2C72,
            137 => 0x2C75,
            138 => 0x2C7F,
            139 => 0x2CE2,
            140 => 0x2CED,
            141 => 0x2CF2,
            142 => 0xA66C,
            143 => 0xA69A,
            144 => 0xA72E,
            145 => 0xA76E,
            146 => 0xA77B,
            147 => 0xA77D,
            148 => 0xA786,
            149 => 0xA78B,
            150 => 0xA78D,
            151 => 0xA792,
            152 => 0xA7A8,
            153 => 0xA7AA,
            154 => 0xA7AB,
            155 => 0xA7AC,
            156 => 0xA7AD,
            157 => 0xA7AE,
            158 => 0xA7B0,
            159 => 0xA7B1,
            160 => 0xA7B2,
            161 => 0xA7B3,
            162 => 0xA7C2,
            163 => 0xA7C4,
            164 => 0xA7C5,
            165 => 0xA7C6,
            166 => 0xA7C9,
            167 => 0xA7CB,
            168 => 0xA7DA,
            169 => 0xA7DC,
            170 => 0xA7F5,
            171 => 0xFF3A,
            _ => 0,
        }
    }

    #[tactic(auto, unfolding(casing::specs::Reading::packed, casing::specs::Rows::zip, crate::specs::Table::starts0, crate::specs::Table::ends0, crate::specs::Table::steps0, crate::specs::Table::deltas0))]
    fn four(i: usize) -> [u64; 4] {
        match i {
            0 => [
                0x0020000100D600C0,
                0x0020000100DE00D8,
                0x00010002012E0100,
                0x0001000201360132,
            ],
            1 => [
                0x0001000201470139,
                0x000100020176014A,
                0xFF87000101780178,
                0x00010002017D0179,
            ],
            2 => [
                0x00D2000101810181,
                0x0001000201840182,
                0x00CE000101860186,
                0x0001000101870187,
            ],
            3 => [
                0x00CD0001018A0189,
                0x00010001018B018B,
                0x004F0001018E018E,
                0x00CA0001018F018F,
            ],
            4 => [
                0x00CB000101900190,
                0x0001000101910191,
                0x00CD000101930193,
                0x00CF000101940194,
            ],
            5 => [
                0x00D3000101960196,
                0x00D1000101970197,
                0x0001000101980198,
                0x00D30001019C019C,
            ],
            6 => [
                0x00D50001019D019D,
                0x00D60001019F019F,
                0x0001000201A401A0,
                0x00DA000101A601A6,
            ],
            7 => [
                0x0001000101A701A7,
                0x00DA000101A901A9,
                0x0001000101AC01AC,
                0x00DA000101AE01AE,
            ],
            8 => [
                0x0001000101AF01AF,
                0x00D9000101B201B1,
                0x0001000201B501B3,
                0x00DB000101B701B7,
            ],
            9 => [
                0x0001000101B801B8,
                0x0001000101BC01BC,
                0x0002000101C401C4,
                0x0001000101C501C5,
            ],
            10 => [
                0x0002000101C701C7,
                0x0001000101C801C8,
                0x0002000101CA01CA,
                0x0001000201DB01CB,
            ],
            11 => [
                0x0001000201EE01DE,
                0x0002000101F101F1,
                0x0001000201F401F2,
                0xFF9F000101F601F6,
            ],
            12 => [
                0xFFC8000101F701F7,
                0x00010002021E01F8,
                0xFF7E000102200220,
                0x0001000202320222,
            ],
            13 => [
                0x2A2B0001023A023A,
                0x00010001023B023B,
                0xFF5D0001023D023D,
                0x2A280001023E023E,
            ],
            14 => [
                0x0001000102410241,
                0xFF3D000102430243,
                0x0045000102440244,
                0x0047000102450245,
            ],
            15 => [
                0x00010002024E0246,
                0x0001000203720370,
                0x0001000103760376,
                0x00740001037F037F,
            ],
            16 => [
                0x0026000103860386,
                0x00250001038A0388,
                0x00400001038C038C,
                0x003F0001038F038E,
            ],
            17 => [
                0x0020000103A10391,
                0x0020000103AB03A3,
                0x0008000103CF03CF,
                0x0001000203EE03D8,
            ],
            18 => [
                0xFFC4000103F403F4,
                0x0001000103F703F7,
                0xFFF9000103F903F9,
                0x0001000103FA03FA,
            ],
            19 => [
                0xFF7E000103FF03FD,
                0x00500001040F0400,
                0x00200001042F0410,
                0x0001000204800460,
            ],
            20 => [
                0x0001000204BE048A,
                0x000F000104C004C0,
                0x0001000204CD04C1,
                0x00010002052E04D0,
            ],
            21 => [
                0x0030000105560531,
                0x1C60000110C510A0,
                0x1C60000110C710C7,
                0x1C60000110CD10CD,
            ],
            22 => [
                0x97D0000113EF13A0,
                0x0008000113F513F0,
                0x000100011C891C89,
                0xF44000011CBA1C90,
            ],
            23 => [
                0xF44000011CBF1CBD,
                0x000100021E941E00,
                0xE24100011E9E1E9E,
                0x000100021EFE1EA0,
            ],
            24 => [
                0xFFF800011F0F1F08,
                0xFFF800011F1D1F18,
                0xFFF800011F2F1F28,
                0xFFF800011F3F1F38,
            ],
            25 => [
                0xFFF800011F4D1F48,
                0xFFF800021F5F1F59,
                0xFFF800011F6F1F68,
                0xFFF800011F8F1F88,
            ],
            26 => [
                0xFFF800011F9F1F98,
                0xFFF800011FAF1FA8,
                0xFFF800011FB91FB8,
                0xFFB600011FBB1FBA,
            ],
            27 => [
                0xFFF700011FBC1FBC,
                0xFFAA00011FCB1FC8,
                0xFFF700011FCC1FCC,
                0xFFF800011FD91FD8,
            ],
            28 => [
                0xFF9C00011FDB1FDA,
                0xFFF800011FE91FE8,
                0xFF9000011FEB1FEA,
                0xFFF900011FEC1FEC,
            ],
            29 => [
                0xFF8000011FF91FF8,
                0xFF8200011FFB1FFA,
                0xFFF700011FFC1FFC,
                0xE2A3000121262126,
            ],
            30 => [
                0xDF410001212A212A,
                0xDFBA0001212B212B,
                0x001C000121322132,
                0x00100001216F2160,
            ],
            31 => [
                0x0001000121832183,
                0x001A000124CF24B6,
                0x003000012C2F2C00,
                0x000100012C602C60,
            ],
            32 => [
                0xD60900012C622C62,
                0xF11A00012C632C63,
                0xD61900012C642C64,
                0x000100022C6B2C67,
            ],
            33 => [
                0xD5E400012C6D2C6D,
                0xD60300012C6E2C6E,
                0xD5E100012C6F2C6F,
                0xD5E200012C702C70,
            ],
            34 => [
                0x000100012C722C72,
                0x000100012C752C75,
                0xD5C100012C7F2C7E,
                0x000100022CE22C80,
            ],
            35 => [
                0x000100022CED2CEB,
                0x000100012CF22CF2,
                0x00010002A66CA640,
                0x00010002A69AA680,
            ],
            36 => [
                0x00010002A72EA722,
                0x00010002A76EA732,
                0x00010002A77BA779,
                0x75FC0001A77DA77D,
            ],
            37 => [
                0x00010002A786A77E,
                0x00010001A78BA78B,
                0x5AD80001A78DA78D,
                0x00010002A792A790,
            ],
            38 => [
                0x00010002A7A8A796,
                0x5ABC0001A7AAA7AA,
                0x5AB10001A7ABA7AB,
                0x5AB50001A7ACA7AC,
            ],
            39 => [
                0x5ABF0001A7ADA7AD,
                0x5ABC0001A7AEA7AE,
                0x5AEE0001A7B0A7B0,
                0x5AD60001A7B1A7B1,
            ],
            40 => [
                0x5AEB0001A7B2A7B2,
                0x03A00001A7B3A7B3,
                0x00010002A7C2A7B4,
                0xFFD00001A7C4A7C4,
            ],
            41 => [
                0x5ABD0001A7C5A7C5,
                0x75C80001A7C6A7C6,
                0x00010002A7C9A7C7,
                0x5A990001A7CBA7CB,
            ],
            42 => [
                0x00010002A7DAA7CC,
                0x59BF0001A7DCA7DC,
                0x00010001A7F5A7F5,
                0x00200001FF3AFF21,
            ],
            _ => [0, 0, 0, 0],
        }
    }

    #[tactic(auto, unfolding(casing::specs::Reading::page_of, crate::specs::Table::pages0))]
    fn page(page: u16) -> Option<(usize, usize)> {
        match page {
            0x00 => Some((0, 2)),
            0x01 => Some((2, 50)),
            0x02 => Some((49, 61)),
            0x03 => Some((61, 77)),
            0x04 => Some((77, 84)),
            0x05 => Some((83, 85)),
            0x10 => Some((85, 88)),
            0x13 => Some((88, 90)),
            0x1C => Some((90, 93)),
            0x1E => Some((93, 96)),
            0x1F => Some((96, 119)),
            0x21 => Some((119, 125)),
            0x24 => Some((125, 126)),
            0x2C => Some((126, 142)),
            0xA6 => Some((142, 144)),
            0xA7 => Some((144, 171)),
            0xFF => Some((171, 172)),
            _ => None,
        }
    }

    #[tactic(auto, unfolding(casing::specs::Rows::multiple, casing::specs::Rows::first_row, casing::specs::Rows::zip, crate::specs::Table::multi0, crate::specs::Table::multi0_first, crate::specs::Table::multi0_second, crate::specs::Table::multi0_third))]
    fn multi(low: u16) -> Option<(u32, u32, u32)> {
        match low {
            0x0130 => Some((0x0069, 0x0307, 0x0000)),
            _ => None,
        }
    }
}

pub struct Plane1;

impl Plane<1> for Plane1 {
    ghost rows = { planes.plane1 };

    ghost pages = { lists.pages1 };

    ghost test = { readable1 };

    #[tactic(auto, unfolding(crate::specs::Table::ends1))]
    fn end(i: usize) -> u16 {
        match i {
            0 => 0x0427,
            1 => 0x04D3,
            2 => 0x057A,
            3 => 0x058A,
            4 => 0x0592,
            5 => 0x0595,
            6 => 0x0CB2,
            7 => 0x0D65,
            8 => 0x18BF,
            9 => 0x6E5F,
            10 => 0x6EB8,
            11 => 0xE921,
            _ => 0,
        }
    }

    #[tactic(auto, unfolding(casing::specs::Reading::packed, casing::specs::Rows::zip, crate::specs::Table::starts1, crate::specs::Table::ends1, crate::specs::Table::steps1, crate::specs::Table::deltas1))]
    fn four(i: usize) -> [u64; 4] {
        match i {
            0 => [
                0x0028000104270400,
                0x0028000104D304B0,
                0x00270001057A0570,
                0x00270001058A057C,
            ],
            1 => [
                0x002700010592058C,
                0x0027000105950594,
                0x004000010CB20C80,
                0x002000010D650D50,
            ],
            2 => [
                0x0020000118BF18A0,
                0x002000016E5F6E40,
                0x001B00016EB86EA0,
                0x00220001E921E900,
            ],
            _ => [0, 0, 0, 0],
        }
    }

    #[tactic(auto, unfolding(casing::specs::Reading::page_of, crate::specs::Table::pages1))]
    fn page(page: u16) -> Option<(usize, usize)> {
        match page {
            0x04 => Some((0, 2)),
            0x05 => Some((2, 6)),
            0x0C => Some((6, 7)),
            0x0D => Some((7, 8)),
            0x18 => Some((8, 9)),
            0x6E => Some((9, 11)),
            0xE9 => Some((11, 12)),
            _ => None,
        }
    }

    #[tactic(auto, unfolding(casing::specs::Rows::multiple, casing::specs::Rows::first_row, casing::specs::Rows::zip, crate::specs::Table::multi1, crate::specs::Table::multi1_first, crate::specs::Table::multi1_second, crate::specs::Table::multi1_third))]
    fn multi(_low: u16) -> Option<(u32, u32, u32)> {
        None
    }
}
