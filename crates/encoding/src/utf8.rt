// UTF-8: Table 3-6 of the Unicode Standard.
ghost use Rattle.std.specs.Prelude.{◌≡◌, ◌≤◌, length};
ghost use Rattle.encoding.specs.Tables.{utf8, len_utf8, one_byte, two_bytes, three_bytes, four_bytes};
ghost use Rattle.encoding.specs.Lengths.{measured};
ghost use Rattle.encoding.specs.Writes.{Encodes};
ghost use Rattle.sets.specs.Buffers.{over};

use crate::unit::{Unit, encode, len};
use scalar::Refusal;

const TAG_CONT: u8 = 0b1000_0000;

const TAG_TWO_B: u8 = 0b1100_0000;

const TAG_THREE_B: u8 = 0b1110_0000;

const TAG_FOUR_B: u8 = 0b1111_0000;

const MAX_ONE_B: u32 = 0x80;

const MAX_TWO_B: u32 = 0x800;

const MAX_THREE_B: u32 = 0x10000;

// The number of bytes of a scalar value in UTF-8; refuses 1, then 2.
#[tactic(auto, using(crate::proofs::Tables::utf8_length))]
pub fn len_utf8(n: u32) -> Result<usize, Refusal>
    ensures { result ≡ measured len_utf8 n }
{
    len::<u8>(n)
}

// Writes a scalar value in UTF-8 and answers how many bytes; refuses 1, 2, then 10, and then writes nothing.
pub fn encode_utf8(n: u32, out: &mut [u8]) -> Result<usize, Refusal>
    ensures { Encodes utf8 n out.old result out.new }
{
    encode(n, out)
}

impl Unit for u8 {
    ghost units = { utf8 };

    #[tactic(auto, unfolding(crate::specs::Tables::utf8, crate::specs::Tables::row8))]
    fn count(code: u32) -> usize {
        match code {
            0..MAX_ONE_B => 1,
            MAX_ONE_B..MAX_TWO_B => 2,
            MAX_TWO_B..MAX_THREE_B => 3,
            _ => 4,
        }
    }

    #[tactic(auto, unfolding(crate::specs::Tables::utf8, crate::specs::Tables::row8))]
    fn write(code: u32, out: &mut [u8]) {
        match code {
            0..MAX_ONE_B => write_one(code, out),
            MAX_ONE_B..MAX_TWO_B => write_two(code, out),
            MAX_TWO_B..MAX_THREE_B => write_three(code, out),
            _ => write_four(code, out),
        }
    }
}

// A writer for each row, since the columns differ, by / and %: those are proved where masks are not.
fn write_one(code: u32, out: &mut [u8])
    requires { 1 ≤ length out.old }
    ensures { out.new ≡ over (one_byte code) out.old }
{
    out[0] = (code % 128) as u8;
}

fn write_two(code: u32, out: &mut [u8])
    requires { 2 ≤ length out.old }
    ensures { out.new ≡ over (two_bytes code) out.old }
{
    out[0] = TAG_TWO_B + (code / 64 % 32) as u8;
    out[1] = TAG_CONT + (code % 64) as u8;
}

fn write_three(code: u32, out: &mut [u8])
    requires { 3 ≤ length out.old }
    ensures { out.new ≡ over (three_bytes code) out.old }
{
    out[0] = TAG_THREE_B + (code / 4096 % 16) as u8;
    out[1] = TAG_CONT + (code / 64 % 64) as u8;
    out[2] = TAG_CONT + (code % 64) as u8;
}

fn write_four(code: u32, out: &mut [u8])
    requires { 4 ≤ length out.old }
    ensures { out.new ≡ over (four_bytes code) out.old }
{
    out[0] = TAG_FOUR_B + (code / 262144 % 8) as u8;
    out[1] = TAG_CONT + (code / 4096 % 64) as u8;
    out[2] = TAG_CONT + (code / 64 % 64) as u8;
    out[3] = TAG_CONT + (code % 64) as u8;
}
