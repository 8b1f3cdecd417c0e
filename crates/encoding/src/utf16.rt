// UTF-16: Table 3-5 of the Unicode Standard.
ghost use Rattle.std.specs.Prelude.{◌≡◌, ◌≤◌, length};
ghost use Rattle.encoding.specs.Tables.{utf16, len_utf16, one_unit, two_units};
ghost use Rattle.encoding.specs.Lengths.{measured};
ghost use Rattle.encoding.specs.Writes.{Encodes};
ghost use Rattle.sets.specs.Buffers.{over};

use crate::unit::{Unit, encode, len};
use scalar::Refusal;

// The first number that takes two units.
const FIRST_PAIR: u32 = 0x10000;

// The number of 16-bit units of a scalar value in UTF-16; refuses 1, then 2.
#[tactic(auto, using(crate::proofs::Tables::utf16_length))]
pub fn len_utf16(n: u32) -> Result<usize, Refusal>
    ensures { result ≡ measured len_utf16 n }
{
    len::<u16>(n)
}

// Writes a scalar value in UTF-16 and answers how many units; refuses 1, 2, then 10, and then writes nothing.
pub fn encode_utf16(n: u32, out: &mut [u16]) -> Result<usize, Refusal>
    ensures { Encodes utf16 n out.old result out.new }
{
    encode(n, out)
}

impl Unit for u16 {
    ghost units = { utf16 };

    #[tactic(auto, unfolding(crate::specs::Tables::utf16, crate::specs::Tables::row16))]
    fn count(code: u32) -> usize {
        if code < FIRST_PAIR { 1 } else { 2 }
    }

    #[tactic(auto, unfolding(crate::specs::Tables::utf16, crate::specs::Tables::row16))]
    fn write(code: u32, out: &mut [u16]) {
        if code < FIRST_PAIR {
            write_unit(code, out);
        } else {
            write_pair(code, out);
        }
    }
}

fn write_unit(code: u32, out: &mut [u16])
    requires { 1 ≤ length out.old }
    ensures { out.new ≡ over (one_unit code) out.old }
{
    out[0] = (code % 0x10000) as u16;
}

// Taking 0x10000 off leaves twenty bits, ten for each half: the table's wwww = uuuuu - 1.
fn write_pair(code: u32, out: &mut [u16])
    requires { (0x10000 ≤ code) × (code ≤ 0x10FFFF) × (2 ≤ length out.old) }
    ensures { out.new ≡ over (two_units code) out.old }
{
    let rest = code - FIRST_PAIR;
    out[0] = 0xD800 + (rest / 1024) as u16;
    out[1] = 0xDC00 + (rest % 1024) as u16;
}
