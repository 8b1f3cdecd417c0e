// The unpacker: from a skip table to the flat list of its ranges.
#![tactic(auto)]

ghost use Rattle.std.specs.Prelude.{◌≡◌, ◌≤◌, length};
ghost use Rattle.sets.specs.Buffers.{over};
ghost use Rattle.unpack.specs.Left.{numbers_left};
ghost use Rattle.unpack.specs.Answers.{Unpacks};

mod numbers;

use numbers::Numbers;
use scalar::Refusal;

#[tactic(auto, using(pack::proofs::Store::over_more))]
fn write_numbers(numbers: Numbers<'_, '_>, out: &mut [u32])
    requires { length (numbers_left numbers) ≤ length out.old }
    ensures { out.new ≡ over (numbers_left numbers.entry) out.old }
{
    for (m, number) in numbers.enumerate() {
        out[m] = number;
    }
}

// Unpacks a table to a flat list, and says how many numbers it has, two for each range; refuses 8, then 10. A refusal writes
// nothing, and a success nothing past what it reports.
pub fn unpack(headers: &[u32], offsets: &[u8], out: &mut [u32]) -> Result<usize, Refusal>
    ensures { Unpacks headers.now offsets.now out.old result out.new }
{
    skip::check(headers, offsets)?;
    let need = Numbers::new(headers, offsets).count();
    if out.len() < need {
        return Err(Refusal::ShortBuffer(need));
    }
    write_numbers(Numbers::new(headers, offsets), out);
    Ok(need)
}
