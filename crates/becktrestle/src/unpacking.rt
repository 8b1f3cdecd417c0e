// From a skip table to a list.
ghost use Rattle.std.specs.Prelude.{◌≡◌};
ghost use Rattle.unpack.specs.Answers.{Unpacks};
ghost use Rattle.results.specs.Results.{Crosses, count_of};

use results::Count;

// Unpacks a table; refuses 8, then 10, and then writes nothing.
#[unsafe(no_mangle)]
pub extern "C" fn becktrestle_unpack(headers: &[u32], offsets: &[u8], out: &mut [u32]) -> Count
    ensures { Crosses count_of (λ u. Unpacks headers.now offsets.now out.old u out.new) result }
{
    unpack::unpack(headers, offsets, out).into()
}
