// From a list to a skip table.
ghost use Rattle.std.specs.Prelude.{◌≡◌};
ghost use Rattle.pack.specs.Answers.{Packs};
ghost use Rattle.results.specs.Results.{Crosses, sizes_of};

use results::Sizes;

// Packs a list; refuses 3, 4, 5, 6, 7, and then writes nothing.
#[unsafe(no_mangle)]
pub extern "C" fn becktrestle_pack(list: &[u32], headers: &mut [u32], offsets: &mut [u8]) -> Sizes
    ensures { Crosses sizes_of (λ p. Packs list.now headers.old offsets.old p headers.new offsets.new) result }
{
    pack::pack(list, headers, offsets).into()
}
