// Skip tables: the check, and the search in a lent table, plain or with its count.
ghost use Rattle.std.specs.Prelude.{◌≡◌};
ghost use Rattle.skip.specs.Answers.{checks, searches, finds};
ghost use Rattle.results.specs.Results.{Crossed, verdict_of, yes_no_of, sought_of};

use results::{Sought, Verdict, YesNo};

// Whether a table keeps the rules; refuses 8.
#[unsafe(no_mangle)]
pub extern "C" fn becktrestle_check_table(headers: &[u32], offsets: &[u8]) -> Verdict
    ensures { Crossed verdict_of (checks headers.now offsets.now) result }
{
    skip::check(headers, offsets).into()
}

// Whether a table holds x; refuses 8, then 1.
#[unsafe(no_mangle)]
pub extern "C" fn becktrestle_search_table(headers: &[u32], offsets: &[u8], x: u32) -> YesNo
    ensures { Crossed yes_no_of (searches headers.now offsets.now x) result }
{
    skip::search(headers, offsets, x).into()
}

// The same, with the count of the offsets read; refuses 8, then 1.
#[unsafe(no_mangle)]
pub extern "C" fn becktrestle_search_table_counted(
    headers: &[u32],
    offsets: &[u8],
    x: u32,
) -> Sought
    ensures { Crossed sought_of (finds headers.now offsets.now x) result }
{
    skip::search_counted(headers, offsets, x).into()
}
