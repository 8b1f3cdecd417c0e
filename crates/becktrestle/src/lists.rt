// Flat lists of ranges.
ghost use Rattle.std.specs.Prelude.{◌≡◌};
ghost use Rattle.sets.specs.Answers.{list_checked, list_searched};
ghost use Rattle.results.specs.Results.{Crossed, count_of, yes_no_of};

use results::{Count, YesNo};

// How many ranges a list has; refuses 3, 4, 5.
#[unsafe(no_mangle)]
pub extern "C" fn becktrestle_check_list(list: &[u32]) -> Count
    ensures { Crossed count_of (list_checked list.now) result }
{
    sets::check_list(list).into()
}

// Whether some range of the list holds x; refuses 3, 4, 5, then 1.
#[unsafe(no_mangle)]
pub extern "C" fn becktrestle_search_list(list: &[u32], x: u32) -> YesNo
    ensures { Crossed yes_no_of (list_searched list.now x) result }
{
    sets::search_list(list, x).into()
}
