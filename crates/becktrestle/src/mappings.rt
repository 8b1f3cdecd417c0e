// The three case mappings of one scalar value; each refuses 1, then 2.
ghost use Rattle.std.specs.Prelude.{◌≡◌};
ghost use Rattle.casing.specs.Listed.{mapping_of};
ghost use Rattle.casing_lower.specs.Unicode as lower;
ghost use Rattle.casing_title.specs.Unicode as title;
ghost use Rattle.casing_upper.specs.Unicode as upper;
ghost use Rattle.results.specs.Results.{Crossed, mapped_of};

use results::Mapped;

#[unsafe(no_mangle)]
pub extern "C" fn becktrestle_to_lowercase(n: u32) -> Mapped
    ensures { Crossed mapped_of (mapping_of lower.rows n) result }
{
    mapping::to_lowercase(n).into()
}

#[unsafe(no_mangle)]
pub extern "C" fn becktrestle_to_uppercase(n: u32) -> Mapped
    ensures { Crossed mapped_of (mapping_of upper.rows n) result }
{
    mapping::to_uppercase(n).into()
}

#[unsafe(no_mangle)]
pub extern "C" fn becktrestle_to_titlecase(n: u32) -> Mapped
    ensures { Crossed mapped_of (mapping_of title.rows n) result }
{
    mapping::to_titlecase(n).into()
}
