// The nine properties and the printable check of one scalar value; each refuses 1, then 2.
ghost use Rattle.std.specs.Prelude.{◌≡◌, not};
ghost use Rattle.scalar.specs.Scalars.{answered};
ghost use Rattle.sets.specs.Lists.{holds};
ghost use Rattle.properties.specs.Properties.{alphabetic, lowercase, uppercase, titlecase, cased, numeric, alphanumeric, whitespace, control};
ghost use Rattle.printable.specs.Unicode.{unprintable};
ghost use Rattle.results.specs.Results.{Crossed, yes_no_of};

use results::YesNo;

#[unsafe(no_mangle)]
pub extern "C" fn becktrestle_is_alphabetic(n: u32) -> YesNo
    ensures { Crossed yes_no_of (answered alphabetic n) result }
{
    properties::is_alphabetic(n).into()
}

#[unsafe(no_mangle)]
pub extern "C" fn becktrestle_is_lowercase(n: u32) -> YesNo
    ensures { Crossed yes_no_of (answered lowercase n) result }
{
    properties::is_lowercase(n).into()
}

#[unsafe(no_mangle)]
pub extern "C" fn becktrestle_is_uppercase(n: u32) -> YesNo
    ensures { Crossed yes_no_of (answered uppercase n) result }
{
    properties::is_uppercase(n).into()
}

#[unsafe(no_mangle)]
pub extern "C" fn becktrestle_is_titlecase(n: u32) -> YesNo
    ensures { Crossed yes_no_of (answered titlecase n) result }
{
    properties::is_titlecase(n).into()
}

#[unsafe(no_mangle)]
pub extern "C" fn becktrestle_is_cased(n: u32) -> YesNo
    ensures { Crossed yes_no_of (answered cased n) result }
{
    properties::is_cased(n).into()
}

#[unsafe(no_mangle)]
pub extern "C" fn becktrestle_is_numeric(n: u32) -> YesNo
    ensures { Crossed yes_no_of (answered numeric n) result }
{
    properties::is_numeric(n).into()
}

#[unsafe(no_mangle)]
pub extern "C" fn becktrestle_is_alphanumeric(n: u32) -> YesNo
    ensures { Crossed yes_no_of (answered alphanumeric n) result }
{
    properties::is_alphanumeric(n).into()
}

#[unsafe(no_mangle)]
pub extern "C" fn becktrestle_is_whitespace(n: u32) -> YesNo
    ensures { Crossed yes_no_of (answered whitespace n) result }
{
    properties::is_whitespace(n).into()
}

#[unsafe(no_mangle)]
pub extern "C" fn becktrestle_is_control(n: u32) -> YesNo
    ensures { Crossed yes_no_of (answered control n) result }
{
    properties::is_control(n).into()
}

#[unsafe(no_mangle)]
pub extern "C" fn becktrestle_is_printable(n: u32) -> YesNo
    ensures { Crossed yes_no_of (answered (λ x. not (holds unprintable x)) n) result }
{
    printable::is_printable(n).into()
}
