// Scalar values and the ASCII tests.
ghost use Rattle.std.specs.Prelude.{◌≡◌};
ghost use Rattle.scalar.specs.Scalars.{checked, ascii_digit, ascii_upper, ascii_lower};
ghost use Rattle.results.specs.Results.{Crossed, verdict_of};

use results::Verdict;
use scalar::Scalar;

// Whether n is a scalar value: refuses 1, then 2.
#[unsafe(no_mangle)]
pub extern "C" fn becktrestle_check_scalar(n: u32) -> Verdict
    ensures { Crossed verdict_of (checked n) result }
{
    Scalar::new(n).into()
}

#[unsafe(no_mangle)]
pub extern "C" fn becktrestle_is_ascii_digit(n: u32) -> bool
    ensures { result ≡ ascii_digit n }
{
    scalar::ascii::is_ascii_digit(n)
}

#[unsafe(no_mangle)]
pub extern "C" fn becktrestle_is_ascii_uppercase(n: u32) -> bool
    ensures { result ≡ ascii_upper n }
{
    scalar::ascii::is_ascii_uppercase(n)
}

#[unsafe(no_mangle)]
pub extern "C" fn becktrestle_is_ascii_lowercase(n: u32) -> bool
    ensures { result ≡ ascii_lower n }
{
    scalar::ascii::is_ascii_lowercase(n)
}
