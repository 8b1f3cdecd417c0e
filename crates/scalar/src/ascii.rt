// The ASCII tests: true for the named ASCII characters, false for every other number.
ghost use Rattle.std.specs.Prelude.{◌≡◌};
ghost use Rattle.scalar.specs.Scalars.{between, ascii_digit, ascii_upper, ascii_lower};

// Whether n lies from low to high, both ends counted.
pub fn is_between(low: u32, high: u32, n: u32) -> bool
    ensures { result ≡ between low high n }
{
    if n < low {
        return false;
    }
    n <= high
}

pub fn is_ascii_digit(n: u32) -> bool
    ensures { result ≡ ascii_digit n }
{
    is_between(0x30, 0x39, n)
}

pub fn is_ascii_uppercase(n: u32) -> bool
    ensures { result ≡ ascii_upper n }
{
    is_between(0x41, 0x5A, n)
}

pub fn is_ascii_lowercase(n: u32) -> bool
    ensures { result ≡ ascii_lower n }
{
    is_between(0x61, 0x7A, n)
}
