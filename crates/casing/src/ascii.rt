// ASCII letters in the other case; any other number as it is.
ghost use Rattle.std.specs.Prelude.{◌≡◌};
ghost use Rattle.casing.specs.Answers.{ascii_lowered, ascii_uppered};

use scalar::ascii;

pub fn to_ascii_lowercase(n: u32) -> u32
    ensures { result ≡ ascii_lowered n }
{
    if ascii::is_ascii_uppercase(n) {
        return n + 0x20;
    }
    n
}

pub fn to_ascii_uppercase(n: u32) -> u32
    ensures { result ≡ ascii_uppered n }
{
    if ascii::is_ascii_lowercase(n) {
        return n - 0x20;
    }
    n
}
