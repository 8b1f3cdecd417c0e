// UTF-8 and UTF-16 of one scalar value.
ghost use Rattle.std.specs.Prelude.{◌≡◌};
ghost use Rattle.encoding.specs.Tables.{utf8, utf16, len_utf8, len_utf16};
ghost use Rattle.encoding.specs.Lengths.{measured};
ghost use Rattle.encoding.specs.Writes.{Encodes};
ghost use Rattle.results.specs.Results.{Crossed, Crosses, count_of};

use results::Count;

// The bytes of n in UTF-8; refuses 1, then 2.
#[unsafe(no_mangle)]
pub extern "C" fn becktrestle_len_utf8(n: u32) -> Count
    ensures { Crossed count_of (measured len_utf8 n) result }
{
    encoding::len_utf8(n).into()
}

// The 16-bit units of n in UTF-16; refuses 1, then 2.
#[unsafe(no_mangle)]
pub extern "C" fn becktrestle_len_utf16(n: u32) -> Count
    ensures { Crossed count_of (measured len_utf16 n) result }
{
    encoding::len_utf16(n).into()
}

// Writes n in UTF-8; refuses 1, 2, then 10 with the need in bytes.
#[unsafe(no_mangle)]
pub extern "C" fn becktrestle_encode_utf8(n: u32, out: &mut [u8]) -> Count
    ensures { Crosses count_of (λ l. Encodes utf8 n out.old l out.new) result }
{
    encoding::encode_utf8(n, out).into()
}

// Writes n in UTF-16; refuses 1, 2, then 10 with the need in units.
#[unsafe(no_mangle)]
pub extern "C" fn becktrestle_encode_utf16(n: u32, out: &mut [u16]) -> Count
    ensures { Crosses count_of (λ l. Encodes utf16 n out.old l out.new) result }
{
    encoding::encode_utf16(n, out).into()
}
