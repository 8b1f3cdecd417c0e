// The properties that have a table. ASCII and every number below the table's first are answered
// without the table, as in Rust's char/methods.rs. A line each: what stands before the table differs.
ghost use Rattle.std.specs.Prelude.{◌≡◌, ◌≤◌};
ghost use Rattle.properties.specs.Properties.{alphabetic, lowercase, uppercase, titlecase, numeric, cased, alphanumeric};

use scalar::ascii::{is_ascii_digit, is_ascii_lowercase, is_ascii_uppercase};

// The first number of each table.
const FIRST_ALPHABETIC: u32 = 0xAA;

const FIRST_LOWERCASE: u32 = 0xAA;

const FIRST_UPPERCASE: u32 = 0xC0;

const FIRST_TITLECASE: u32 = 0x1C5;

const FIRST_NUMERIC: u32 = 0xB2;

#[tactic(auto, using(crate::proofs::Wholes::alphabetic_by))]
pub fn alphabetic(n: u32) -> bool
    requires { n ≤ 0x10FFFF }
    ensures { result ≡ alphabetic n }
{
    is_ascii_lowercase(n)
        || is_ascii_uppercase(n)
        || (n >= FIRST_ALPHABETIC && table_alphabetic::kernel::lookup(n))
}

#[tactic(auto, using(crate::proofs::Wholes::lowercase_by))]
pub fn lowercase(n: u32) -> bool
    ensures { result ≡ lowercase n }
{
    is_ascii_lowercase(n) || (n >= FIRST_LOWERCASE && table_lowercase::kernel::lookup(n))
}

#[tactic(auto, using(crate::proofs::Wholes::uppercase_by))]
pub fn uppercase(n: u32) -> bool
    ensures { result ≡ uppercase n }
{
    is_ascii_uppercase(n) || (n >= FIRST_UPPERCASE && table_uppercase::kernel::lookup(n))
}

#[tactic(auto, using(crate::proofs::Wholes::titlecase_by))]
pub fn titlecase(n: u32) -> bool
    requires { n ≤ 0x10FFFF }
    ensures { result ≡ titlecase n }
{
    n >= FIRST_TITLECASE && table_titlecase::kernel::lookup(n)
}

#[tactic(auto, using(crate::proofs::Wholes::numeric_by))]
pub fn numeric(n: u32) -> bool
    requires { n ≤ 0x10FFFF }
    ensures { result ≡ numeric n }
{
    is_ascii_digit(n) || (n >= FIRST_NUMERIC && table_numeric::kernel::lookup(n))
}

// Lowercase, uppercase or titlecase.
pub fn cased(n: u32) -> bool
    requires { n ≤ 0x10FFFF }
    ensures { result ≡ cased n }
{
    lowercase(n) || uppercase(n) || titlecase(n)
}

// Alphabetic or numeric.
pub fn alphanumeric(n: u32) -> bool
    requires { n ≤ 0x10FFFF }
    ensures { result ≡ alphanumeric n }
{
    alphabetic(n) || numeric(n)
}
