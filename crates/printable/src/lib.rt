// Whether a character may stand on a label: neither invisible nor unassigned.
#![tactic(auto)]

ghost use Rattle.std.specs.Prelude.{◌≡◌, ◌<◌, ◌≤◌, not};
ghost use Rattle.scalar.specs.Scalars.{answered};
ghost use Rattle.sets.specs.Lists.{holds};
ghost use Rattle.printable.specs.Printable.{by_tables, spans, in_spans};
ghost use Rattle.printable.specs.Unicode.{unprintable};

use runs::Plane;
use scalar::{Refusal, Scalar};
use table::{
    NORMAL0, NORMAL1, SINGLETONS0_COUNT, SINGLETONS0_HIGH, SINGLETONS0_LOW, SINGLETONS1_COUNT,
    SINGLETONS1_HIGH, SINGLETONS1_LOW,
};

mod table;

const PLANE0: Plane<'static> = Plane {
    highs: &SINGLETONS0_HIGH,
    counts: &SINGLETONS0_COUNT,
    lows: &SINGLETONS0_LOW,
    normal: &NORMAL0,
};

const PLANE1: Plane<'static> = Plane {
    highs: &SINGLETONS1_HIGH,
    counts: &SINGLETONS1_COUNT,
    lows: &SINGLETONS1_LOW,
    normal: &NORMAL1,
};

// Yes exactly if Unicode's list of unprintable numbers does not hold the scalar value; refuses 1, then 2.
#[tactic(auto, using(crate::proofs::Agrees::agrees), unfolding(scalar::specs::Scalars::scalar_else))]
pub fn is_printable(n: u32) -> Result<bool, Refusal>
    ensures { result ≡ answered (λ x. not (holds unprintable x)) n }
{
    let s = Scalar::new(n)?;
    Ok(by_tables(s.value))
}

#[tactic(auto, unfolding(crate::specs::Printable::by_tables))]
fn by_tables(x: u32) -> bool
    ensures { result ≡ by_tables x }
{
    match x {
        0..32 => false,
        32..127 => true,
        127..0x20000 => by_planes(x),
        _ => outside_spans(x),
    }
}

// Not inlined: the planes' stack frame would be set up for ASCII and for the spans too, which have no use for it.
#[inline(never)]
#[tactic(auto, unfolding(crate::specs::Printable::by_tables, crate::specs::Table::singletons0_high, crate::specs::Table::singletons0_count, crate::specs::Table::singletons0_low, crate::specs::Table::normal0, crate::specs::Table::singletons1_high, crate::specs::Table::singletons1_count, crate::specs::Table::singletons1_low, crate::specs::Table::normal1))]
fn by_planes(x: u32) -> bool
    requires { (127 ≤ x) × (x < 0x20000) }
    ensures { result ≡ by_tables x }
{
    let lower = (x % 0x10000) as u16;
    if x < 0x10000 {
        PLANE0.check(lower)
    } else {
        PLANE1.check(lower)
    }
}

#[tactic(auto, unfolding(crate::specs::Printable::spans, crate::specs::Printable::in_spans))]
fn outside_spans(x: u32) -> bool
    ensures { result ≡ not (in_spans spans x) }
{
    !matches!(
        x,
        0x2A6E0..0x2A700
            | 0x2B81E..0x2B820
            | 0x2CEAE..0x2CEB0
            | 0x2EBE1..0x2EBF0
            | 0x2EE5E..0x2F800
            | 0x2FA1E..0x30000
            | 0x3134B..0x31350
            | 0x3347A..0xE0100
            | 0xE01F0..0x110000
    )
}
