// Document 01's table of refusals: one variant for each number, with what it carries.
ghost use Rattle.std.specs.Prelude.{◌≡◌};
ghost use Rattle.scalar.specs.Refusals.{number, carried, rule_number};

use std::error::Error;
use std::fmt;

// The five rules that a skip table keeps.
#[derive(Clone, Copy, Debug, PartialEq, Eq, PartialOrd, Ord, Hash)]
pub enum Rule {
    W1,
    W2,
    W3,
    W4,
    W5,
}

#[derive(Clone, Copy, Debug, PartialEq, Eq, Hash)]
pub enum Refusal {
    // 1: a number is above 0x10FFFF.
    AboveMax,
    // 2: a scalar entry gets a surrogate.
    Surrogate,
    // 3: a list of number pairs has odd length.
    OddList,
    // 4: a list has more than 1,023 ranges.
    TooManyRanges,
    // 5: the index of the first range that breaks the order.
    BadRange(usize),
    // 6: the need of the offset buffer.
    ShortOffsets(usize),
    // 7: the need of the header buffer.
    ShortHeaders(usize),
    // 8: the lowest broken rule.
    BrokenRule(Rule),
    // 10: the need of a buffer for an encoding or an unpacked list.
    ShortBuffer(usize),
}

impl Rule {
    // The rule's number in document 01, 1 to 5.
    pub fn number(self) -> usize
        ensures { result ≡ rule_number self }
    {
        match self {
            Rule::W1 => 1,
            Rule::W2 => 2,
            Rule::W3 => 3,
            Rule::W4 => 4,
            Rule::W5 => 5,
        }
    }
}

impl Refusal {
    // The number in document 01's table.
    pub fn number(self) -> u32
        ensures { result ≡ number self }
    {
        match self {
            Refusal::AboveMax => 1,
            Refusal::Surrogate => 2,
            Refusal::OddList => 3,
            Refusal::TooManyRanges => 4,
            Refusal::BadRange(_) => 5,
            Refusal::ShortOffsets(_) => 6,
            Refusal::ShortHeaders(_) => 7,
            Refusal::BrokenRule(_) => 8,
            Refusal::ShortBuffer(_) => 10,
        }
    }

    // What the refusal carries; 0 where it carries nothing.
    pub fn carried(self) -> usize
        ensures { result ≡ carried self }
    {
        match self {
            Refusal::AboveMax | Refusal::Surrogate | Refusal::OddList | Refusal::TooManyRanges => 0,
            Refusal::BadRange(index) => index,
            Refusal::ShortOffsets(need) => need,
            Refusal::ShortHeaders(need) => need,
            Refusal::BrokenRule(rule) => rule.number(),
            Refusal::ShortBuffer(need) => need,
        }
    }
}

impl fmt::Display for Refusal {
    ghost use Rattle.scalar.specs.Texts.{said};

    ghost output = { said };

    fn fmt<W: fmt::Write>(&self, f: &mut fmt::Formatter<W>) -> fmt::Result {
        match self {
            Refusal::AboveMax => write!(f, "a number is above 10FFFF"),
            Refusal::Surrogate => write!(f, "a surrogate is no scalar value"),
            Refusal::OddList => write!(f, "a list of number pairs has an odd length"),
            Refusal::TooManyRanges => write!(f, "a list has more than 1023 ranges"),
            Refusal::BadRange(index) => write!(f, "range {index} breaks the order"),
            Refusal::ShortOffsets(need) => write!(f, "the offset buffer needs {need} places"),
            Refusal::ShortHeaders(need) => write!(f, "the header buffer needs {need} places"),
            Refusal::BrokenRule(rule) => write!(f, "the table breaks rule W{}", rule.number()),
            Refusal::ShortBuffer(need) => write!(f, "the buffer needs {need} places"),
        }
    }
}

impl Error for Refusal {}
