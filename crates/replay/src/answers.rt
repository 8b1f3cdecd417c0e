// The library's answer for a number, held against the one that the data gives.
use casing::Mapping;
use scalar::{Refusal, Scalar};
use std::fmt;

#[derive(Clone, Copy, Debug, PartialEq, Eq)]
pub enum Property {
    Alphabetic,
    Alphanumeric,
    Cased,
    Control,
    Lowercase,
    Numeric,
    Printable,
    Titlecase,
    Uppercase,
    Whitespace,
}

#[derive(Clone, Copy, Debug, PartialEq, Eq)]
pub enum CaseMapping {
    Lower,
    Title,
    Upper,
}

// What a section of the data tells of each number.
#[derive(Clone, Copy, Debug, PartialEq, Eq)]
pub enum Kind {
    Property(Property),
    CaseMapping(CaseMapping),
}

// What the data says of a number.
#[derive(Clone, Copy, Debug, PartialEq, Eq)]
pub enum Want {
    Unlisted,
    Listed,
    MapsTo(Mapping),
}

#[derive(Clone, Copy, Debug, Default, PartialEq, Eq)]
pub struct Tally {
    pub compared: u64,
    pub differed: u64,
}

impl fmt::Display for Tally {
    fn fmt<W: fmt::Write>(&self, f: &mut fmt::Formatter<W>) -> fmt::Result {
        write!(f, "compared={} differed={}", self.compared, self.differed)
    }
}

impl Property {
    // A match, since no function may hand out a function pointer.
    fn holds(self, n: u32) -> Result<bool, Refusal> {
        match self {
            Property::Alphabetic => properties::is_alphabetic(n),
            Property::Alphanumeric => properties::is_alphanumeric(n),
            Property::Cased => properties::is_cased(n),
            Property::Control => properties::is_control(n),
            Property::Lowercase => properties::is_lowercase(n),
            Property::Numeric => properties::is_numeric(n),
            Property::Printable => printable::is_printable(n),
            Property::Titlecase => properties::is_titlecase(n),
            Property::Uppercase => properties::is_uppercase(n),
            Property::Whitespace => properties::is_whitespace(n),
        }
    }
}

impl CaseMapping {
    // A match, as above.
    fn of(self, n: u32) -> Result<Mapping, Refusal> {
        match self {
            CaseMapping::Lower => mapping::to_lowercase(n),
            CaseMapping::Title => mapping::to_titlecase(n),
            CaseMapping::Upper => mapping::to_uppercase(n),
        }
    }
}

impl Want {
    // A number that is not listed maps to itself.
    fn mapping(self, n: u32) -> Mapping {
        match self {
            Want::MapsTo(mapping) => mapping,
            Want::Unlisted | Want::Listed => Mapping::new(n, 0, 0),
        }
    }
}

impl Kind {
    fn is_right(self, n: u32, want: Want) -> bool {
        match self {
            Kind::Property(property) => {
                let is_listed = !matches!(want, Want::Unlisted);
                property.holds(n).is_ok_and(|yes| yes == is_listed)
            }
            Kind::CaseMapping(mapping) => mapping.of(n).is_ok_and(|to| to == want.mapping(n)),
        }
    }
}

impl Tally {
    pub(crate) fn plus(self, other: Tally) -> Tally {
        Tally {
            compared: self.compared.saturating_add(other.compared),
            differed: self.differed.saturating_add(other.differed),
        }
    }

    fn count(&mut self, is_right: bool) {
        self.compared = self.compared.saturating_add(1);
        if !is_right {
            self.differed = self.differed.saturating_add(1);
        }
    }

    // Every number from one up to, not including, another; the data has answers for scalar values alone.
    pub(crate) fn compare(&mut self, kind: Kind, from: u32, to: u32, want: Want) {
        // A copy, so that the counts stay in registers.
        let mut tally = *self;
        for n in from..to {
            if Scalar::new(n).is_ok() {
                tally.count(kind.is_right(n, want));
            }
        }
        *self = tally;
    }
}
