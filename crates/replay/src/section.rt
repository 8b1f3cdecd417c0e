// The sections of the data, one for each entry: each is compared at every scalar value, whether the number is listed or not.
use crate::answers::{CaseMapping, Kind, Property, Tally, Want};
use crate::rows;
use lines::starts_with;
use std::io;

// One past the last number.
const END: u32 = 0x110000;

// The sections by their names.
const SECTIONS: [(&str, Kind); 13] = [
    ("alphabetic", Kind::Property(Property::Alphabetic)),
    ("alphanumeric", Kind::Property(Property::Alphanumeric)),
    ("cased", Kind::Property(Property::Cased)),
    ("control", Kind::Property(Property::Control)),
    ("lowercase", Kind::Property(Property::Lowercase)),
    ("numeric", Kind::Property(Property::Numeric)),
    ("printable", Kind::Property(Property::Printable)),
    ("titlecase", Kind::Property(Property::Titlecase)),
    ("uppercase", Kind::Property(Property::Uppercase)),
    ("whitespace", Kind::Property(Property::Whitespace)),
    ("to_lower", Kind::CaseMapping(CaseMapping::Lower)),
    ("to_title", Kind::CaseMapping(CaseMapping::Title)),
    ("to_upper", Kind::CaseMapping(CaseMapping::Upper)),
];

// A section that has begun.
#[derive(Clone, Copy)]
struct Section {
    name: &'static str,
    kind: Kind,
    // The first number that is still to be compared.
    next: u32,
    tally: Tally,
}

impl Section {
    // The section that a comment begins.
    fn begun(line: &[u8]) -> Option<Section> {
        let comment = line.strip_prefix(b"# ")?;
        let end = comment.iter().position(|b| *b == b':')?;
        for (name, kind) in SECTIONS {
            if name.as_bytes() == &comment[..end] {
                return Some(Section {
                    name,
                    kind,
                    next: 0,
                    tally: Tally::default(),
                });
            }
        }
        None
    }

    // The numbers up to the row are not listed, those of the row are; none where the row is out of place.
    fn take_row(&mut self, line: &[u8]) -> Option<()> {
        let row = rows::read(self.kind, line)?;
        if row.first < self.next || row.last < row.first || row.last >= END {
            return None;
        }
        let end = row.last + 1;
        self.tally
            .compare(self.kind, self.next, row.first, Want::Unlisted);
        self.tally.compare(self.kind, row.first, end, row.want);
        self.next = end;
        Some(())
    }

    // The numbers after the last row are not listed; then the section is whole.
    fn finish(&mut self) -> Tally {
        self.tally
            .compare(self.kind, self.next, END, Want::Unlisted);
        self.tally
    }
}

#[derive(Clone, Copy)]
pub struct Replay {
    section: Option<Section>,
    in_all: Tally,
    sections: u64,
    lines: u64,
    // The first line that is out of place, counted from 1.
    out_of_place: Option<u64>,
}

impl Replay {
    pub(crate) fn new() -> Self {
        Replay {
            section: None,
            in_all: Tally::default(),
            sections: 0,
            lines: 0,
            out_of_place: None,
        }
    }

    // Ends the section that has begun, if there is one.
    fn end_section(&mut self, rt: &impl Print) -> io::Result<()> {
        let Some(mut section) = self.section.take() else {
            return Ok(());
        };
        let tally = section.finish();
        println!(rt; "section={} {tally}", section.name)?;
        self.in_all = self.in_all.plus(tally);
        self.sections = self.sections.saturating_add(1);
        Ok(())
    }

    // A row of the section that has begun; none where it is out of place.
    fn take_row(&mut self, line: &[u8]) -> Option<()> {
        self.section.as_mut()?.take_row(line)
    }

    // The next line; after one that is out of place nothing is looked at.
    pub(crate) fn take(&mut self, rt: &impl Print, line: &[u8]) -> io::Result<()> {
        if self.out_of_place.is_some() {
            return Ok(());
        }
        self.lines = self.lines.saturating_add(1);
        if starts_with(line, b"#") {
            if let Some(section) = Section::begun(line) {
                self.end_section(rt)?;
                self.section = Some(section);
            }
        } else if self.take_row(line).is_none() {
            self.out_of_place = Some(self.lines);
        }
        Ok(())
    }

    // What is left to compare, and then the sums; or the line that is out of place, and no sums.
    pub(crate) fn finish(&mut self, rt: &impl Print) -> io::Result<()> {
        if let Some(line) = self.out_of_place {
            return println!(rt; "line={line}");
        }
        self.end_section(rt)?;
        println!(rt; "sections={} {}", self.sections, self.in_all)
    }
}
