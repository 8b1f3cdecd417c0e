// The lines of a section: first..last of a property, from;to to to of a mapping, in lowercase hex.
use crate::answers::{Kind, Want};
use casing::Mapping;
use lines::parse;

// A line of numbers: what it says of those from one to another, both ends counted.
#[derive(Clone, Copy, Debug, PartialEq, Eq)]
pub struct Row {
    pub first: u32,
    pub last: u32,
    pub want: Want,
}

fn property_row(line: &[u8]) -> Option<Row> {
    let mut parts = line.split(|b| *b == b'.');
    let first = parse(parts.next()?, 16)?;
    if !parts.next()?.is_empty() {
        return None;
    }
    let last = parse(parts.next()?, 16)?;
    match parts.next() {
        Some(_) => None,
        None => Some(Row {
            first,
            last,
            want: Want::Listed,
        }),
    }
}

// One to three numbers, and none is too many.
fn mapped(numbers: &[u8]) -> Option<Mapping> {
    let mut to = [0; 3];
    let mut count = 0;
    for (i, number) in numbers.split(|b| *b == b' ').enumerate() {
        *to.get_mut(i)? = parse(number, 16)?;
        count = i + 1;
    }
    Some(Mapping { to, count })
}

fn mapping_row(line: &[u8]) -> Option<Row> {
    let mut sides = line.splitn(2, |b| *b == b';');
    let n = parse(sides.next()?, 16)?;
    let mapping = mapped(sides.next()?)?;
    Some(Row {
        first: n,
        last: n,
        want: Want::MapsTo(mapping),
    })
}

// None where the line is no row.
pub(crate) fn read(kind: Kind, line: &[u8]) -> Option<Row> {
    match kind {
        Kind::Property(_) => property_row(line),
        Kind::CaseMapping(_) => mapping_row(line),
    }
}
