// What each line of a list must be: its property, how many ranges it has, and then first and last of each.
use lines::{MOST_LINE, TextBuffer};

// The longest name of a property.
pub const MOST_NAME: usize = 64;

// One range more than a list may have, so that the packer sees too many.
pub const MOST_NUMBERS: usize = 2048;

// What was read so far.
#[derive(Drop)]
pub struct List {
    // How many lines were in place.
    lines: u64,
    pub name: TextBuffer<MOST_NAME>,
    pub ranges: u32,
    numbers: [u32; MOST_NUMBERS],
    // The first line that is out of place, counted from 1.
    pub out_of_place: Option<u64>,
}

// The number after a key, in a base.
fn value(line: &[u8], key: &[u8], base: u32) -> Option<u32> {
    lines::parse(line.strip_prefix(key)?, base)
}

impl List {
    pub(crate) fn new() -> Self {
        List {
            lines: 0,
            name: TextBuffer::new(),
            ranges: 0,
            numbers: [0; MOST_NUMBERS],
            out_of_place: None,
        }
    }

    // The numbers of the list; of too many just so many that the packer refuses them.
    pub(crate) fn numbers(&self) -> &[u32] {
        let numbers = &self.numbers[..];
        let n = (self.ranges as usize * 2).min(MOST_NUMBERS);
        &numbers[..n]
    }

    // How many lines the list has, its ranges known.
    fn wanted(&self) -> u64 {
        2 + 2 * self.ranges as u64
    }

    // The line after those in place is missing, or is another.
    fn misplace(&mut self) {
        self.out_of_place = Some(self.lines.saturating_add(1));
    }

    fn take_name(&mut self, line: &[u8]) -> Option<()> {
        let name = line.strip_prefix(b"property=")?;
        if name.is_empty() || name.len() > MOST_NAME {
            return None;
        }
        self.name.put(name);
        Some(())
    }

    // A number that the list has no room for is read and dropped.
    fn take_number(&mut self, line: &[u8], i: u64) -> Option<()> {
        let n = if i % 2 == 0 {
            value(line, b"first=", 16)?
        } else {
            value(line, b"last=", 16)?
        };
        if let Some(number) = self.numbers.get_mut(i as usize) {
            *number = n;
        }
        Some(())
    }

    // None where the line is out of place.
    fn take_next(&mut self, line: &[u8]) -> Option<()> {
        if line.len() >= MOST_LINE {
            return None;
        }
        match self.lines {
            0 => self.take_name(line)?,
            1 => self.ranges = value(line, b"ranges=", 10)?,
            before => {
                if before >= self.wanted() {
                    return None;
                }
                self.take_number(line, before - 2)?;
            }
        }
        self.lines = self.lines.saturating_add(1);
        Some(())
    }

    // The next line; after one that is out of place nothing is looked at.
    pub(crate) fn take(&mut self, line: &[u8]) {
        if self.out_of_place.is_none() && self.take_next(line).is_none() {
            self.misplace();
        }
    }

    // Lines that are missing at the end are out of place.
    pub(crate) fn finish(&mut self) {
        if self.out_of_place.is_none() && self.lines < self.wanted() {
            self.misplace();
        }
    }
}
