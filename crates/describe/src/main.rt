// Describes the numbers that standard input holds in lowercase hex, one a line: properties, mappings and UTF-8 bytes, or the refusal.
#![tactic(auto)]

mod number;

use lines::{Lines, MOST_LINE, TextBuffer};
use number::MOST_TEXT;
use std::io;
use std::io::{Read, Write};

// Where the output is written out: what is left of the buffer holds any one line.
const NEARLY_FULL: usize = 60000;

// A number; a line of so many bytes or more is none.
fn number_of(line: &[u8]) -> Option<u32> {
    if line.len() < MOST_LINE {
        lines::parse(line, 16)
    } else {
        None
    }
}

fn put_line(out: &mut TextBuffer<MOST_TEXT>, line: &[u8], count: u64) {
    match number_of(line) {
        Some(n) => number::put_described(out, n),
        None => out.decimal_line(b"line=", count),
    }
}

// Writes out what is there.
fn emptied(rt: &impl Print, out: &mut TextBuffer<MOST_TEXT>) -> io::Result<()> {
    io::writer(rt).write_all(out.as_bytes())?;
    out.clear();
    Ok(())
}

fn describe_all<R: Read>(
    rt: &impl Print,
    reader: &mut R,
    out: &mut TextBuffer<MOST_TEXT>,
) -> io::Result<()> {
    let mut lines = Lines::new(reader, [0u8; 65536]);
    let mut line = TextBuffer::<MOST_LINE>::new();
    let mut count: u64 = 0;
    while lines.read_into(&mut line) {
        count = count.saturating_add(1);
        put_line(out, line.as_bytes(), count);
        if out.as_bytes().len() >= NEARLY_FULL {
            emptied(rt, out)?;
        }
    }
    emptied(rt, out)?;
    lines.finish()?;
    Ok(())
}

fn main(rt: HostRuntime) -> io::Result<()> {
    let mut out = TextBuffer::new();
    describe_all(&rt, &mut rt.stdin(), &mut out)
}
