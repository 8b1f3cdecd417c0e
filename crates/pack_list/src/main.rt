// Packs the list that standard input holds as lines key=value, and prints the table, the refusal, or the line that is out of place.
#![tactic(auto)]

mod list;
mod table;

use lines::{Lines, MOST_LINE, TextBuffer};
use list::List;
use std::io;
use std::io::{Read, Write};

// Reads the reader, as standard input, to its end. One text holds each line in turn: an iterator would hand out a copy of each.
// Not inlined, as `answer`: the piece that is read and the text that is put together never stand on the stack at once.
#[inline(never)]
fn read_list<R: Read>(reader: &mut R, list: &mut List) -> io::Result<()> {
    let mut lines = Lines::new(reader, [0u8; 65536]);
    let mut line = TextBuffer::<MOST_LINE>::new();
    while lines.read_into(&mut line) {
        list.take(line.as_bytes());
    }
    list.finish();
    lines.finish()?;
    Ok(())
}

#[inline(never)]
fn answer(rt: &impl Print, list: &List) -> io::Result<()> {
    let mut out = TextBuffer::new();
    table::put_answer(&mut out, list);
    io::writer(rt).write_all(out.as_bytes())
}

fn main(rt: HostRuntime) -> io::Result<()> {
    let mut list = List::new();
    read_list(&mut rt.stdin(), &mut list)?;
    answer(&rt, &list)
}
