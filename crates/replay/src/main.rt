// Replays the committed answers of the Rust for every scalar value, and counts those that differ from the library's.
#![tactic(auto)]

mod answers;
mod rows;
mod section;

use lines::{Lines, MOST_LINE, TextBuffer};
use section::Replay;
use std::io;
use std::io::Read;

fn replay_all<R: Read>(rt: &impl Print, reader: &mut R) -> io::Result<()> {
    let mut lines = Lines::new(reader, [0u8; 65536]);
    let mut replay = Replay::new();
    let mut line = TextBuffer::<MOST_LINE>::new();
    while lines.read_into(&mut line) {
        replay.take(rt, line.as_bytes())?;
    }
    replay.finish(rt)?;
    lines.finish()?;
    Ok(())
}

fn main(rt: HostRuntime) -> io::Result<()> {
    replay_all(&rt, &mut rt.stdin())
}
