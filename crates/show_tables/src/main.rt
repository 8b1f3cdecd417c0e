// Prints, for each of the three skip tables, what stands in the list that it unpacks to, and how long the table is.
#![tactic(auto)]

ghost use Rattle.std.specs.Prelude.{◌≤◌};

use std::{fmt, io};

// What the most ranges unpack to, and two numbers more.
const MOST: usize = 2048;

// The ranges of a flat list, and the numbers in them.
#[derive(Default, Drop)]
struct Counts {
    ranges: usize,
    points: u64,
    first: u32,
    last: u32,
}

fn points_of(range: &[u32]) -> u64
    ensures { result ≤ 0x100000000 }
{
    match range {
        [first, last] => last.checked_sub(*first).map_or(0, |more| more as u64 + 1),
        _ => 0,
    }
}

fn points(list: &[u32]) -> u64 {
    list.chunks_exact(2)
        .map(points_of)
        .fold(0, u64::saturating_add)
}

// The counts of a list.
fn counted(list: &[u32]) -> Counts {
    let (Some(first), Some(last)) = (list.first(), list.last()) else {
        return Counts::default();
    };
    Counts {
        ranges: list.len() / 2,
        points: points(list),
        first: *first,
        last: *last,
    }
}

// The counts of the list that a table unpacks to.
fn of_table(headers: &[u32], offsets: &[u8]) -> Counts {
    let mut list = [0u32; MOST];
    let n = unpack::unpack(headers, offsets, &mut list).unwrap_or(0);
    counted(list.get(..n).unwrap_or(&[]))
}

impl fmt::Display for Counts {
    fn fmt<W: fmt::Write>(&self, f: &mut fmt::Formatter<W>) -> fmt::Result {
        writeln!(f, "ranges={}", self.ranges)?;
        writeln!(f, "points={}", self.points)?;
        writeln!(f, "first={:x}", self.first)?;
        writeln!(f, "last={:x}", self.last)
    }
}

fn show(rt: &impl Print, name: &str, headers: &[u32], offsets: &[u8]) -> io::Result<()> {
    let counts = of_table(headers, offsets);
    println!(rt;
        "property={name}\n{counts}headers={}\noffsets={}",
        headers.len(),
        offsets.len()
    )
}

fn main(rt: HostRuntime) -> io::Result<()> {
    use table_alphabetic::table as alphabetic;
    use table_numeric::table as numeric;
    use table_titlecase::table as titlecase;

    show(
        &rt,
        "alphabetic",
        &alphabetic::HEADERS,
        &alphabetic::OFFSETS,
    )?;
    show(&rt, "titlecase", &titlecase::HEADERS, &titlecase::OFFSETS)?;
    show(&rt, "numeric", &numeric::HEADERS, &numeric::OFFSETS)
}
