// Reading a plane's rows. The page of a number, 256 numbers each, says which single rows can hold it, halving finds the one that
// does, and its word says where the number goes.
ghost use Rattle.std.specs.Prelude.{◌≡◌, ℕ, ◌*◌, ◌%◌, ◌<◌, ◌≤◌, List, true, length, slice_index};
ghost use Rattle.casing.specs.Rows.{Rows, apart, covers, moved, in_plane, singles, multis, multiple, looked, from_floor};
ghost use Rattle.casing.specs.Reading.{Says, packed, four_at, page_of, unpacked, row_says, RowOf, Halved, readable};

// The rows of plane NUMBER, each table behind a `match`, which becomes a load from read-only data.
pub trait Plane<const NUMBER: u16> {
    ghost rows: { Rows };

    ghost pages: { List ℕ };

    // The last number of the single row at i, if there is one.
    fn end(i: usize) -> u16
        ensures { i < length rows.ends → result ≡ slice_index rows.ends i };

    // The packed single rows from 4 * i on, the four of an arm: a check of the `match` costs by its arms.
    fn four(i: usize) -> [u64; 4]
        ensures { i * 4 < length rows.ends → result ≡ four_at (packed (singles rows)) i };

    // The single rows that can hold a page's numbers, from the first index to before the second; none where the page has no rows
    // of any kind.
    fn page(page: u16) -> Option<(usize, usize)>
        ensures { result ≡ page_of pages page };

    // Where the multi rows send a number: one to three numbers, unused ones 0.
    fn multi(low: u16) -> Option<(u32, u32, u32)>
        ensures { Says result (multiple (multis rows) NUMBER low) };

    ghost test: { readable rows pages ≡ true };
}

// Among the rows from first to before last: the first that does not end below x, or last.
pub fn row_at(ends: &[u16], first: usize, last: usize, x: u16) -> usize
    requires ends_apart { apart 0 ends.now ends.now ≡ true }
    requires first_le_last { (first ≤ last) × (last ≤ length ends.now) }
    ensures { Halved ends.now first last x result }
{
    let mut lo = first;
    let mut hi = last;
    while lo < hi {
        let mid = lo + (hi - lo) / 2;
        if ends[mid] < x {
            lo = mid + 1;
        } else {
            hi = mid;
        }
    }
    lo
}

// The same among the rows of a plane. Halved by hand too: no slice holds their ends.
pub fn plane_row_at<const NUMBER: u16, P: Plane<NUMBER>>(first: usize, last: usize, x: u16) -> usize
    requires { (first ≤ last) × (last ≤ length P.rows.ends) }
    ensures { Halved P.rows.ends first last x result }
{
    let mut lo = first;
    let mut hi = last;
    while lo < hi {
        let mid = lo + (hi - lo) / 2;
        if P::end(mid) < x {
            lo = mid + 1;
        } else {
            hi = mid;
        }
    }
    lo
}

fn row_covers(start: u16, end: u16, step: u16, x: u16) -> bool
    ensures { result ≡ covers start end step x }
{
    if x < start {
        return false;
    }
    if x > end {
        return false;
    }
    if step != 2 {
        return true;
    }
    x % 2 == start % 2
}

fn number_in(plane: u16, low: u16) -> u32
    ensures { result ≡ in_plane plane low }
{
    plane as u32 * 0x10000 + low as u32
}

// The delta wraps in the low 16 bits, and the plane stays.
fn moved_by(plane: u16, x: u16, delta: u16) -> u32
    ensures { result ≡ moved plane x delta }
{
    number_in(plane, std::num::wrapping_add_u16(x, delta))
}

fn lowest(word: u64) -> u16
    ensures { result ≡ word % 65536 }
{
    (word % 0x10000) as u16
}

// The row at i of the four that hold it.
pub fn row_of(four: [u64; 4], i: usize) -> u64
    ensures { RowOf four i result }
{
    four[i % 4]
}

// Where a packed single row sends the number with these low 16 bits: one to three numbers, unused ones 0.
pub fn by_row(row: u64, plane: u16, low: u16) -> Option<(u32, u32, u32)>
    ensures { result ≡ row_says (unpacked row) plane low }
{
    let after_start = row / 0x10000;
    let after_end = after_start / 0x10000;
    let after_step = after_end / 0x10000;
    if row_covers(lowest(row), lowest(after_start), lowest(after_end), low) {
        return Some((moved_by(plane, low, lowest(after_step)), 0, 0));
    }
    None
}

// Where a plane's rows send the number with these low 16 bits.
fn looked_up<const NUMBER: u16, P: Plane<NUMBER>>(low: u16) -> Option<(u32, u32, u32)>
    ensures { Says result (looked P.rows NUMBER low) }
{
    let (first, last) = P::page(low / 256)?;
    let i = plane_row_at::<NUMBER, P>(first, last, low);
    if i == last {
        return P::multi(low);
    }
    match by_row(row_of(P::four(i / 4), i), NUMBER, low) {
        Some(to) => Some(to),
        None => P::multi(low),
    }
}

// Where a mapping's rows send a number: those of its plane, from the floor on.
pub fn from_floor<P0: Plane<0>, P1: Plane<1>>(floor: u32, n: u32) -> Option<(u32, u32, u32)>
    ensures { Says result (from_floor floor P0.rows P1.rows n) }
{
    if n < floor {
        return None;
    }
    let low = (n % 0x10000) as u16;
    match n / 0x10000 {
        0 => looked_up::<0, P0>(low),
        1 => looked_up::<1, P1>(low),
        _ => None,
    }
}
