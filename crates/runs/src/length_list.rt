// Length lists: a yes run, a no run, a yes run .. The place stands beside the bytes, and two functions call each other, since document
// 01 names that form.
ghost use Rattle.std.specs.Prelude.{◌≡◌, true, false, drop};
ghost use Rattle.runs.specs.Lengths.{length_at, lengths, kind_at};

// The length that stands at a place, and the place after it. A high byte with no next byte is the end of the list.
fn length_at(bytes: &[u8], at: usize) -> Option<(u16, usize)>
    ensures { result ≡ length_at bytes.now at }
{
    let b = u16::from(*bytes.get(at)?);
    let next = at + 1;
    if b < 0x80 {
        return Some((b, next));
    }
    let low = u16::from(*bytes.get(next)?);
    Some(((b - 0x80) * 256 + low, next + 1))
}

// Whether x is yes in the runs from `at` on, the first of which is a yes run.
#[cycle(no_run_yes_run)]
fn yes_run(bytes: &[u8], at: usize, x: u16) -> bool
    ensures { result ≡ kind_at true (lengths (drop at bytes.now)) x }
{
    let Some((len, next)) = length_at(bytes, at) else {
        return true;
    };
    if x < len {
        return true;
    }
    no_run(bytes, next, x - len)
}

// The same, where the first is a no run.
#[cycle(no_run_yes_run)]
fn no_run(bytes: &[u8], at: usize, x: u16) -> bool
    ensures { result ≡ kind_at false (lengths (drop at bytes.now)) x }
{
    let Some((len, next)) = length_at(bytes, at) else {
        return false;
    };
    if x < len {
        return false;
    }
    yes_run(bytes, next, x - len)
}

// Whether the whole list says yes of x.
pub fn starts_yes(bytes: &[u8], x: u16) -> bool
    ensures { result ≡ kind_at true (lengths bytes.now) x }
{
    yes_run(bytes, 0, x)
}
