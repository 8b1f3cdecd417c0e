// Singletons: pairs of a high byte and how many of the next low bytes belong to it.
ghost use Rattle.std.specs.Prelude.{◌≡◌, ◌/◌, ◌%◌};
ghost use Rattle.runs.specs.Singletons.{listed};

// Whether the pairs list x. A count that runs past the low bytes takes what is left.
pub fn is_singleton(highs: &[u8], counts: &[u8], lows: &[u8], x: u16) -> bool
    ensures { result ≡ listed highs.now counts.now lows.now (x / 256) (x % 256) }
{
    let high = (x / 256) as u8;
    let low = (x % 256) as u8;
    let mut rest = lows;
    for (&of, &count) in highs.iter().zip(counts) {
        let (own, after) = rest.split_at(usize::from(count).min(rest.len()));
        if of == high && own.contains(&low) {
            return true;
        }
        rest = after;
    }
    false
}
