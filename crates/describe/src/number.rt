// One number: what the library answers of it, in one line.
ghost use Rattle.std.specs.Iterator.{IsFinite};

use casing::Mapping;
use lines::TextBuffer;
use scalar::Refusal;

pub const MOST_TEXT: usize = 65536;

// The names of the properties whose answer is yes, with commas between them.
fn put_properties(out: &mut TextBuffer<MOST_TEXT>, answers: &[(&[u8], bool)]) {
    out.put(b" properties=");
    let mut names = answers.iter().filter(|(_, yes)| *yes);
    let Some((first, _)) = names.next() else {
        out.put(b"none");
        return;
    };
    out.put(first);
    for (name, _) in names {
        out.put(b",");
        out.put(name);
    }
}

fn put_printable(out: &mut TextBuffer<MOST_TEXT>, yes: bool) {
    if yes {
        out.put(b" printable=yes");
    } else {
        out.put(b" printable=no");
    }
}

// The numbers in hex, with commas between them.
fn put_numbers<I: Iterator<Item = u32> + Drop>(
    out: &mut TextBuffer<MOST_TEXT>,
    key: &[u8],
    numbers: I,
)
    requires can { I.can_next numbers }
    requires ends { IsFinite (I.remaining numbers) }
{
    out.put(key);
    let mut between: &[u8] = b"";
    for n in numbers {
        out.put(between);
        out.hex(n as u64);
        between = b",";
    }
}

fn put_mapping(out: &mut TextBuffer<MOST_TEXT>, key: &[u8], m: Mapping) {
    put_numbers(out, key, m.to.iter().copied().take(m.count));
}

// What the library answers of a scalar value; the first answer of another number is a refusal, and nothing is put.
fn put_answers(out: &mut TextBuffer<MOST_TEXT>, n: u32) -> Result<(), Refusal> {
    let properties: [(&[u8], bool); 9] = [
        (b"alphabetic", properties::is_alphabetic(n)?),
        (b"lowercase", properties::is_lowercase(n)?),
        (b"uppercase", properties::is_uppercase(n)?),
        (b"titlecase", properties::is_titlecase(n)?),
        (b"cased", properties::is_cased(n)?),
        (b"numeric", properties::is_numeric(n)?),
        (b"alphanumeric", properties::is_alphanumeric(n)?),
        (b"whitespace", properties::is_whitespace(n)?),
        (b"control", properties::is_control(n)?),
    ];
    put_properties(out, &properties);
    put_printable(out, printable::is_printable(n)?);
    put_mapping(out, b" lower=", mapping::to_lowercase(n)?);
    put_mapping(out, b" upper=", mapping::to_uppercase(n)?);
    put_mapping(out, b" title=", mapping::to_titlecase(n)?);
    let mut bytes = [0u8; 4];
    let count = encoding::encode_utf8(n, &mut bytes)?;
    put_numbers(out, b" utf8=", bytes.iter().take(count).map(|b| *b as u32));
    Ok(())
}

pub(crate) fn put_described(out: &mut TextBuffer<MOST_TEXT>, n: u32) {
    out.put(b"number=");
    out.hex(n as u64);
    if let Err(refusal) = put_answers(out, n) {
        out.put(b" refusal=");
        out.decimal(refusal.number() as u64);
    }
    out.put(b"\n");
}
