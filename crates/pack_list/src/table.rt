// What is printed of a list that was read: the packed table, the refusal, or the line.
use crate::list::List;
use lines::TextBuffer;
use scalar::Refusal;

// The longest table has 2,047 headers and offsets, in 56,000 bytes.
pub const MOST_TEXT: usize = 65536;

fn put_refusal(out: &mut TextBuffer<MOST_TEXT>, refusal: Refusal) {
    out.decimal_line(b"refusal=", refusal.number() as u64);
    out.decimal_line(b"carried=", refusal.carried() as u64);
}

fn put_table(out: &mut TextBuffer<MOST_TEXT>, list: &List) -> Result<(), Refusal> {
    let mut headers = [0u32; 2048];
    let mut offsets = [0u8; 2048];
    let packed = pack::pack(list.numbers(), &mut headers, &mut offsets)?;
    out.line(b"property=", list.name.as_bytes());
    out.decimal_line(b"ranges=", list.ranges as u64);
    out.decimal_line(b"headers=", packed.headers as u64);
    out.decimal_line(b"offsets=", packed.offsets as u64);
    for header in headers.iter().take(packed.headers) {
        out.hex_line(b"header=", *header as u64);
    }
    for offset in offsets.iter().take(packed.offsets) {
        out.decimal_line(b"offset=", *offset as u64);
    }
    Ok(())
}

pub(crate) fn put_answer(out: &mut TextBuffer<MOST_TEXT>, list: &List) {
    if let Some(line) = list.out_of_place {
        out.decimal_line(b"line=", line);
    } else if let Err(refusal) = put_table(out, list) {
        put_refusal(out, refusal);
    }
}
