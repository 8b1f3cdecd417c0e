// UTF-8 and UTF-16 of one scalar value: its length, and its encoding into a lent buffer.
#![tactic(auto)]

mod unit;
mod utf16;
mod utf8;

pub use utf8::{encode_utf8, len_utf8};
pub use utf16::{encode_utf16, len_utf16};
