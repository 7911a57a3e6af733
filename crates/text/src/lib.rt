// Numbers in base ten and other text: read from bytes, and put into a buffer.
#![tactic(auto)]

mod read;
mod write;

pub use read::{bytes_from, read_field, text_at};
pub use write::{
    count_digits, digit_of, digits_of, put_byte, put_bytes, put_decimal, put_field, put_two,
};

// The digit 0, the byte between two numbers, and the byte behind a line.
pub const ZERO: u8 = b'0';

pub const BLANK: u8 = b' ';

pub const LINE_FEED: u8 = b'\n';

// A number that was read, and the position behind the byte that ends it.
#[derive(Clone, Copy, Debug, PartialEq, Eq)]
pub struct Field {
    pub value: u32,
    pub next: usize,
}
