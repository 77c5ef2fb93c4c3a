//! Parsers of bytes: one byte, classes of bytes, several bytes; what stands before some bytes; and binary integers.

pub mod types;

pub use combine_byte::byte::{
    take_until_byte, take_until_byte2, take_until_byte3, take_until_bytes,
};
pub use combine_byte::num;
pub use combine_char::byte::{
    alpha_num, byte, bytes, bytes_cmp, classes, crlf, digit, hex_digit, laws, letter, lower,
    newline, oct_digit, space, spaces, tab, upper,
};
pub use combine_char::byte_list::ShowsBytes;
