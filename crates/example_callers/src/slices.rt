//! A whole slice, parsed in a plain function.
ghost use Rattle.std.specs.Prelude.{◌≡◌};
ghost use Rattle.std.specs.Char.{is_ascii_digit, is_ascii_lowercase};

use combine::parser::byte;
use combine::{Parser, UnexpectedParse, many1, token};
use std::alloc::Global;

/// Parses `WORD=DIGITS;` and returns it with the rest of the input.
pub fn setting(
    alloc: Global,
    input: &[u8],
) -> Result<((Vec<u8>, u8, Vec<u8>, u8), &[u8]), UnexpectedParse> {
    let word = many1::<Vec<u8>, _>(alloc, byte::lower());
    let digits = many1::<Vec<u8>, _>(alloc, byte::digit());
    (word, token(b'='), digits, token(b';')).parse(input)
}

/// Whether a byte is a small letter.
pub fn is_letter(byte: u8) -> bool
    ensures { result ≡ is_ascii_lowercase byte }
{
    byte.is_ascii_lowercase()
}

/// Whether a byte is a digit.
pub fn is_digit(byte: u8) -> bool
    ensures { result ≡ is_ascii_digit byte }
{
    byte.is_ascii_digit()
}
