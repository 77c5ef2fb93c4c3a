//! An input that stands in pieces.
ghost use Rattle.std.specs.Char.{is_ascii_digit};
ghost use Rattle.std.specs.Prelude.{◌≡◌, true};

use crate::slices::{is_digit, is_letter};
use combine::error::UnexpectedParse;
use combine::parser::combinator::map;
use combine::parser::repeat::many1;
use combine::parser::token::{satisfy, token};
use combine::parser::{Answer, SessionError, parse_pieces};
use std::alloc::Global;

type Setting = (Vec<u8>, u8, Vec<u8>, u8);

/// `WORD=DIGITS;`, however the input is cut.
pub fn setting(
    alloc: Global,
    pieces: &[&[u8]],
) -> Result<Answer<Setting, UnexpectedParse>, SessionError> {
    let word = many1::<Vec<u8>, _>(alloc, satisfy(is_letter));
    let digits = many1::<Vec<u8>, _>(alloc, satisfy(is_digit));
    parse_pieces(alloc, (word, token(b'='), digits, token(b';')), pieces)
}

/// What a digit stands for; the closure is called on digits alone.
pub fn digit_value(
    alloc: Global,
    pieces: &[&[u8]],
) -> Result<Answer<u8, UnexpectedParse>, SessionError> {
    let value = map(
        satisfy(is_digit),
        |digit: u8| -> u8
            requires { is_ascii_digit digit ≡ true }
        { digit - b'0' },
    );
    parse_pieces(alloc, value, pieces)
}
