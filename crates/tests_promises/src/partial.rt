//! Callers' functions that may be called on the values of their part alone: on digits.
ghost use Rattle.std.specs.Char.{is_ascii_digit};
ghost use Rattle.std.specs.Prelude.{◌≡◌, true};

use combine::error::UnexpectedParse;
use combine::parser::byte::digit;
use combine::parser::combinator::{and_then, flat_map, map};
use combine::parser::repeat::many1;
use combine::parser::token::token;
use combine::parser::{Answer, SessionError, parse_pieces};
use combine::stream::Kind;
use std::alloc::Global;

pub type InPieces<T> = Result<Answer<T, UnexpectedParse>, SessionError>;

const REFUSED: UnexpectedParse = UnexpectedParse(Kind::Refused);

/// What each of several digits stands for.
pub fn all_digits(alloc: Global, pieces: &[&[u8]]) -> InPieces<Vec<u8>> {
    let value = map(
        digit(),
        |digit: u8| -> u8
            requires { is_ascii_digit digit ≡ true }
        { digit - b'0' },
    );
    parse_pieces(alloc, many1::<Vec<u8>, _>(alloc, value), pieces)
}

/// What a digit stands for, and a semicolon.
pub fn ended_digit(alloc: Global, pieces: &[&[u8]]) -> InPieces<(u8, u8)> {
    let value = map(
        digit(),
        |digit: u8| -> u8
            requires { is_ascii_digit digit ≡ true }
        { digit - b'0' },
    );
    parse_pieces(alloc, (value, token(b';')), pieces)
}

/// What a digit stands for, if it is less than eight.
pub fn small_digit(alloc: Global, pieces: &[&[u8]]) -> InPieces<u8> {
    let value = and_then(
        digit(),
        |digit: u8| -> Result<u8, UnexpectedParse>
            requires { is_ascii_digit digit ≡ true }
        { below_eight(digit - b'0') },
    );
    parse_pieces(alloc, value, pieces)
}

/// The same, with the error of the stream.
pub fn small_digit_flat(alloc: Global, pieces: &[&[u8]]) -> InPieces<u8> {
    let value = flat_map(
        digit(),
        |digit: u8| -> Result<u8, UnexpectedParse>
            requires { is_ascii_digit digit ≡ true }
        { below_eight(digit - b'0') },
    );
    parse_pieces(alloc, value, pieces)
}

/// The number, if it is less than eight.
fn below_eight(number: u8) -> Result<u8, UnexpectedParse> {
    if number < 8 { Ok(number) } else { Err(REFUSED) }
}
