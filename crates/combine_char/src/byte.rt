//! Parsers of bytes.
//!
//! A parser of a class takes one byte of it: accepted committed, with that byte as the value.
//!
//! # Errors
//!
//! Another byte is put back and refused peeked, as is the end of ended input; the text of the class is said to be expected.
ghost use Rattle.std.specs.Prelude.{◌≡◌};
ghost use Rattle.combine_char.specs.TextParsers.{by, equal, in_bytes_parser};
ghost use Rattle.combine_token.specs.Token.TokenParsers.{token_parser};

pub mod laws;
pub mod types;

use crate::byte_list::bytes_parser;
pub use crate::class::{
    alpha_num, classes, crlf, digit, hex_digit, letter, lower, newline, oct_digit, space, spaces,
    tab, upper,
};
use crate::fits::{By, Equal};
use combine_token::token::token;
use combine_token::token::types::Token;
use types::{Bytes, BytesCmp};

/// Takes this byte, as `token` does.
#[inline]
pub fn byte<Input>(byte: u8) -> Token<Input, u8>
    ensures { result ≡ token_parser byte }
{
    token(byte)
}

/// Takes the bytes of the list, one after another.
///
/// Its value is the list.
///
/// An empty list is accepted peeked.
///
/// # Errors
///
/// - A token that doesn't fit, or the end of ended input, refuses: peeked if no token was matched before it, else committed.
/// - A committed mismatch says only which token stands there. The list, as a range, is said to be expected where nothing was matched.
///
/// # Partial input
///
/// The end of an open piece is need of more. Nothing is left unread: the state keeps how many bytes were matched.
///
/// # Examples
///
/// ```
/// fn keyword(input: &[u8]) -> Result<(&'static [u8], &[u8]), UnexpectedParse> {
///     bytes(b"get").parse(input)
/// }
/// ```
///
/// On `b"get it"` it returns `(b"get", b" it")`; `b"go"` is refused committed.
#[inline]
pub fn bytes<Input>(s: &'static [u8]) -> Bytes<Input>
    ensures { result ≡ in_bytes_parser s.entry equal }
{
    bytes_parser(s, Equal)
}

/// Takes as many bytes as the list has, as `bytes` does, each if `cmp` says that it fits.
///
/// `cmp: Fn(u8, u8) -> bool`, or a `Compare`.
///
/// `cmp` is given a byte of the list and the token at its place.
///
/// # Differences from combine
///
/// `cmp` is an `Fn`, where the crate takes an `FnMut`.
#[inline]
pub fn bytes_cmp<C, Input>(s: &'static [u8], cmp: C) -> BytesCmp<Input, C>
    ensures { result ≡ in_bytes_parser s.entry (by cmp) }
{
    bytes_parser(s, By(cmp))
}
