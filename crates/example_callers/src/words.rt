//! Words: one of letters, one of two that begin alike, and one that is a part of its text.

use crate::slices::is_letter;
use combine::error::UnexpectedParse;
use combine::parser::Parser;
use combine::parser::byte::bytes;
use combine::parser::choice::or;
use combine::parser::combinator::attempt;
use combine::parser::range::take_while1;
use combine::parser::repeat::many1;
use combine::parser::token::satisfy;
use std::alloc::Global;

/// A word of small letters, and what stands behind it.
pub fn word(alloc: Global, input: &[u8]) -> Result<(Vec<u8>, &[u8]), UnexpectedParse> {
    many1::<Vec<u8>, _>(alloc, satisfy(is_letter)).parse(input)
}

/// `get` or `go`: where `get` is refused behind its first letter, that letter is put back.
pub fn verb(input: &[u8]) -> Result<(&'static [u8], &[u8]), UnexpectedParse> {
    or(attempt(bytes(b"get")), bytes(b"go")).parse(input)
}

/// `get` alone, since `go` is never tried behind a `g`.
pub fn verb_without_attempt(input: &[u8]) -> Result<(&'static [u8], &[u8]), UnexpectedParse> {
    or(bytes(b"get"), bytes(b"go")).parse(input)
}

/// What stands before the first blank: a part of the text, which is not copied.
pub fn first_word(text: &str) -> Result<(&str, &str), UnexpectedParse> {
    take_while1(is_no_blank).parse(text)
}

fn is_no_blank(character: char) -> bool {
    character != ' '
}
