//! Parsers of characters.
//!
//! A parser of a class takes one character of it: accepted committed, with that character as the value.
//!
//! # Errors
//!
//! Another character is put back and refused peeked, as is the end of ended input; the text of the class is said to be expected.
ghost use Rattle.std.specs.Prelude.{◌≡◌};
ghost use Rattle.combine_char.specs.TextParsers.{by, equal, in_text_parser};
ghost use Rattle.combine_token.specs.Token.TokenParsers.{token_parser};

pub mod laws;
pub mod types;

pub use crate::class::{
    alpha_num, classes, crlf, digit, hex_digit, letter, lower, newline, oct_digit, space, spaces,
    tab, upper,
};
use crate::fits::{By, Equal};
use crate::text::text_parser;
use combine_token::token::token;
use combine_token::token::types::Token;
use types::{Str, StrCmp};

/// Takes this character, as `token` does.
#[inline]
pub fn char<Input>(char: char) -> Token<Input, char>
    ensures { result ≡ token_parser char }
{
    token(char)
}

/// Takes the characters of the text, one after another.
///
/// Its value is the text.
///
/// An empty text is accepted peeked.
///
/// # Errors
///
/// - A token that doesn't fit, or the end of ended input, refuses: peeked if no token was matched before it, else committed.
/// - A committed mismatch says only which token stands there. The text is said to be expected where nothing was matched.
///
/// # Partial input
///
/// The end of an open piece is need of more. Nothing is left unread: the state keeps how many characters were matched.
///
/// # Examples
///
/// ```
/// fn keyword(input: &str) -> Result<(&'static str, &str), UnexpectedParse> {
///     string("let").parse(input)
/// }
/// ```
///
/// On `"let x"` it returns `("let", " x")`; `"lex"` is refused committed.
#[inline]
pub fn string<Input>(s: &'static str) -> Str<Input>
    ensures { result ≡ in_text_parser s.entry equal }
{
    text_parser(s, Equal)
}

/// Takes as many characters as the text has, as `string` does, each if `cmp` says that it fits.
///
/// `cmp: Fn(char, char) -> bool`, or a `Compare`.
///
/// `cmp` is given a character of the text and the token at its place.
///
/// # Differences from combine
///
/// `cmp` is an `Fn`, where the crate takes an `FnMut`.
#[inline]
pub fn string_cmp<C, Input>(s: &'static str, cmp: C) -> StrCmp<Input, C>
    ensures { result ≡ in_text_parser s.entry (by cmp) }
{
    text_parser(s, By(cmp))
}
