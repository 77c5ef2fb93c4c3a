//! Classes of tokens, and the parsers of single characters and bytes, which are made of them. Our own: the crate writes each of its parsers with a predicate.
ghost use Rattle.std.specs.Prelude.{◌≡◌};
ghost use Rattle.combine_char.specs.TextParsers.{in_class_parser, named_parser, whole_pair_parser};
ghost use Rattle.combine_repeat.specs.ManyParsers.{skip_many_of};

pub mod classes;
pub mod types;

use crate::named::naming;
use crate::pair::whole_pair;
use combine_repeat::many::skip_many;
use std::marker::PhantomData;
use types::{
    AlphaNum, ClassParser, CrLf, Digit, HexDigit, Letter, Lower, Newline, OctDigit, Space, Spaces,
    Tab, Upper,
};

/// A fixed text that errors say: a type of no size.
pub trait Text {
    ghost use Rattle.std.specs.Prelude.{◌≡◌, ℕ, List};

    /// Its bytes.
    ghost bytes: { List ℕ };

    /// Returns the text.
    fn text() -> &'static str
        ensures { result.now ≡ bytes };
}

/// A class of tokens: a type of no size that says which tokens are in it.
///
/// Its text is what errors say was expected.
pub trait Class<T> {
    ghost use Rattle.std.specs.Prelude.{◌≡◌, ℕ, Bool, List};

    /// The bytes of its text.
    ghost bytes: { List ℕ };

    /// The set of its tokens.
    ghost members: { T → Bool };

    /// Returns its text.
    fn text() -> &'static str
        ensures { result.now ≡ bytes };

    /// Returns whether the token is in the class.
    fn has(token: T) -> bool
        ensures { result ≡ members token };
}

/// Takes a token that is in the class: accepted committed, with that token as the value.
///
/// # Errors
///
/// Another token is put back and refused peeked, as is the end of ended input; the text of the class is said to be expected.
#[inline]
pub fn in_class<Input, C>() -> ClassParser<Input, C>
    ensures { result ≡ in_class_parser }
{
    ClassParser {
        reads: PhantomData,
        class: PhantomData,
    }
}

/// Takes a digit, `0` to `9`.
///
/// # Examples
///
/// ```
/// fn digits(input: &str) -> Result<((char, char), &str), UnexpectedParse> {
///     (digit(), digit()).parse(input)
/// }
/// ```
///
/// On `"12a"` it returns `(('1', '2'), "a")`.
#[inline]
pub fn digit<Input>() -> Digit<Input>
    ensures { result ≡ in_class_parser }
{
    in_class()
}

/// Takes an octal digit, `0` to `7`.
#[inline]
pub fn oct_digit<Input>() -> OctDigit<Input>
    ensures { result ≡ in_class_parser }
{
    in_class()
}

/// Takes a hexadecimal digit: `0` to `9`, `a` to `f`, `A` to `F`.
#[inline]
pub fn hex_digit<Input>() -> HexDigit<Input>
    ensures { result ≡ in_class_parser }
{
    in_class()
}

/// Takes white space: of characters, as std's `char::is_whitespace` has it; of bytes, a tab, line feed, form feed, carriage return or space.
#[inline]
pub fn space<Input>() -> Space<Input>
    ensures { result ≡ in_class_parser }
{
    in_class()
}

/// Takes a line feed.
#[inline]
pub fn newline<Input>() -> Newline<Input>
    ensures { result ≡ in_class_parser }
{
    in_class()
}

/// Takes a tab.
#[inline]
pub fn tab<Input>() -> Tab<Input>
    ensures { result ≡ in_class_parser }
{
    in_class()
}

/// Takes an uppercase letter: a character with the property Uppercase, or a byte of `A` to `Z`.
#[inline]
pub fn upper<Input>() -> Upper<Input>
    ensures { result ≡ in_class_parser }
{
    in_class()
}

/// Takes a lowercase letter: a character with the property Lowercase, or a byte of `a` to `z`.
#[inline]
pub fn lower<Input>() -> Lower<Input>
    ensures { result ≡ in_class_parser }
{
    in_class()
}

/// Takes a letter: a character with the property Alphabetic, or a byte of `A` to `Z` or `a` to `z`.
#[inline]
pub fn letter<Input>() -> Letter<Input>
    ensures { result ≡ in_class_parser }
{
    in_class()
}

/// Takes a letter or a digit: a character with the property Alphabetic or of a general category of numbers (Nd, Nl or No), or a byte that is a letter or a digit of ASCII.
#[inline]
pub fn alpha_num<Input>() -> AlphaNum<Input>
    ensures { result ≡ in_class_parser }
{
    in_class()
}

/// Takes a carriage return and then a line feed, which is the value.
///
/// It counts as 2 parsers.
///
/// # Errors
///
/// A carriage return without a line feed is refused committed.
///
/// # Partial input
///
/// On need of more the stream is put back, and the next call begins again.
#[inline]
pub fn crlf<Input>() -> CrLf<Input>
    ensures { result ≡ named_parser (whole_pair_parser (in_class_parser, in_class_parser)) }
{
    naming(whole_pair((in_class(), newline())))
}

/// Passes over white space, as long as there is some: `skip_many(space())`, of which errors say `whitespaces`.
#[inline]
pub fn spaces<Input>() -> Spaces<Input>
    ensures { result ≡ named_parser (skip_many_of in_class_parser) }
{
    naming(skip_many(space()))
}
