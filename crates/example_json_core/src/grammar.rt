//! The grammar of one step. `I` is the stream.

use crate::place::Place;
use combine::error::UnexpectedParse;
use combine::parser::choice::or;
use combine::parser::choice::types::{Optional, Or};
use combine::parser::combinator::types::{Ignore, Map, Recognize};
use combine::parser::combinator::{ignore, map, recognize};
use combine::parser::repeat::types::{SkipMany, SkipMany1};
use combine::parser::sequence::skip;
use combine::parser::sequence::types::Skip;
use combine::parser::token::types::{Satisfy, Token};
use combine::{Function, Parser, eof, one_of, optional, satisfy, skip_many, skip_many1, token};
use std::alloc::Global;

/// A class of bytes.
#[derive(Clone, Copy, Drop)]
pub enum Class {
    Blank,
    /// A byte of a number or a word.
    Bare,
    /// A byte of a text that isn't escaped.
    Plain,
    /// The byte after a backslash.
    Escape,
    /// A comma, a colon or a bracket.
    Sign,
    /// A blank, or the comma or the colon that may follow the part at a place.
    After(Place),
}

impl Function<u8> for Class {
    type Output = bool;

    #[inline(always)]
    fn call(&self, byte: u8) -> bool {
        match self {
            Class::Blank => matches!(byte, b' ' | b'\t' | b'\n' | b'\r'),
            Class::Bare => byte.is_ascii_alphanumeric() || matches!(byte, b'+' | b'-' | b'.'),
            Class::Plain => byte >= b' ' && byte != b'"' && byte != b'\\',
            Class::Escape => b"\"\\/bfnrtu".contains(&byte),
            Class::Sign => matches!(byte, b',' | b':' | b'[' | b']' | b'{' | b'}'),
            Class::After(place) => place
                .after()
                .and_then(|it: Place| it.after_sign(byte))
                .is_some(),
        }
    }
}

/// A text with its quotes, a number or a word, unchanged, and the blank, the comma or the colon after it; or no bytes, and a sign.
pub type Item = (Vec<u8>, Option<u8>);

/// Makes an item of a sign alone.
#[derive(Clone, Copy, Drop)]
pub struct ToItem(Global);

impl Function<u8> for ToItem {
    type Output = Item;

    #[inline(always)]
    fn call(&self, sign: u8) -> Item {
        (Vec::new(self.0), Some(sign))
    }
}

pub type Byte<I> = Satisfy<I, Class>;

pub type Blanks<I> = SkipMany<Byte<I>>;

/// Parses blanks.
pub fn blanks<I>() -> Blanks<I> {
    skip_many(satisfy(Class::Blank))
}

pub type Character<I> = Or<Ignore<Byte<I>>, Ignore<(Token<I, u8>, Byte<I>)>>;

pub type Text<I> = (Token<I, u8>, SkipMany<Character<I>>, Token<I, u8>);

/// Parses a text. Its escapes stay as they are.
pub fn text<I>() -> Text<I> {
    let escape = (token(b'\\'), satisfy(Class::Escape));
    let character = or(ignore(satisfy(Class::Plain)), ignore(escape));
    (token(b'"'), skip_many(character), token(b'"'))
}

pub type Part<I> = Recognize<Vec<u8>, Or<Ignore<Text<I>>, SkipMany1<Byte<I>>>>;

pub type Step<I> = Skip<
    Or<(Part<I>, Optional<Byte<I>>), Map<Byte<I>, ToItem, Item>>,
    Blanks<I>,
    Item,
>;

/// Parses the item at a place, and blanks.
pub fn step<I>(alloc: Global, place: Place) -> Step<I> {
    let part = or(ignore(text()), skip_many1(satisfy(Class::Bare)));
    let after = optional(satisfy(Class::After(place)));
    let sign = map(satisfy(Class::Sign), ToItem(alloc));
    skip(or((recognize(alloc, part), after), sign), blanks())
}

/// Reads a number. The error is of kind `End` if it ends too soon.
pub fn read_number(bytes: &[u8]) -> Result<(), UnexpectedParse> {
    let digits = || skip_many1(satisfy(|byte: u8| byte.is_ascii_digit()));
    let whole = or(ignore(token(b'0')), digits());
    let fraction = optional((token(b'.'), digits()));
    let exponent = optional((
        one_of([b'e', b'E']),
        optional(one_of([b'+', b'-'])),
        digits(),
    ));
    let mut number = (optional(token(b'-')), whole, fraction, exponent, eof());
    number.parse(bytes).map(|_| ())
}
