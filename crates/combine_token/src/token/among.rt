//! Tokens that a list has among its items, and tokens that it hasn't.
ghost use Rattle.std.specs.Prelude.{◌≡◌};
ghost use Rattle.std.specs.Iterator.{IsFinite};
ghost use Rattle.combine_base.specs.Error.Errors.{AddsItems};
ghost use Rattle.combine_token.specs.Token.Among.{ExpectsEach, FindsAmong};
ghost use Rattle.combine_token.specs.Token.TokenParsers.{none_of_parser, one_of_parser};

pub mod types;

use combine_base::error::{Info, ParseError};
use std::marker::PhantomData;
use types::{Listed, NoneOf, OneOf};

/// Takes a token that equals an item of the list, which is the value.
///
/// The acceptance is committed. An iterator of each clone of the list has to end.
///
/// # Errors
///
/// Another token is put back and refused peeked, as is the end of ended input. Each item is said to be expected, in order. A clone of the list that finds no memory is the fault `Memory`.
///
/// # Partial input
///
/// The end of open input is need of more.
///
/// # Differences from combine
///
/// In the crate the list need not end.
///
/// # Examples
///
/// ```
/// fn sign(input: &[u8]) -> Result<(u8, &[u8]), UnexpectedParse> {
///     one_of([b'+', b'-']).parse(input)
/// }
/// ```
///
/// On `b"-1"` it returns `(b'-', b"1")`.
pub fn one_of<T, Input>(tokens: T) -> OneOf<T, Input>
    ensures { result ≡ one_of_parser tokens }
{
    Listed {
        tokens,
        reads: PhantomData,
        wants: PhantomData,
    }
}

/// Takes a token that equals no item of the list, which is the value.
///
/// It is as `one_of` is, but nothing is said to be expected.
///
/// # Examples
///
/// ```
/// fn other(input: &[u8]) -> Result<(u8, &[u8]), UnexpectedParse> {
///     none_of([b'"', b'\\']).parse(input)
/// }
/// ```
///
/// On `b"ab"` it returns `(b'a', b"b")`; `b"\""` is refused peeked.
pub fn none_of<T, Input>(tokens: T) -> NoneOf<T, Input>
    ensures { result ≡ none_of_parser tokens }
{
    Listed {
        tokens,
        reads: PhantomData,
        wants: PhantomData,
    }
}

/// Returns whether an item equals the token.
fn is_among<I: Iterator>(items: I, token: I::Item) -> bool
where
    I::Item: Copy + PartialEq,
    requires can { I.can_next items }
    requires ends { IsFinite (I.remaining items) }
    ensures { FindsAmong I.next_gives (λ x. I.Item.eq x token) items result }
{
    'items: for item in items {
        if item == token {
            return true;
        }
    }
    false
}

/// Says of each item that it was expected, in order.
fn expect_each<R: Copy, P: Ord, I: Iterator, E: ParseError<I::Item, R, P>>(items: I, error: &mut E)
where
    I::Item: Copy,
    requires can { I.can_next items }
    requires ends { IsFinite (I.remaining items) }
    ensures { AddsItems E.observers (Unit {0}) (ExpectsEach I.next_gives items) error.old error.new }
{
    'items: for item in items {
        error.add_expected(&Info::Token(item));
    }
}
