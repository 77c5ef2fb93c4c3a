//! Choices.

use crate::promises::{keeps_and_asks, keeps_without_memory};
use combine::error::ParseError;
use combine::parser::choice::{Dispatch3, Slice, choice, optional, or};
use combine::parser::combinator::Either;
use combine::parser::token::types::{Any, Token};
use combine::parser::token::{any, token};
use combine::stream::Stream;

fn choices<Input: Stream<Token = u8>>(input: &mut Input)
where
    Input::Error: ParseError<u8, Input::Range, Input::Position>,
{
    let any = any();
    let a = token(b'a');
    keeps_and_asks(input, or(a, any));
    keeps_and_asks(input, optional(a));
    keeps_and_asks(input, choice((a, a, any)));
    keeps_and_asks(input, choice([a, a]));
    let mut alternatives = [a, a];
    keeps_and_asks(input, choice(Slice(&mut alternatives)));
    let mut lent = (a, any);
    keeps_and_asks(input, choice(&mut lent));
}

/// Choices over tuples.
fn tuples<Input: Stream<Token = u8>>()
where
    Input::Error: ParseError<u8, Input::Range, Input::Position>,
{
    let (any, a) = (any(), token(b'a'));
    keeps_without_memory::<Input, _>(&choice((a,)));
    keeps_without_memory::<Input, _>(&choice((a, any)));
    keeps_without_memory::<Input, _>(&choice((a, any, a, any)));
    keeps_without_memory::<Input, _>(&choice((a, any, a, any, a)));
}

/// Choices over longer tuples.
fn longer_tuples<Input: Stream<Token = u8>>()
where
    Input::Error: ParseError<u8, Input::Range, Input::Position>,
{
    let (any, a) = (any(), token(b'a'));
    keeps_without_memory::<Input, _>(&choice((a, any, a, any, a, any)));
    keeps_without_memory::<Input, _>(&choice((a, any, a, any, a, any, a)));
    keeps_without_memory::<Input, _>(&choice((a, any, a, any, a, any, a, any)));
}

/// One of two or three.
fn variants<Input: Stream<Token = u8>>(input: &mut Input)
where
    Input::Error: ParseError<u8, Input::Range, Input::Position>,
{
    let a = token(b'a');
    let right: Either<Any<Input>, Token<Input, u8>> = Either::Right(a);
    keeps_and_asks(input, right);
    let second: Dispatch3<Any<Input>, Token<Input, u8>, Any<Input>> = Either::Right(Either::Left(
        a,
    ));
    keeps_and_asks(input, second);
}
