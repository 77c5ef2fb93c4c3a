//! Parsers one after another.

use crate::promises::{keeps_and_asks, keeps_without_memory};
use combine::dispatch;
use combine::error::ParseError;
use combine::parser::sequence::{between, skip, then, then_partial, then_ref, with};
use combine::parser::token::{any, token, value};
use combine::stream::Stream;

/// Tuples.
fn tuples<Input: Stream<Token = u8>>()
where
    Input::Error: ParseError<u8, Input::Range, Input::Position>,
{
    let (any, a) = (any(), token(b'a'));
    keeps_without_memory::<Input, _>(&(a,));
    keeps_without_memory::<Input, _>(&(any, a));
    keeps_without_memory::<Input, _>(&(any, a, any));
    keeps_without_memory::<Input, _>(&(any, a, any, a));
    keeps_without_memory::<Input, _>(&(any, a, any, a, any));
}

/// Longer tuples.
fn longer_tuples<Input: Stream<Token = u8>>()
where
    Input::Error: ParseError<u8, Input::Range, Input::Position>,
{
    let (any, a) = (any(), token(b'a'));
    keeps_without_memory::<Input, _>(&(any, a, any, a, any, a));
    keeps_without_memory::<Input, _>(&(any, a, any, a, any, a, any));
    keeps_without_memory::<Input, _>(&(any, a, any, a, any, a, any, a));
}

/// Tuples of whose values one is kept.
fn of_one_value<Input: Stream<Token = u8>>()
where
    Input::Error: ParseError<u8, Input::Range, Input::Position>,
{
    let (any, a) = (any(), token(b'a'));
    keeps_without_memory::<Input, _>(&with(a, any));
    keeps_without_memory::<Input, _>(&skip(any, a));
    keeps_without_memory::<Input, _>(&between(a, a, any));
}

/// A parser that a function answers.
fn answered<Input: Stream<Token = u8>>(input: &mut Input)
where
    Input::Error: ParseError<u8, Input::Range, Input::Position>,
{
    let any = any();
    keeps_and_asks(input, then(any, |byte: u8| token(byte)));
    keeps_without_memory::<Input, _>(&then_partial(any, |byte: &mut u8| token(*byte)));
    keeps_without_memory::<Input, _>(&then_ref(any, |byte: &u8| token(*byte)));
}

/// A parser by kind.
fn dispatched<Input: Stream<Token = u8>>(input: &mut Input)
where
    Input::Error: ParseError<u8, Input::Range, Input::Position>,
{
    let by_kind = then(
        any(),
        |kind: u8| dispatch!(kind;
        b'1' => any(),
        b'2' => token(kind),
        _ => value(kind),
    ),
    );
    keeps_and_asks(input, by_kind);
}
