//! Choices.

use crate::rows::{Driver, Rows};
use combine::choice;
use combine::error::ParseError;
use combine::parser::char::{digit, letter, string};
use combine::parser::choice::Slice;
use combine::parser::combinator::{attempt, map};
use combine::parser::repeat::many1;
use combine::parser::token::token;
use combine::stream::position::TextStream;
use combine::stream::{MaybePartialStream, Stream};
use std::alloc::{AllocError, Global};

fn arrays<Input: Stream<Token = char>, D: Driver<Input>>(rows: &mut D)
where
    Input::Error: ParseError<char, Input::Range, Input::Position>,
{
    rows.check(
        choice([string("one"), string("two"), string("three")]),
        &[("three", "refused committed")],
    );
    rows.check(
        choice([
            attempt(string("one")),
            attempt(string("two")),
            attempt(string("three")),
        ]),
        &[("three", "three taken 5 committed")],
    );
    rows.check(choice([token('a'); 0]), &[("a", "refused peeked")])
}

fn slices<Input: Stream<Token = char>, D: Driver<Input>>(rows: &mut D)
where
    Input::Error: ParseError<char, Input::Range, Input::Position>,
{
    let mut words = [string("one"), string("two")];
    rows.check(
        choice(Slice(&mut words)),
        &[("two", "two taken 3 committed")],
    )
}

fn of_three<Input: Stream<Token = char>, D: Driver<Input>>(alloc: Global, rows: &mut D)
where
    Input::Error: ParseError<char, Input::Range, Input::Position>,
{
    rows.check(
        choice!(
            many1::<Vec<char>, _>(alloc, digit()),
            map(string("let"), move |_: &str| Vec::new(alloc)),
            many1::<Vec<char>, _>(alloc, letter()),
        ),
        &[
            ("123abc", "[123] taken 3 committed"),
            (":123", "refused peeked"),
        ],
    )
}

#[test]
fn choices(rt: HostRuntime) -> Result<(), AllocError> {
    let alloc = rt.alloc();
    let mut rows = Rows::new(alloc);
    arrays::<MaybePartialStream<TextStream<'static>>, Rows>(&mut rows);
    slices::<MaybePartialStream<TextStream<'static>>, Rows>(&mut rows);
    of_three::<MaybePartialStream<TextStream<'static>>, Rows>(alloc, &mut rows);
    rows.finish(&rt)
}
