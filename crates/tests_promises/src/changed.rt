//! Parsers that change what their part answers, or what its errors say.

use crate::promises::{keeps, keeps_without_memory};
use combine::ParserExt;
use combine::error::ParseError;
use combine::parser::combinator::{ignore, map, recognize, spanned};
use combine::parser::error::{expected, message, silent, unexpected, unexpected_any};
use combine::parser::repeat::Sink;
use combine::parser::token::any;
use combine::stream::Stream;
use combine::stream::span::{self, SpannedError};
use std::alloc::Global;

fn changed<Input: Stream<Token = u8>>(alloc: Global)
where
    Input::Error: ParseError<u8, Input::Range, Input::Position>,
{
    let mut any = any();
    keeps_without_memory::<Input, _>(&map(any, |byte: u8| byte & 1));
    keeps_without_memory::<Input, _>(&ignore(any));
    keeps::<Input, _>(&recognize::<Vec<u8>, _>(alloc, any));
    keeps_without_memory::<Input, _>(&recognize::<Sink, _>(alloc, any));
    keeps_without_memory::<Input, _>(&ParserExt::<Input>::by_ref(&mut any));
}

/// What errors say.
fn told<Input: Stream<Token = u8>>()
where
    Input::Error: ParseError<u8, Input::Range, Input::Position>,
{
    let any = any();
    keeps_without_memory::<Input, _>(&message(any, "message"));
    keeps_without_memory::<Input, _>(&expected(any, "token"));
    keeps_without_memory::<Input, _>(&silent(any));
    keeps_without_memory::<Input, _>(&unexpected("token"));
    keeps_without_memory::<Input, _>(&unexpected_any::<_, _, u8>("token"));
}

/// An error at a span.
fn placed<Input: Stream<Token = u8>>()
where
    Input::Error: SpannedError<u8, Input::Range, Input::Position>,
{
    keeps_without_memory::<span::Stream<Input>, _>(&spanned(any()));
}
