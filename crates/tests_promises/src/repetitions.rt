//! Repetitions.

use crate::promises::{keeps, keeps_without_memory};
use combine::error::ParseError;
use combine::parser::combinator::map;
use combine::parser::repeat::{
    Sink, chainl1, count, count_min_max, escaped, many, many1, sep_by, sep_by1, sep_count_min_max,
    sep_end_by, sep_end_by1, skip_count, skip_count_min_max, skip_many, skip_many1,
};
use combine::parser::token::{any, satisfy, token};
use combine::stream::Stream;
use std::alloc::Global;

/// Values are collected, which takes memory, or dropped.
fn turns<Input: Stream<Token = u8>>(alloc: Global)
where
    Input::Error: ParseError<u8, Input::Range, Input::Position>,
{
    let a = token(b'a');
    keeps::<Input, _>(&many::<Vec<u8>, _>(alloc, a));
    keeps_without_memory::<Input, _>(&many::<Sink, _>(alloc, a));
    keeps::<Input, _>(&many1::<Vec<u8>, _>(alloc, a));
    keeps_without_memory::<Input, _>(&skip_many(a));
    keeps_without_memory::<Input, _>(&skip_many1(a));
    let plain = satisfy(|byte: u8| byte != b'\\');
    keeps_without_memory::<Input, _>(&escaped(plain, b'\\', a));
}

/// So many turns.
fn counted<Input: Stream<Token = u8>>(alloc: Global)
where
    Input::Error: ParseError<u8, Input::Range, Input::Position>,
{
    let any = any();
    keeps::<Input, _>(&count_min_max::<Vec<u8>, _>(alloc, 1, 2, any));
    keeps::<Input, _>(&count::<Vec<u8>, _>(alloc, 2, any));
    keeps_without_memory::<Input, _>(&skip_count_min_max(1, 2, any));
    keeps_without_memory::<Input, _>(&skip_count(2, any));
}

/// What stands between separators, and chains.
fn separated<Input: Stream<Token = u8>>(alloc: Global)
where
    Input::Error: ParseError<u8, Input::Range, Input::Position>,
{
    let (any, a) = (any(), token(b'a'));
    keeps::<Input, _>(&sep_count_min_max::<Vec<u8>, _, _>(alloc, 1, 2, any, a));
    keeps::<Input, _>(&sep_by::<Vec<u8>, _, _>(alloc, any, a));
    keeps::<Input, _>(&sep_by1::<Vec<u8>, _, _>(alloc, any, a));
    keeps::<Input, _>(&sep_end_by::<Vec<u8>, _, _>(alloc, any, a));
    keeps::<Input, _>(&sep_end_by1::<Vec<u8>, _, _>(alloc, any, a));
    let operator = map(a, |_: u8| |left: u8, right: u8| left ^ right);
    keeps_without_memory::<Input, _>(&chainl1(any, operator));
}
