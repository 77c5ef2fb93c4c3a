//! Parsers that put all back on need of more.

use crate::promises::{puts_back, puts_back_without_memory};
use combine::error::ParseError;
use combine::parser::byte::crlf;
use combine::parser::byte::num::be_u16;
use combine::parser::combinator::{attempt, look_ahead, map, no_partial, not_followed_by};
use combine::parser::repeat::{chainr1, repeat_skip_until, repeat_until, skip_until, take_until};
use combine::parser::token::{any, token};
use combine::stream::Stream;
use std::alloc::Global;

/// What a part reads is put back.
fn wrapped<Input: Stream<Token = u8>>()
where
    Input::Error: ParseError<u8, Input::Range, Input::Position>,
{
    let any = any();
    puts_back_without_memory::<Input, _>(&attempt((any, any)));
    puts_back_without_memory::<Input, _>(&look_ahead((any, any)));
    puts_back_without_memory::<Input, _>(&not_followed_by((any, any)));
    puts_back_without_memory::<Input, _>(&no_partial((any, any)));
    puts_back_without_memory::<Input, _>(&be_u16());
    puts_back_without_memory::<Input, _>(&crlf());
}

/// What stands before a place.
fn up_to_a_place<Input: Stream<Token = u8>>(alloc: Global)
where
    Input::Error: ParseError<u8, Input::Range, Input::Position>,
{
    let (any, a) = (any(), token(b'a'));
    puts_back_without_memory::<Input, _>(&skip_until(a));
    puts_back_without_memory::<Input, _>(&repeat_skip_until(any, a));
    puts_back::<Input, _>(&take_until::<Vec<u8>, _, _, _>(alloc, a));
    puts_back::<Input, _>(&repeat_until::<Vec<u8>, _, _, _>(alloc, any, a));
}

/// A chain that is folded from the right.
fn chained<Input: Stream<Token = u8>>(alloc: Global)
where
    Input::Error: ParseError<u8, Input::Range, Input::Position>,
{
    let operator = map(token(b'^'), |_: u8| |left: u8, right: u8| left ^ right);
    puts_back::<Input, _>(&chainr1(alloc, any(), operator));
}
