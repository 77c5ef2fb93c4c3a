//! Parsers of tokens.

use crate::promises::keeps_without_memory;
use combine::error::ParseError;
use combine::parser::byte::{byte, digit, spaces};
use combine::parser::token::{any, eof, position, produce, satisfy, satisfy_map, token, value};
use combine::stream::Stream;

/// One token, or none.
fn single<Input: Stream<Token = u8>>()
where
    Input::Error: ParseError<u8, Input::Range, Input::Position>,
{
    keeps_without_memory::<Input, _>(&any());
    keeps_without_memory::<Input, _>(&satisfy(|byte: u8| byte.is_ascii_digit()));
    keeps_without_memory::<Input, _>(&satisfy_map(|byte: u8| Some(byte & 15)));
    keeps_without_memory::<Input, _>(&token(b'a'));
    keeps_without_memory::<Input, _>(&value(1));
    keeps_without_memory::<Input, _>(&produce(|| 1));
    keeps_without_memory::<Input, _>(&position());
    keeps_without_memory::<Input, _>(&eof());
}

/// Classes of bytes, and blanks.
fn classes<Input: Stream<Token = u8>>()
where
    Input::Error: ParseError<u8, Input::Range, Input::Position>,
{
    keeps_without_memory::<Input, _>(&byte(b'a'));
    keeps_without_memory::<Input, _>(&digit());
    keeps_without_memory::<Input, _>(&spaces());
}
