//! Parsers that change the value of their part, or refuse it.
ghost use Rattle.std.specs.Prelude.{◌≡◌, true, false, MatchResult};
ghost use Rattle.std.specs.Char.{is_ascii_digit};

use crate::promises::keeps_without_memory;
use combine::error::{ParseError, UnexpectedParse};
use combine::parser::combinator::{and_then, flat_map, from_str, map_input};
use combine::parser::token::{any, value};
use combine::stream::{Kind, Stream, fed};

/// The digit that a byte is.
fn digit_of(byte: u8) -> Result<u8, UnexpectedParse>
    ensures { MatchResult result (λ _. is_ascii_digit byte ≡ true) (λ e. (is_ascii_digit byte ≡ false) × (e.0 ≡ Kind.Refused)) }
{
    if byte.is_ascii_digit() {
        Ok(byte - b'0')
    } else {
        Err(UnexpectedParse(Kind::Refused))
    }
}

/// Changed or refused.
fn judged() {
    keeps_without_memory::<fed::Stream<u8>, _>(&and_then(any(), digit_of));
    keeps_without_memory::<fed::Stream<u8>, _>(&flat_map(any(), digit_of));
}

/// Twice the byte; the stream is left in place.
fn doubled<Input>(byte: u8, _input: &mut Input) -> u16
    ensures { _input.new ≡ _input.old }
{
    u16::from(byte) * 2
}

/// Changed where the stream stands.
fn seen<Input: Stream<Token = u8>>()
where
    Input::Error: ParseError<u8, Input::Range, Input::Position>,
{
    keeps_without_memory::<Input, _>(&map_input(any(), doubled));
}

/// Read from a text.
fn read<Input: Stream<Token = u8>>()
where
    Input::Error: ParseError<u8, Input::Range, Input::Position>,
{
    keeps_without_memory::<Input, _>(&from_str::<_, u8>(value("12")));
}
