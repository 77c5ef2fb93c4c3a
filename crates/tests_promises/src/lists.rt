//! Parsers of lists of tokens.
ghost use Rattle.std.specs.Prelude.{◌≡◌, nat_eq};

use crate::promises::{keeps_and_asks, keeps_without_memory};
use combine::error::ParseError;
use combine::parser::byte::{ShowsBytes, bytes, bytes_cmp};
use combine::parser::char::{string, string_cmp};
use combine::parser::token::{none_of, one_of, tokens, tokens_cmp};
use combine::stream::Stream;

/// One token of a list, or one that isn't.
fn among<Input: Stream<Token = u8>>()
where
    Input::Error: ParseError<u8, Input::Range, Input::Position>,
{
    keeps_without_memory::<Input, _>(&one_of([b'a', b'b']));
    keeps_without_memory::<Input, _>(&none_of([b'a', b'b']));
}

/// The tokens of a list, one after another.
fn one_by_one<Input: Stream<Token = u8>>(input: &mut Input)
where
    Input::Error: ParseError<u8, Input::Range, Input::Position>,
{
    let equal = |wanted: u8, byte: u8| -> bool
        ensures { result ≡ nat_eq wanted byte }
    { wanted == byte };
    keeps_and_asks(input, tokens(equal, "ab", [b'a', b'b']));
    keeps_and_asks(input, tokens_cmp([b'a', b'b'], equal));
}

/// The bytes of a list, and as they are compared.
fn of_bytes<Input: Stream<Token = u8>>(input: &mut Input)
where
    Input::Range: ShowsBytes,
    Input::Error: ParseError<u8, Input::Range, Input::Position>,
{
    let equal = |wanted: u8, byte: u8| wanted == byte;
    keeps_and_asks(input, bytes(b"ab"));
    keeps_and_asks(input, bytes_cmp(b"ab", equal));
}

/// The characters of a text, and as they are compared.
fn of_characters<Input: Stream<Token = char>>()
where
    Input::Error: ParseError<char, Input::Range, Input::Position>,
{
    let equal = |wanted: char, character: char| wanted == character;
    keeps_without_memory::<Input, _>(&string("ab"));
    keeps_without_memory::<Input, _>(&string_cmp("ab", equal));
}
