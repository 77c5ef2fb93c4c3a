//! Functions over any stream of bytes.

use combine::error::ParseError;
use combine::parser::Parser;
use combine::parser::choice::optional;
use combine::parser::token::token;
use combine::stream::Stream;

/// A sign, if there is one, and then `0`.
pub fn signed_zero<Input: Stream<Token = u8>>(
    input: Input,
) -> Result<((Option<u8>, u8), Input), Input::Error>
where
    Input::Error: ParseError<u8, Input::Range, Input::Position>,
{
    (optional(token(b'-')), token(b'0')).parse(input)
}
