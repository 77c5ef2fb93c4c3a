//! Slices and fed streams never fail to read or to be put back, so no call over them answers a fault of the stream.
ghost use Rattle.combine_base.specs.Parser.Faults.{NoStreamFaultIn};

use combine::error::UnexpectedParse;
use combine::parser::Parser;
use combine::parser::choice::or;
use combine::parser::token::token;
use combine::stream::fed;

/// `a` or `b` at the beginning of a slice.
pub fn of_a_slice(input: &[u8]) -> Result<(u8, &[u8]), UnexpectedParse>
    ensures { NoStreamFaultIn (λ e. e.0) result }
{
    or(token(b'a'), token(b'b')).parse(input)
}

/// `a` next in a stream that is fed.
pub fn of_a_fed_stream(stream: &mut fed::Stream<u8>) -> Result<u8, UnexpectedParse>
    ensures { NoStreamFaultIn (λ e. e.0) result }
{
    token(b'a').parse_with_state(stream, &mut ())
}
