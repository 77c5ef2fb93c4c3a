//! The integers of a grammar.

use combine::error::{Info, StreamError};

/// Returns the integer that digits say, perhaps after a `-`: what `and_then` asks of a function.
///
/// # Errors
///
/// What is no `i64` is refused, with the message that it is too large.
pub fn parse_integer<R, E: StreamError<char, R>>(digits: String) -> Result<i64, E> {
    match digits.as_str().parse::<i64>() {
        Ok(number) => Ok(number),
        Err(_error) => Err(E::message(Info::Static("number too large"))),
    }
}
