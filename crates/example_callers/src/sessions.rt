//! A session in a loop, for input that comes bit by bit.

use combine::parser::{Answer, Parser, Session, SessionError};
use combine::stream::fed;
use std::alloc::Global;

/// The value that is accepted of these pieces, if one is; those after a decision are not asked for.
pub fn accepted<P: Parser<fed::Stream<u8>> + Drop>(
    alloc: Global,
    parser: P,
    pieces: &[&[u8]],
) -> Result<Option<P::Output>, SessionError>
    requires { P.lawful parser }
{
    let mut session = Session::new(alloc, parser);
    for piece in pieces {
        match session.feed(piece)? {
            Answer::More => {}
            Answer::Accepted { value, .. } => return Ok(Some(value)),
            Answer::Refused { .. } => return Ok(None),
        }
    }
    match session.end()? {
        Answer::Accepted { value, .. } => Ok(Some(value)),
        Answer::More | Answer::Refused { .. } => Ok(None),
    }
}
