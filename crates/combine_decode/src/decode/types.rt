//! The parser that the function of `decode` returns.

pub use super::framing::Framing;
use combine_byte::num::types::BeU16;
use combine_sequence::sequence::types::Answered;

/// The parser of [`frame`](crate::decode::frame).
///
/// It is no type of its own, but one that is composed of others.
pub type Frame<Input> = Answered<BeU16<Input>, Framing<Input>, Vec<u8>>;
