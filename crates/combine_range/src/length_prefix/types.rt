//! The parser that the function of `range` returns.

pub use super::prefix::{AsLength, Taking};
use combine_combinator::combinator::types::NoPartial;
use combine_function::combinator::Changed;
use combine_sequence::sequence::types::Answered;

/// The parser of [`length_prefix`](crate::length_prefix::length_prefix), with the stream's ranges as `R`.
///
/// It is no type of its own, but one that is composed of others.
pub type LengthPrefix<Input, P, R> = NoPartial<
    Answered<Changed<P, AsLength, usize>, Taking<Input>, R>,
>;
