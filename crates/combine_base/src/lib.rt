//! The base of the parser combinators: streams, errors, the parser protocol and its drivers, collections and tuples.
//!
//! A stream is seen as a view: a position, the unread tokens, and a mark, open or ended. A parser's meaning is a relation between a view and an outcome, from the start and from each kept state. The contract of `Parser::parse_mode` says all that is known of a call.
#![tactic(auto)]

pub mod distance;
pub mod error;
pub mod function;
pub mod parser;
pub mod refusal;
pub mod repeat;
pub mod sequence;
pub mod stream;
