//! Parser combinators that are proved: the parser layer of combine, for Rattle.
//!
//! The names that the crate has at its root stand there too: `use combine::{Parser, many1, sep_by, token}`. All else stands under its module names:
//!
//! - Streams in `stream`, results and errors in `error`, errors that people can read in `easy`.
//! - The protocol, its drivers and sessions in `parser`, and decoders of messages in `decode`.
//! - Grammars that nest in `nested`, and expressions of operators in `expression`.
//! - The constructors in `parser::{token, char, byte, range, choice, sequence, combinator, repeat, function, error}`.
//!
//! `ParserExt` has the method forms. `struct_parser!` makes a struct of the values of several parsers, `choice!` is the choice of as many as are wanted, and `dispatch!` the parser that a value names.
#![tactic(auto)]

mod methods;
pub mod parser;
pub mod stream;

pub use combine_base::error;
pub use combine_base::error::{ParseError, ParseResult, StdParseResult, UnexpectedParse};
pub use combine_base::function::{Compare, Function, Lent, Maker, MutFunction, RefFunction};
pub use combine_choice::{choice, dispatch};
pub use combine_choices::choice::choice;
pub use combine_decode::decode;
pub use combine_nested::{expression, nested};
pub use combine_sequence::struct_parser;
pub use methods::ParserExt;
pub use parser::choice::optional;
pub use parser::combinator::{attempt, look_ahead, not_followed_by};
pub use parser::error::{unexpected, unexpected_any};
pub use parser::repeat::{
    chainl1, chainr1, count, count_min_max, many, many1, sep_by, sep_by1, sep_end_by, sep_end_by1,
    skip_count, skip_count_min_max, skip_many, skip_many1,
};
pub use parser::sequence::between;
pub use parser::token::{
    any, eof, none_of, one_of, position, produce, satisfy, satisfy_map, token, tokens, tokens_cmp,
    value,
};
pub use parser::{EasyParser, Parser};
pub use stream::{Positioned, RangeStream, Stream, StreamOnce, easy};
