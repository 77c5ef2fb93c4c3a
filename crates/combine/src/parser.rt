//! The protocol of parsers, and their constructors by module.

pub mod byte;
pub mod choice;
pub mod combinator;
pub mod error;
pub mod range;
pub mod repeat;
pub mod sequence;

pub use combine_base::parser::{
    Answer, Calls, FirstMode, Outputs, ParseMode, Parser, PartialMode, judge,
};
pub use combine_char::char;
pub use combine_error::easy::EasyParser;
pub use combine_function::function;
pub use combine_session::cuts::{cuts_fit, parse_cuts};
pub use combine_session::session::{Session, SessionError, parse_pieces};
pub use combine_token::token;
