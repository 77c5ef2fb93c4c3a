//! The parsers that the functions of `error` return.

pub use combine_error::error::types::{Expected, Message, Silent};
pub use combine_error::unexpected::types::Unexpected;
