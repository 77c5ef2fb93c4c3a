//! Parsers that always refuse, and parsers that shape what the errors of another parser say.

pub mod types;

pub use combine_error::error::{expected, message, silent};
pub use combine_error::unexpected::{unexpected, unexpected_any};
