//! Errors that people can read, and the parsers that change them.
#![tactic(auto)]

pub mod easy;
pub mod error;
pub mod span;
pub mod spanned;
pub mod unexpected;
