//! Parsers made of a caller's function.
#![tactic(auto)]

pub mod combinator;
pub mod function;
