//! Parsers of single tokens and of token lists, values that take none, and choices among parsers.
#![tactic(auto)]

pub mod token;
