//! Choices among the parsers of a tuple, an array or a slice.
#![tactic(auto)]

pub mod choice;
