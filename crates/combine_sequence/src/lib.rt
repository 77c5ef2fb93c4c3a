//! Parsers one after another: of their values one is kept, or a struct is made, or the second is what a function makes for the value of the first.
#![tactic(auto)]

pub mod sequence;
