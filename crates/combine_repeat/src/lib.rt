//! Repetitions: turns of a parser, whose values are collected or dropped, counts, and parsers as iterators.
#![tactic(auto)]

pub mod bounds;
pub mod counts;
pub mod each;
pub mod iter;
pub mod iterate;
pub mod many;
pub mod turns;
