//! Parsers of characters (`char`) and of bytes (`byte`).
//!
//! All classes share one parser, `class::types::ClassParser`: a class is a type of no size with its set, its test and its text. Lists are matched by `text` (characters) and `byte_list` (bytes), over a comparison of `fits`. `named` gives a parser one text, and `pair` takes a pair as a whole.
#![tactic(auto)]

pub mod byte;
pub mod byte_list;
pub mod char;
pub mod class;
pub mod fits;
pub mod named;
pub mod pair;
pub mod text;
pub mod texts;
