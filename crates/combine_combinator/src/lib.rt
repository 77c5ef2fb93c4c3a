//! Parsers made of one parser.
#![tactic(auto)]

mod collecting;
pub mod combinator;
pub mod lazy;
pub mod lazy_laws;
pub mod recognize;
