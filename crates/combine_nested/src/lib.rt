//! Grammars that nest, with their frames in memory, and expressions of operators.
#![tactic(auto)]

pub mod expression;
pub mod nested;
