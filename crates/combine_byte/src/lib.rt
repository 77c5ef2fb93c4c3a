//! Searches for bytes, and integers of bytes.
#![tactic(auto)]

pub mod absence;
pub mod byte;
pub mod bytes;
pub mod find;
pub mod laws;
pub mod num;
pub mod order;
pub mod range;
pub mod search;
pub mod whole;
