//! Callers of the library: the README's and the guide's, word for word. Those of `attributes`, `digits` and `records` say by a clause what the bytes are that they read; their proofs, in `proofs/`, cite the library's contracts alone.
#![tactic(auto)]

pub mod attributes;
pub mod brackets;
pub mod decoded;
pub mod digits;
pub mod faults;
pub mod nest;
pub mod pieces;
pub mod records;
pub mod sessions;
pub mod slices;
pub mod streams;
pub mod trees;
pub mod words;
