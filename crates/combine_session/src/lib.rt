//! The drivers of input that comes in pieces: sessions, which are fed piece by piece, and whole inputs, cut into windows.
#![tactic(auto)]

pub mod cuts;
pub mod session;
