//! Readers of files as their users write them: configuration, comma-separated values, and a log.
#![tactic(auto)]

pub mod csv;
pub mod ini;
pub mod log;
