//! Ranges of the input, and ranges behind their length.
#![tactic(auto)]

pub mod distance;
pub mod kept_distance;
pub mod laws;
pub mod length_laws;
pub mod length_prefix;
pub mod places;
pub mod range;
