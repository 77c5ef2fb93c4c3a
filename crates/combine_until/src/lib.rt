//! Repetitions up to a place.
#![tactic(auto)]

mod mute;
mod next;
pub mod repeat;
pub mod until;
