//! Streams over slices and texts: positions that are counted, ranges, streams that may go on, and streams that fail.
#![tactic(auto)]

mod faulty;
mod partial;
pub mod position;
pub mod range;

pub use faulty::{Faulty, Unfailing};
pub use partial::MaybePartialStream;
