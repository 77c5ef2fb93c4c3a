//! Repetitions with a separator or an operator between the turns, chains, and texts with escapes.
#![tactic(auto)]

pub mod chains;
pub mod elements;
pub mod ended;
pub mod operands;
pub mod pair;
pub mod sep_by;
pub mod sep_end_by;
pub mod separated;
