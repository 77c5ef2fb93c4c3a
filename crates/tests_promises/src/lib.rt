//! What a caller can cite of each constructor: that it has one outcome, leaves nothing unread on need of more or puts all back, and takes no memory. Nothing here is run: each function is proved, and that is all it is for.
#![tactic(auto)]

pub mod called;
pub mod changed;
pub mod choices;
pub mod decoding;
pub mod lists;
pub mod made;
pub mod nesting;
pub mod own_types;
pub mod partial;
pub mod promises;
pub mod put_back;
pub mod ranges;
pub mod repetitions;
pub mod sequences;
pub mod tokens;
pub mod values;
