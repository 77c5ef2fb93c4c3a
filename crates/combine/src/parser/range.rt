//! Parsers of ranges: parts of the input, as they stand there.

pub mod laws;
pub mod types;

pub use combine_byte::range::{TakeRange, take_fn};
pub use combine_range::distance::Distance;
pub use combine_range::length_prefix::length_prefix;
pub use combine_range::range::{
    RecognizeState, range, recognize, recognize_with_value, take, take_until_range, take_while,
    take_while1,
};
