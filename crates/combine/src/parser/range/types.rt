//! The parsers that the functions of `range` return.

pub use combine_byte::range::types::TakeFn;
pub use combine_range::length_prefix::types::{AsLength, LengthPrefix, Taking};
pub use combine_range::range::types::{
    Range, Recognize, RecognizeWithValue, Take, TakeUntilRange, TakeWhile, TakeWhile1,
};
