//! Repetitions: `many` and its kin, counts, elements with separators (`sep_by`, `sep_end_by`), chains, blocks up to a place (`repeat_until`), and a parser for each item of a list (`iterate`).

pub mod laws;
pub mod types;

pub use combine_repeat::counts::{count, count_min_max, skip_count, skip_count_min_max};
pub use combine_repeat::iter::Iter;
pub use combine_repeat::iterate::iterate;
pub use combine_repeat::iterate::types::{IterateState, RunningItem};
pub use combine_repeat::many::{Append, Sink, TurnsState, many, many1, skip_many, skip_many1};
pub use combine_separated::chains::types::EscapedState;
pub use combine_separated::chains::{chainl1, chainr1, escaped};
pub use combine_separated::sep_by::{sep_by, sep_by1, sep_count_min_max};
pub use combine_separated::sep_end_by::{sep_end_by, sep_end_by1};
pub use combine_separated::separated::{Folds, Lead, SeparatedState};
pub use combine_until::repeat::{
    UntilState, repeat_skip_until, repeat_until, skip_until, take_until,
};
