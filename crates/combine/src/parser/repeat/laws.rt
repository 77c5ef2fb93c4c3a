//! What repetitions mean, and what they mean beside one another.

pub use combine_repeat::counts::laws::{
    count_min_max_is_turns, skip_count_min_max_is_count_min_max_dropped,
    skip_count_min_max_is_turns,
};
pub use combine_repeat::many::laws::{
    many_is_turns, many1_is_once_then_turns, many1_is_turns, skip_many_is_many_dropped,
    skip_many_is_turns, skip_many1_is_many1_dropped, skip_many1_is_turns,
};
pub use combine_separated::chains::laws::{
    chainl1_is_left_fold, chainr1_is_right_fold, escaped_is_blocks,
};
pub use combine_separated::sep_by::laws::{
    sep_by_is_turns, sep_by1_is_one_then_turns, sep_by1_is_turns, sep_count_min_max_is_turns,
};
pub use combine_separated::sep_end_by::laws::{sep_end_by_is_turns, sep_end_by1_is_turns};
pub use combine_until::repeat::laws::repeat_skip_until_is_repeat_until_dropped;
