//! What parsers of ranges mean beside one another, and that slices and texts are compared by their tokens alone, by which `range` and `take_until_range` have one outcome; and of which functions `take_fn` has one.

pub use combine_byte::laws::{stable_has_one_outcome, stable_means_what_it_answers};
pub use combine_range::laws::{
    recognize_gives_what_was_taken, slices_are_fair, slices_begin, slices_fail, tested_is_first,
    texts_are_fair, texts_begin, texts_fail,
};
pub use combine_range::length_laws::{
    length_prefix_has_one_outcome, length_prefix_is_a_length_and_its_items, length_prefix_refuses,
};
