//! Choices: the first alternative that isn't refused peeked gives the result; and parsers that are one of several.

pub use combine_choice::variants::{
    Dispatch3, Dispatch4, Dispatch5, Dispatch6, Dispatch7, Dispatch8,
};
pub use combine_choices::choice::{
    ChoiceOutputs, ChoiceParser, OrState, Slice, SliceState, choice, laws, optional, or,
    or_is_associative, types,
};
