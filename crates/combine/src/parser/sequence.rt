//! Parsers one after another: tuples of one to eight, those of whose values one is kept, and those that a function returns. `struct_parser!` stands at the root.

pub use combine_base::sequence::{
    PartialState1, PartialState2, PartialState3, PartialState4, PartialState5, PartialState6,
    PartialState7, PartialState8, SequenceState,
};
pub use combine_sequence::sequence::{
    between, laws, skip, then, then_partial, then_ref, types, with,
};
