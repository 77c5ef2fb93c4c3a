//! Parsers that change the value of another parser, keep a part of it or refuse it, put its refusals back, look ahead, collect its tokens or set the span of its errors; parsers that a maker returns; and `Either`.

pub mod types;

pub use combine_choice::variants::Either;
pub use combine_combinator::combinator::{
    TryState, attempt, ignore, laws, look_ahead, map, no_partial, not_followed_by,
};
pub use combine_combinator::lazy::types::MadeState;
pub use combine_combinator::lazy::{factory, lazy};
pub use combine_combinator::lazy_laws::make_and_parse;
pub use combine_combinator::recognize::recognize;
pub use combine_combinator::recognize::types::RecognizeState;
pub use combine_error::spanned::spanned;
pub use combine_function::combinator::{StrLike, and_then, flat_map, from_str, map_input};
