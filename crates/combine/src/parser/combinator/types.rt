//! The parsers that the functions of `combinator` return.

pub use combine_combinator::combinator::types::{
    Ignore, LookAhead, Map, NoPartial, NotFollowedBy, Nothing, Pick, Picked, Try,
};
pub use combine_combinator::lazy::types::{Factory, Lazy, Made};
pub use combine_combinator::recognize::types::{Collected, Recognize};
pub use combine_error::spanned::types::Spanned;
pub use combine_function::combinator::types::{AndThen, FlatMap, FromStr, MapInput};
