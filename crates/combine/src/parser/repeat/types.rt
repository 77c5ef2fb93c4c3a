//! The parsers that the functions of `repeat` return.

pub use combine_repeat::counts::Repeat;
pub use combine_repeat::counts::types::{Count, CountMinMax, SkipCount, SkipCountMinMax};
pub use combine_repeat::iterate::types::Iterate;
pub use combine_repeat::many::types::{Many, Many1, SkipMany, SkipMany1};
pub use combine_separated::chains::types::{Chainl1, Chainr1, Escaped};
pub use combine_separated::sep_by::SepRepeat;
pub use combine_separated::sep_by::types::{SepBy, SepBy1, SepCountMinMax};
pub use combine_separated::sep_end_by::SepEndRepeat;
pub use combine_separated::sep_end_by::types::{SepEndBy, SepEndBy1};
pub use combine_until::repeat::types::{RepeatUntil, SkipRepeatUntil, SkipUntil, TakeUntil};
