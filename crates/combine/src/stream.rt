//! Streams: what parsers read. A slice and a text are streams, `fed::Stream` is fed piece by piece, `position::Stream` counts its position, that of `span::Stream` is where an error begins and ends, `easy::Stream` has errors that keep items, a `MaybePartialStream` may go on, and of a `Faulty` a read or a reset fails.

pub use combine_base::stream::{
    Failures, Kind, Left, Positioned, ResetStream, Stream, StreamOnce, asks_for_more, ends_open,
    fed, has_taken, needs_more,
};
pub use combine_byte::bytes::ByteStream;
pub use combine_error::{easy, span};
pub use combine_stream::range::{ByteRange, Range, RangeStream};
pub use combine_stream::{Faulty, MaybePartialStream, Unfailing, position};
