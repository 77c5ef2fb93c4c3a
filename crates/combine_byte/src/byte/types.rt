//! The parsers that the functions of `byte` return. Their state is the distance that need not be searched again.

use crate::bytes::{ByteOf, FindBytes, Needle};
use crate::find::{One, Three, Two};
use crate::search::Searching;

/// The parser of [`take_until_byte`](crate::byte::take_until_byte).
pub type TakeUntilByte<Input> = Searching<Input, FindBytes<ByteOf<One>>>;

/// The parser of [`take_until_byte2`](crate::byte::take_until_byte2).
pub type TakeUntilByte2<Input> = Searching<Input, FindBytes<ByteOf<Two>>>;

/// The parser of [`take_until_byte3`](crate::byte::take_until_byte3).
pub type TakeUntilByte3<Input> = Searching<Input, FindBytes<ByteOf<Three>>>;

/// The parser of [`take_until_bytes`](crate::byte::take_until_bytes).
pub type TakeUntilBytes<'a, Input> = Searching<Input, FindBytes<Needle<'a>>>;
