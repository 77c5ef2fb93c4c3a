//! The parsers that the functions of `byte` return.

use crate::byte_list::BytesParser;
pub use crate::class::types::{
    AlphaNum, CrLf, Digit, HexDigit, Letter, Lower, Newline, OctDigit, Space, Spaces, Tab, Upper,
};
use crate::fits::{By, Equal};

/// The parser of [`bytes`](crate::byte::bytes).
pub type Bytes<Input> = BytesParser<Input, Equal>;

/// The parser of [`bytes_cmp`](crate::byte::bytes_cmp).
pub type BytesCmp<Input, C> = BytesParser<Input, By<C>>;
