//! The parsers that the functions of `char` return.

pub use crate::class::types::{
    AlphaNum, CrLf, Digit, HexDigit, Letter, Lower, Newline, OctDigit, Space, Spaces, Tab, Upper,
};
use crate::fits::{By, Equal};
use crate::text::TextParser;

/// The parser of [`string`](crate::char::string).
pub type Str<Input> = TextParser<Input, Equal>;

/// The parser of [`string_cmp`](crate::char::string_cmp).
pub type StrCmp<Input, C> = TextParser<Input, By<C>>;
