//! The parsers that the functions of `byte` return.

pub use combine_byte::byte::types::{
    TakeUntilByte, TakeUntilByte2, TakeUntilByte3, TakeUntilBytes,
};
pub use combine_char::byte::types::{
    AlphaNum, Bytes, BytesCmp, CrLf, Digit, HexDigit, Letter, Lower, Newline, OctDigit, Space,
    Spaces, Tab, Upper,
};
