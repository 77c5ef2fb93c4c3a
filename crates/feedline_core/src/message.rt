//! What a message says.

/// A message that was read.
#[derive(Debug, Drop, PartialEq)]
pub enum Message {
    /// `WORD=DIGITS;`
    Set { word: Vec<u8>, digits: Vec<u8> },
    /// `del WORD;`
    Delete { word: Vec<u8> },
}
