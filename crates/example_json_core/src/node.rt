//! What a document holds.

/// A part of a document.
#[derive(Debug, PartialEq, Drop)]
pub enum Node {
    Null,
    Bool(bool),
    /// A number, as it is written.
    Number(Vec<u8>),
    /// A text, without its escapes.
    Text(String),
    /// The name of the entry whose value comes next.
    Name(String),
    ArrayBegins,
    ArrayEnds,
    ObjectBegins,
    ObjectEnds,
}

/// The parts of a document, in the order in which they stand there.
///
/// It is a list and no tree, so what nests deep is let go without a recursion.
pub type Document = Vec<Node>;
