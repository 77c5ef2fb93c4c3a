//! JSON as RFC 8259 has it: a reader over `nested`, from bytes that stand whole or come in pieces, and a writer.
//!
//! It is what the program `example_json` stands on.
#![tactic(auto)]

mod grammar;
mod node;
mod open;
mod place;
mod reading;
mod texts;
mod writing;

pub use node::{Document, Node};
pub use reading::{JsonError, read_easily, read_pieces, read_slice, read_text};
pub use writing::write_document;
