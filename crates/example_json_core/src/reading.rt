//! The reader: the grammar over a slice, a text, pieces, and with errors that can be read.

use crate::grammar::{blanks, step};
use crate::node::Document;
use crate::open::Open;
use combine::nested::nested;
use combine::parser::{Answer, SessionError, parse_pieces};
use combine::stream::position;
use combine::{ParseError, Parser, Stream, UnexpectedParse, between, easy, eof};
use std::alloc::Global;

/// The reason why an input is refused, and the number of bytes before that.
pub type JsonError<'a> = easy::Errors<u8, &'a [u8], usize>;

/// Reads a document from a stream.
fn read<I: Stream<Token = u8>>(alloc: Global, depth: usize, input: I) -> Result<Document, I::Error>
where
    I::Error: ParseError<u8, I::Range, I::Position>,
{
    let step = |open: &Open| step(alloc, open.place);
    let value = nested(alloc, depth, || Open::new(alloc), step);
    let (document, _rest) = between(blanks(), eof(), value).parse(input)?;
    Ok(document)
}

/// Reads a document from a slice.
///
/// # Errors
///
/// The input is refused if it isn't one value of RFC 8259, if arrays and objects nest more than `depth` deep, and if a text has half of a pair of surrogates.
pub fn read_slice(alloc: Global, depth: usize, input: &[u8]) -> Result<Document, UnexpectedParse> {
    read(alloc, depth, input)
}

/// Reads a document from a text, as [`read_slice`] does.
pub fn read_text(alloc: Global, depth: usize, text: &str) -> Result<Document, UnexpectedParse> {
    read(alloc, depth, text.as_bytes())
}

/// Reads a document from pieces, one after another.
pub fn read_pieces(
    alloc: Global,
    depth: usize,
    pieces: &[&[u8]],
) -> Result<Answer<Document, UnexpectedParse>, SessionError> {
    let step = |open: &Open| step(alloc, open.place);
    let value = nested(alloc, depth, || Open::new(alloc), step);
    parse_pieces(alloc, between(blanks(), eof(), value), pieces)
}

/// Reads a document from a slice, with readable errors.
pub fn read_easily<'a>(
    alloc: Global,
    depth: usize,
    input: &'a [u8],
) -> Result<Document, JsonError<'a>> {
    read(
        alloc,
        depth,
        easy::Stream::new(alloc, position::Stream::new(input)),
    )
}
