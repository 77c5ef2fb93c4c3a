//! Messages of an input in pieces.
ghost use Rattle.combine_decode.specs.Messages.{IsMade};

use combine::Maker;
use combine::decode::{Batch, BatchEnd, DecodeError, Decoder, decode_pieces};
use combine::parser::Parser;
use combine::parser::byte::lower;
use combine::parser::repeat::many1;
use combine::parser::sequence::skip;
use combine::parser::token::token;
use combine::stream::fed;
use std::alloc::{AllocError, Global};

/// Decodes words, each with `;` after it.
pub fn all_words(alloc: Global, pieces: &[&[u8]]) -> Result<Batch<Vec<u8>>, DecodeError> {
    let word = move || skip(many1::<Vec<u8>, _>(alloc, lower()), token(b';'));
    decode_pieces(alloc, word, pieces)
}

/// What a decoder gave for a piece, and whether its messages then covered all tokens.
#[derive(Debug, Drop, PartialEq)]
pub struct Answered<V> {
    pub answer: Result<Batch<V>, DecodeError>,
    pub at_boundary: bool,
}

pub type Answers<V> = Result<Vec<Answered<V>>, AllocError>;

/// Feeds a decoder these pieces, and returns what it gave for each.
pub fn answers<F: Maker<Output = P> + Drop, P: Parser<fed::Stream<u8>> + Drop>(
    alloc: Global,
    maker: F,
    pieces: &[&[u8]],
) -> Answers<P::Output>
    requires callable { F.callable maker }
    requires lawful { IsMade (F.returns maker) P.lawful }
{
    let mut answers = Vec::new(alloc);
    let mut decoder = Decoder::new(alloc, maker);
    'pieces: for piece in pieces {
        let answer = decoder.feed(piece);
        let at_boundary = decoder.at_boundary();
        answers.push(Answered {
            answer,
            at_boundary,
        })?;
    }
    Ok(answers)
}

/// Counts the messages of a peer that may never end one: where more than `most` bytes come after the last message, that is `TooLong`.
pub fn count_messages<F: Maker<Output = P> + Drop, P: Parser<fed::Stream<u8>> + Drop>(
    alloc: Global,
    maker: F,
    pieces: &[&[u8]],
    most: usize,
) -> Result<usize, DecodeError>
    requires callable { F.callable maker }
    requires lawful { IsMade (F.returns maker) P.lawful }
{
    let mut count = 0usize;
    let mut decoder = Decoder::with_limit(alloc, maker, most);
    'pieces: for piece in pieces {
        let batch = decoder.feed(piece)?;
        count = count.saturating_add(batch.messages.len());
        if batch.end != BatchEnd::More {
            break;
        }
    }
    Ok(count)
}
