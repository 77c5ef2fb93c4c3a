//! Messages of pieces, decoded as one input.
ghost use Rattle.std.specs.Prelude.{◌≡◌, ◌++◌, map, MatchResult};
ghost use Rattle.combine_decode.specs.Messages.{IsMade, made_reading};
ghost use Rattle.combine_decode.specs.DecodedPieces.{DecodesPieces, FeedsMore};

use crate::decode::{Batch, BatchEnd, DecodeError, Decoder};
use combine_base::function::Maker;
use combine_base::parser::Parser;
use combine_base::stream::{Kind, fed};
use std::alloc::{AllocError, Global};

/// Decodes the pieces as one input. Our own.
///
/// The maker must always be callable, and each parser that it returns must be lawful. However the input is cut, the messages are those of all of it, in order, and so is their end. A refusal counts at most the tokens after the last message. If there are no pieces, it is the end of the messages of nothing. Pieces after an end other than `More` are not looked at.
///
/// # Errors
///
/// An error gives no message, also none of those that pieces before it completed.
///
/// - `TooLong` if a message and the piece that goes on with it are more than 2^64 - 1 tokens.
/// - `Memory` if a piece finds no room.
/// - `Fault`, of kind `Memory`, if a growth is refused later: a parser's, or that of a list of messages.
///
/// `Closed` and `Failed` never come.
///
/// # Partial input
///
/// The end of the pieces is open, and no message is judged by it: one that isn't complete there is left, and the end is `More`.
///
/// # Examples
///
/// ```
/// fn all_words(alloc: Global, pieces: &[&[u8]]) -> Result<Batch<Vec<u8>>, DecodeError> {
///     let word = move || {
///         let letters = many1::<Vec<u8>, _>(alloc, satisfy(|byte: u8| byte.is_ascii_lowercase()));
///         skip(letters, token(b';'))
///     };
///     decode_pieces(alloc, word, pieces)
/// }
/// ```
///
/// Of the pieces `b"a;b"` and `b"c;d"` the messages are `b"a"` and `b"bc"`, and the end is `More`.
pub fn decode_pieces<
    F: Maker<Output = P> + Drop,
    P: Parser<fed::Stream<T>> + Drop,
    T: Copy + 'static,
>(alloc: Global, maker: F, pieces: &[&[T]]) -> Result<Batch<P::Output>, DecodeError>
    requires callable { F.callable maker }
    requires lawful { IsMade (F.returns maker) P.lawful }
    ensures { DecodesPieces (made_reading P.meaning (F.returns maker)) (map (λ p. p.now) pieces.now) result }
{
    let mut decoder = Decoder::new(alloc, maker);
    let mut messages = Vec::new(alloc);
    'pieces: for piece in pieces {
        match feed_more(&mut decoder, piece, &mut messages) {
            Ok(end) => match end {
                BatchEnd::More => {}
                end => return Ok(Batch { messages, end }),
            },
            Err(error) => return Err(error),
        }
    }
    // If there are no pieces, nothing was parsed yet.
    match feed_more(&mut decoder, &[], &mut messages) {
        Ok(end) => Ok(Batch { messages, end }),
        Err(error) => Err(error),
    }
}

/// Feeds a piece, puts its messages after those before, and returns why there are no more.
fn feed_more<F: Maker<Output = P>, P: Parser<fed::Stream<T>> + Drop, T: Copy + 'static>(
    decoder: &mut Decoder<F, P, T>,
    piece: &[T],
    messages: &mut Vec<P::Output>,
) -> Result<BatchEnd, DecodeError>
    requires callable { F.callable decoder.old.maker }
    requires lawful { IsMade (F.returns decoder.old.maker) P.lawful }
    ensures { FeedsMore F.returns P.meaning decoder.old decoder.new piece.now messages.old.items messages.new.items result }
{
    match decoder.feed(piece) {
        Ok(batch) => {
            let Batch {
                messages: more,
                end,
            } = batch;
            match append(messages, more) {
                Ok(()) => Ok(end),
                Err(_) => Err(DecodeError::Fault(Kind::Memory)),
            }
        }
        Err(error) => Err(error),
    }
}

/// Puts messages after those before.
fn append<V: Drop>(messages: &mut Vec<V>, more: Vec<V>) -> Result<(), AllocError>
    ensures { MatchResult result (λ _. messages.new.items ≡ messages.old.items ++ more.items) (λ _. Unit {0}) }
{
    'more: for message in more {
        messages.push(message)?;
    }
    Ok(())
}
