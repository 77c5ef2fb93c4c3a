//! Decodes an input piece by piece, and writes the lines of its messages.
ghost use Rattle.std.specs.Prelude.{◌≡◌, ◌^◌, ◌<◌, ◌&&◌, ◌⊎◌, Ok, MatchResult, length, map, nat_eq};
ghost use Rattle.std.specs.Io.KnownBytes.{Appends};
ghost use Rattle.combine_session.specs.Pieces.{concatenated};
ghost use Rattle.combine_decode.specs.Decoders.{Decodes};
ghost use Rattle.combine_decode.specs.Frames.{frame_of};
ghost use Rattle.combine_decode.specs.Messages.{IsMade, made_reading};
ghost use Rattle.feedline_core.specs.DecodedLines.{DecodesInput, HasRoom, IsRefusedGrowth, WritesBatch};
ghost use Rattle.feedline_core.specs.Frames as frames;
ghost use Rattle.feedline_core.specs.Lines.{end_line};

use crate::fault::Fault;
use crate::lines::{write_end, write_messages};
use crate::pieces::cut;
use combine_base::function::Maker;
use combine_base::parser::Parser;
use combine_base::stream::{Kind, fed};
use combine_decode::decode::{Batch, BatchEnd, DecodeError, Decoder, frame};
use std::alloc::Global;
use std::io::Write;

/// Reads the frames of an input that is fed in pieces of these sizes, and then the rest as one piece: a frame is a length in two bytes, the highest first, and as many bytes, which are the message.
///
/// It writes a line `message N` for each message, with N its length, and after it, if N isn't 0, a blank and its bytes as two lowercase hexadecimal digits each. The last line is `complete` if no byte stands after the last message, else `incomplete`; it answers whether it is `complete`.
///
/// # Errors
///
/// `Memory` where a growth was refused and `Write` where a write failed; of what the writer then holds nothing is said.
pub fn run_frames<W: Write>(
    alloc: Global,
    sizes: &[u32],
    input: &[u8],
    out: &mut W,
) -> Result<bool, Fault>
    ensures { DecodesInput frames.frame input.now (W.contents out.old) (W.contents out.new) result }
{
    let pieces = cut(alloc, sizes, input)?;
    let maker = move ||
        ensures { result ≡ frame_of alloc }
    { frame(alloc) };
    decode(alloc, maker, &pieces, out)
}

/// Decodes the pieces as one input, writes a line for each message and one for what stands after the last, and answers whether nothing does. Pieces after an end other than `More` are not fed.
fn decode<
    F: Maker<Output = P> + Drop,
    P: Parser<fed::Stream<u8>, Output = Vec<u8>> + Drop,
    W: Write,
>(alloc: Global, maker: F, pieces: &[&[u8]], out: &mut W) -> Result<bool, Fault>
    requires callable { F.callable maker }
    requires lawful { IsMade (F.returns maker) P.lawful }
    requires fits { length (concatenated (map (λ p. p.now) pieces.now)) < 2 ^ 64 }
    ensures { DecodesInput (made_reading P.meaning (F.returns maker)) (concatenated (map (λ p. p.now) pieces.now)) (W.contents out.old) (W.contents out.new) result }
{
    let mut decoder = Decoder::new(alloc, maker);
    'pieces: for (index, piece) in pieces.iter().enumerate() {
        match decode_piece(&mut decoder, piece, out)? {
            BatchEnd::More => {}
            _ => return write_last(out, decoder.at_boundary(), &pieces[index + 1..]),
        }
    }
    // Where there are no pieces, nothing was parsed yet.
    decode_piece(&mut decoder, &[], out)?;
    write_last(out, decoder.at_boundary(), &[])
}

/// Feeds a piece, writes the lines of the messages that it completes, and answers why there are no more.
fn decode_piece<
    F: Maker<Output = P>,
    P: Parser<fed::Stream<u8>, Output = Vec<u8>> + Drop,
    W: Write,
>(decoder: &mut Decoder<F, P, u8>, piece: &[u8], out: &mut W) -> Result<BatchEnd, Fault>
    requires callable { F.callable decoder.old.maker }
    requires lawful { IsMade (F.returns decoder.old.maker) P.lawful }
    requires room { HasRoom F.returns P.meaning decoder.old piece.now }
    ensures { MatchResult result
        (λ end. WritesBatch F.returns P.meaning decoder.old decoder.new piece.now (W.contents out.old) (W.contents out.new) end)
        (λ why. (why ≡ Fault.Memory) ⊎ (why ≡ Fault.Write)) }
{
    let batch = feed(decoder, piece)?;
    write_messages(out, &batch.messages)?;
    Ok(batch.end)
}

/// Feeds a piece to a decoder that may go on and can count it.
fn feed<F: Maker<Output = P>, P: Parser<fed::Stream<u8>, Output = Vec<u8>> + Drop>(
    decoder: &mut Decoder<F, P, u8>,
    piece: &[u8],
) -> Result<Batch<Vec<u8>>, Fault>
    requires callable { F.callable decoder.old.maker }
    requires lawful { IsMade (F.returns decoder.old.maker) P.lawful }
    requires room { HasRoom F.returns P.meaning decoder.old piece.now }
    ensures { MatchResult result
        (λ batch. Decodes F.returns P.meaning decoder.old decoder.new piece.now (Ok batch))
        (λ why. why ≡ Fault.Memory) }
{
    match decoder.feed(piece) {
        Ok(batch) => Ok(batch),
        Err(error) => Err(out_of_memory(error)),
    }
}

/// The fault for the one error that a decoder has which may go on and can count the piece: a growth was refused.
fn out_of_memory(error: DecodeError) -> Fault
    requires { IsRefusedGrowth error }
    ensures { result ≡ Fault.Memory }
{
    match error {
        DecodeError::Memory | DecodeError::Fault(Kind::Memory) => Fault::Memory,
        DecodeError::Fault(_) | DecodeError::TooLong | DecodeError::Closed | DecodeError::Failed =>
            unreachable!(),
    }
}

/// Writes the last line, and answers whether it is `complete`: no byte stands after the messages of what was fed, nor in the rest.
fn write_last<W: Write>(out: &mut W, at_boundary: bool, rest: &[&[u8]]) -> Result<bool, Fault>
    ensures { MatchResult result
        (λ complete. (complete ≡ (at_boundary && nat_eq (length (concatenated (map (λ p. p.now) rest.now))) 0)) × Appends (W.contents out.old) (W.contents out.new) (end_line complete))
        (λ why. why ≡ Fault.Write) }
{
    let complete = at_boundary && are_empty(rest);
    write_end(out, complete)?;
    Ok(complete)
}

/// Whether these pieces have no byte.
fn are_empty(pieces: &[&[u8]]) -> bool
    ensures { result ≡ nat_eq (length (concatenated (map (λ p. p.now) pieces.now))) 0 }
{
    'pieces: for piece in pieces {
        if !piece.is_empty() {
            return false;
        }
    }
    true
}
