//! Feeds an input piece by piece, and writes the lines.
ghost use Rattle.std.specs.Prelude.{◌≡◌, ◌≢◌, ◌+◌, ◌^◌, ◌<◌, ◌⊎◌, [], true, false, None, MatchResult, length, map};
ghost use Rattle.std.specs.Char.{is_ascii_digit, is_ascii_lowercase};
ghost use Rattle.feedline_core.specs.OnInput.{RunsOnInput};
ghost use Rattle.feedline_core.specs.Messages.{message, delete_after, or_set};
ghost use Rattle.combine_session.specs.Pieces.{concatenated};
ghost use Rattle.combine_session.specs.Sessions.{BeginsSession, Feeds, EndsSession, admits};
ghost use Rattle.combine_session.specs.declared.session.Stage.TheVariants as stages;
ghost use Rattle.std.specs.Io.KnownBytes.{Appends};
ghost use Rattle.feedline_core.specs.Runs.{RunsPieces, IsWantOfMemory, answer_line, answer_accepts};

use crate::fault::Fault;
use crate::lines::{write_accepted, write_more, write_refused};
use crate::message::Message;
use crate::pieces::cut;
use combine_base::error::UnexpectedParse;
use combine_base::parser::{Answer, Parser};
use combine_base::stream::{Kind, fed};
use combine_choice::or::or;
use combine_combinator::combinator::{attempt, map};
use combine_repeat::many::many1;
use combine_session::session::{Session, SessionError};
use combine_token::token::{satisfy, token};
use std::alloc::Global;
use std::io::Write;

/// Reads the message of an input that is fed in pieces of these sizes, and then the rest as one piece: `del WORD;` or `WORD=DIGITS;`, where `WORD` is one or more of `a` to `z` and `DIGITS` one or more of `0` to `9`.
///
/// It stops at the first decision. It writes a line `more N` for each piece that needs more, with N bytes unread, and then the line of the decision; it answers whether that accepts.
///
/// # Errors
///
/// `Memory` where a growth was refused and `Write` where a write failed; of what the writer then holds nothing is said.
pub fn run<W: Write>(alloc: Global, sizes: &[u32], input: &[u8], out: &mut W) -> Result<bool, Fault>
    ensures ran { RunsOnInput message.whole message.rest None sizes.now input.now (W.contents out.old) (W.contents out.new) result }
    ensures unlimited { MatchResult result (λ _. Unit {0}) (λ why. why ≢ Fault.TooLong) }
{
    run_limited(alloc, sizes, None, input, out)
}

/// Reads the message of an input as `run` does; with a limit, at most that many of its bytes are ever unread.
///
/// # Errors
///
/// `TooLong` where a piece and the bytes that are unread before it are more than the limit: what is written then are the lines of the pieces before. Else as `run`.
pub fn run_limited<W: Write>(
    alloc: Global,
    sizes: &[u32],
    limit: Option<usize>,
    input: &[u8],
    out: &mut W,
) -> Result<bool, Fault>
    ensures { RunsOnInput message.whole message.rest limit sizes.now input.now (W.contents out.old) (W.contents out.new) result }
{
    let pieces = cut(alloc, sizes, input)?;
    let del = attempt((token(b'd'), token(b'e'), token(b'l'), token(b' ')));
    drive_after(alloc, del, limit, &pieces, out)
}

/// Drives the parser of messages in which `del` reads what stands before a word that is deleted.
///
/// It stands apart, over any `del`, since a parser that is composed in one function takes the prover minutes; and so does `drive_or_set`.
fn drive_after<D: Parser<fed::Stream<u8>, Output = (u8, u8, u8, u8)> + Drop, W: Write>(
    alloc: Global,
    del: D,
    limit: Option<usize>,
    pieces: &[&[u8]],
    out: &mut W,
) -> Result<bool, Fault>
    requires lawful { D.lawful del }
    requires fits { length (concatenated (map (λ p. p.now) pieces.now)) < 2 ^ 64 }
    ensures { RunsPieces (or_set (delete_after (D.meaning del))).whole (or_set (delete_after (D.meaning del))).rest limit (map (λ p. p.now) pieces.now) (W.contents out.old) (W.contents out.new) result }
{
    let delete = map(
        (del, many1(alloc, satisfy(is_letter)), token(b';')),
        made_delete,
    );
    drive_or_set(alloc, delete, limit, pieces, out)
}

/// Drives the choice of the messages that `delete` reads and those that set.
fn drive_or_set<A: Parser<fed::Stream<u8>, Output = Message> + Drop, W: Write>(
    alloc: Global,
    delete: A,
    limit: Option<usize>,
    pieces: &[&[u8]],
    out: &mut W,
) -> Result<bool, Fault>
    requires lawful { A.lawful delete }
    requires fits { length (concatenated (map (λ p. p.now) pieces.now)) < 2 ^ 64 }
    ensures { RunsPieces (or_set (A.meaning delete)).whole (or_set (A.meaning delete)).rest limit (map (λ p. p.now) pieces.now) (W.contents out.old) (W.contents out.new) result }
{
    let set = map(
        (
            many1(alloc, satisfy(is_letter)),
            token(b'='),
            many1(alloc, satisfy(is_decimal)),
            token(b';'),
        ),
        made_set,
    );
    drive(alloc, or(delete, set), limit, pieces, out)
}

fn is_letter(byte: u8) -> bool
    ensures { result ≡ is_ascii_lowercase byte }
{
    byte.is_ascii_lowercase()
}

fn is_decimal(byte: u8) -> bool
    ensures { result ≡ is_ascii_digit byte }
{
    byte.is_ascii_digit()
}

fn made_delete(parts: ((u8, u8, u8, u8), Vec<u8>, u8)) -> Message
    ensures { result ≡ Message.Delete parts.1 }
{
    let (_del, word, _end) = parts;
    Message::Delete { word }
}

fn made_set(parts: (Vec<u8>, u8, Vec<u8>, u8)) -> Message
    ensures { result ≡ Message.Set parts.0 parts.2 }
{
    let (word, _equals, digits, _end) = parts;
    Message::Set { word, digits }
}

/// Feeds the pieces and then the end until there is a decision, and writes a line for each piece that needs more and one for the decision. Answers whether that accepts.
pub(crate) fn drive<P: Parser<fed::Stream<u8>, Output = Message> + Drop, W: Write>(
    alloc: Global,
    parser: P,
    limit: Option<usize>,
    pieces: &[&[u8]],
    out: &mut W,
) -> Result<bool, Fault>
    requires lawful { P.lawful parser }
    requires fits { length (concatenated (map (λ p. p.now) pieces.now)) < 2 ^ 64 }
    ensures { RunsPieces (P.meaning parser).whole (P.meaning parser).rest limit (map (λ p. p.now) pieces.now) (W.contents out.old) (W.contents out.new) result }
{
    let mut session = begin(alloc, parser, limit);
    'pieces: for piece in pieces {
        match feed(&mut session, piece)? {
            Answer::More => write_more(out, session.unread().len())?,
            answer => return write_decision(out, &answer),
        }
    }
    let answer = end(&mut session)?;
    write_decision(out, &answer)
}

/// Begins a session, with the limit if there is one.
fn begin<P: Parser<fed::Stream<u8>>>(
    alloc: Global,
    parser: P,
    limit: Option<usize>,
) -> Session<P, u8>
    requires { P.lawful parser }
    ensures { BeginsSession P.meaning P.valid P.determined limit parser result }
{
    match limit {
        None => Session::new(alloc, parser),
        Some(most) => Session::with_limit(alloc, parser, most),
    }
}

/// Feeds a piece to a session that still runs and can count it.
fn feed<P: Parser<fed::Stream<u8>>>(
    session: &mut Session<P, u8>,
    piece: &[u8],
) -> Result<Answer<P::Output, UnexpectedParse>, Fault>
    requires running { session.old.stage ≡ stages.Running }
    requires fits { session.old.seen.position + length session.old.seen.unread + length piece.now < 2 ^ 64 }
    ensures { MatchResult result
        (λ answer. Feeds P.meaning P.valid session.old session.new piece.now true (Ok answer))
        (λ why. (why ≡ Fault.Memory) ⊎ ((why ≡ Fault.TooLong) × (admits session.old.limit (length session.old.seen.unread + length piece.now) ≡ false))) }
{
    match session.feed(piece) {
        Ok(answer) => Ok(answer),
        Err(SessionError::TooLong) => Err(Fault::TooLong),
        Err(error) => Err(out_of_memory(error)),
    }
}

/// Says to a session that still runs that the input has ended.
fn end<P: Parser<fed::Stream<u8>>>(
    session: &mut Session<P, u8>,
) -> Result<Answer<P::Output, UnexpectedParse>, Fault>
    requires running { session.old.stage ≡ stages.Running }
    ensures { MatchResult result
        (λ answer. EndsSession P.meaning P.valid session.old session.new [] false (Ok answer))
        (λ why. why ≡ Fault.Memory) }
{
    match session.end() {
        Ok(answer) => Ok(answer),
        Err(error) => Err(out_of_memory(error)),
    }
}

/// The fault for the one other error that a session has which still runs: a growth was refused.
fn out_of_memory(error: SessionError) -> Fault
    requires { IsWantOfMemory error }
    ensures { result ≡ Fault.Memory }
{
    match error {
        SessionError::Memory | SessionError::Fault(Kind::Memory) => Fault::Memory,
        SessionError::Fault(_)
        | SessionError::TooLong
        | SessionError::Closed
        | SessionError::Failed => unreachable!(),
    }
}

/// Writes the line of a decision, and answers whether it accepts.
fn write_decision<W: Write>(
    out: &mut W,
    answer: &Answer<Message, UnexpectedParse>,
) -> Result<bool, Fault>
    ensures { MatchResult result
        (λ accepted. (accepted ≡ answer_accepts answer.now) × Appends (W.contents out.old) (W.contents out.new) (answer_line answer.now))
        (λ why. why ≡ Fault.Write) }
{
    match answer {
        Answer::Accepted { value, taken, .. } => {
            write_accepted(out, value, *taken)?;
            Ok(true)
        }
        Answer::Refused { committed, .. } => {
            write_refused(out, *committed)?;
            Ok(false)
        }
        Answer::More => Ok(false),
    }
}
