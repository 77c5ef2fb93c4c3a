//! A decoder of messages, one after another.
ghost use Rattle.std.specs.Prelude.{◌≡◌, ◌+◌, ◌^◌, ◌<◌, ◌≤◌, [], true, length, nat_eq, None, MatchResult};
ghost use Rattle.combine_decode.specs.Frames.{frame_of};
ghost use Rattle.combine_decode.specs.Messages.{After, Drains, IsMade, AnswersMessage, made_reading};
ghost use Rattle.combine_base.specs.declared.stream.Kind.TheVariants as kinds;
ghost use Rattle.combine_decode.specs.declared.decode.DecodeError.TheVariants as errors;

mod framing;
pub mod laws;
mod pieces;
pub mod types;

use combine_base::error::UnexpectedParse;
use combine_base::function::Maker;
use combine_base::parser::{Answer, Parser};
use combine_base::stream::{Kind, fed};
use combine_byte::num::be_u16;
use combine_sequence::sequence::types::Answered;
use combine_session::session::{Session, SessionError};
use framing::Framing;
pub use pieces::decode_pieces;
use std::alloc::Global;
use std::marker::Model;
use types::Frame;

/// Why no more messages are given.
#[derive(Clone, Copy, Debug, PartialEq, Eq)]
pub enum BatchEnd {
    /// More input is needed.
    More,
    /// The next message is refused. The tokens of the messages before it, and `taken` more, stand before that place.
    Refused {
        /// How many tokens had been taken, from the beginning of the message, where it was refused.
        taken: u64,
        /// Set if it is committed.
        committed: bool,
    },
    /// The next message takes nothing.
    EmptyMessage,
}

/// The messages that a piece completes, in order, and why there are no more.
#[derive(Debug, Drop, PartialEq)]
pub struct Batch<V> {
    /// The messages, in order.
    pub messages: Vec<V>,
    /// Why there are no more.
    pub end: BatchEnd,
}

/// Why a decoder gives no messages.
#[derive(Clone, Copy, Debug, PartialEq, Eq)]
pub enum DecodeError {
    /// The piece found no room. Nothing has changed.
    Memory,
    /// The tokens after the last message and the piece would be more than the limit. Nothing has changed.
    TooLong,
    /// A fault inside the decoding.
    Fault(Kind),
    /// The messages have ended.
    Closed,
    /// A fault came before.
    Failed,
}

/// How far a decoder has come.
#[derive(Clone, Copy, Debug, PartialEq, Eq)]
pub enum Phase {
    /// It may be fed.
    Running,
    /// The messages have ended.
    Closed,
    /// A fault came.
    Failed,
}

/// A decoder of messages that stand one after another in tokens which are fed piece by piece.
///
/// It keeps what is unread, and what its parser has collected, however long a message grows. Against a peer that never ends one, `with_limit` bounds how many tokens it may have.
///
/// # Examples
///
/// ```
/// fn second_batch<F: Maker<Output = P> + Drop, P: Parser<fed::Stream<u8>> + Drop>(
///     alloc: Global,
///     maker: F,
///     first: &[u8],
///     second: &[u8],
/// ) -> Result<Batch<P::Output>, DecodeError>
///     requires callable { F.callable maker }
///     requires lawful { IsMade (F.returns maker) P.lawful }
/// {
///     let mut decoder = Decoder::new(alloc, maker);
///     decoder.feed(first)?;
///     decoder.feed(second)
/// }
/// ```
///
/// With `|| frame(alloc)`, and the pieces `b"\0\x02a"` and `b"b"`, the second batch has the message `b"ab"`.
#[derive(Drop)]
pub struct Decoder<F: Maker<Output = P>, P: Parser<fed::Stream<T>>, T: Copy + 'static> {
    alloc: Global,
    maker: F,
    session: Session<P, T>,
    phase: Phase,
    // how many tokens stand after the last message
    waiting: usize,
    // how many of them there may be, with a piece
    limit: usize,
}

impl<F: Maker<Output = P>, P: Parser<fed::Stream<T>>, T: Copy + 'static> Model
    for Decoder<F, P, T> {
    ghost use Rattle.combine_decode.specs.Decoders.{Decoding};

    ghost Value = { Decoding F P T P.PartialState };

    ghost view = { λ d. record { maker = d.maker; course = d.session; phase = d.phase; waiting = d.waiting; limit = d.limit } };
}

impl<F: Maker<Output = P>, P: Parser<fed::Stream<T>>, T: Copy + 'static> Decoder<F, P, T> {
    ghost use Rattle.combine_decode.specs.Decoders.{Decodes, DecoderGoesOn};

    /// Returns a decoder that was fed nothing yet, of messages that the maker's parsers read.
    ///
    /// The maker must always be callable, and each parser that it returns must be lawful. It is called here, and then after each message.
    ///
    /// # Errors
    ///
    /// None: a decoder takes no memory by itself, but where pieces are fed.
    ///
    /// # Partial input
    ///
    /// Nothing is parsed yet, not even what is empty: the first result comes with the first piece.
    ///
    /// A message may have as many tokens as can be counted, which are 2^64 - 1; `with_limit` sets another limit.
    pub fn new(alloc: Global, maker: F) -> Self
        requires callable { F.callable maker }
        requires lawful { IsMade (F.returns maker) P.lawful }
        ensures maker { result.maker ≡ maker }
        ensures limit { result.limit + 1 ≡ 2 ^ 64 }
        ensures stands { DecoderGoesOn F.returns P.meaning [] result }
    {
        Self::with_limit(alloc, maker, usize::MAX)
    }

    /// Returns a decoder as `new` does, after whose last message at most `limit` tokens ever stand: those of the message that isn't complete yet, whether its parser has taken them or not.
    ///
    /// A piece is `TooLong` where it and those before it are more, whatever it holds, so a peer that never ends a message can't fill memory. Make it at least the longest message and the longest piece together.
    ///
    /// # Examples
    ///
    /// ```
    /// fn second_is_too_long<F: Maker<Output = P> + Drop, P: Parser<fed::Stream<u8>> + Drop>(
    ///     alloc: Global,
    ///     maker: F,
    ///     first: &[u8],
    ///     second: &[u8],
    /// ) -> Result<bool, DecodeError>
    ///     requires callable { F.callable maker }
    ///     requires lawful { IsMade (F.returns maker) P.lawful }
    /// {
    ///     let mut decoder = Decoder::with_limit(alloc, maker, 4);
    ///     let _batch = decoder.feed(first)?;
    ///     Ok(matches!(decoder.feed(second), Err(DecodeError::TooLong)))
    /// }
    /// ```
    ///
    /// With `|| frame(alloc)`, and the pieces `b"\0\x03a"` and `b"b"`, it returns `Ok(false)`; with `b"bc"` as the second, `Ok(true)`.
    pub fn with_limit(alloc: Global, maker: F, limit: usize) -> Self
        requires callable { F.callable maker }
        requires lawful { IsMade (F.returns maker) P.lawful }
        ensures maker { result.maker ≡ maker }
        ensures limit { result.limit ≡ limit }
        ensures stands { DecoderGoesOn F.returns P.meaning [] result }
    {
        let session = begin(alloc, &maker);
        Decoder {
            alloc,
            maker,
            session,
            phase: Phase::Running,
            waiting: 0,
            limit,
        }
    }

    /// Returns whether the messages so far cover all tokens so far: nothing was fed yet, or the last message ended with the last token.
    ///
    /// A `feed` that returns an error leaves it as it was.
    pub fn at_boundary(&self) -> bool
        ensures { result ≡ nat_eq self.now.waiting 0 }
    {
        self.waiting == 0
    }
}

impl<F: Maker<Output = P>, P: Parser<fed::Stream<T>> + Drop, T: Copy + 'static> Decoder<F, P, T> {
    ghost use Rattle.combine_decode.specs.Decoders.{Decodes, DecoderGoesOn};

    /// Feeds a piece, which may be empty, and returns all messages that it completes.
    ///
    /// The messages given so far are those of all tokens so far, in order, and no others. Each begins where the last one ended: what stands after it, also nothing, goes to the next, which may be refused there, or end all by taking nothing.
    ///
    /// # Errors
    ///
    /// An error gives no message, and the piece isn't counted as fed.
    ///
    /// - `Closed` after an end other than `More`, and `Failed` after a fault: each time, and nothing changes.
    /// - `TooLong` if the tokens after the last message and the piece are more than the limit. A shorter piece may follow.
    /// - `Memory` if the piece finds no room. This and those before come before any parsing, in this order, and change nothing: the piece may be fed again.
    /// - `Fault`, of kind `Memory`, if a growth is refused later: the parser's, on this message or on one after it, or that of the list of messages. The messages that the piece completed are let go, and `Failed` follows always.
    ///
    /// # Partial input
    ///
    /// The end is `More` exactly where the next message is undecided on the tokens after the last one, open. It goes on with the next piece from where it stopped, and what its parser put back is read again then.
    ///
    /// Each message is given with the piece that decides it. However the tokens are cut, there are as many messages, and the same end but for how many tokens a refusal counts, where the maker's parsers share one meaning that has one outcome.
    pub fn feed(&mut self, piece: &[T]) -> Result<Batch<P::Output>, DecodeError>
        requires callable { F.callable self.old.maker }
        requires lawful { IsMade (F.returns self.old.maker) P.lawful }
        ensures { Decodes F.returns P.meaning self.old self.new piece.now result }
    {
        self.phase.check()?;
        let mut waiting = admit(self.waiting, piece.len(), self.limit)?;
        let answer = match self.session.feed(piece) {
            Ok(answer) => answer,
            Err(SessionError::Memory) => return Err(DecodeError::Memory),
            Err(SessionError::TooLong) => return Err(DecodeError::TooLong),
            Err(_) => {
                self.phase = Phase::Failed;
                return Err(DecodeError::Fault(Kind::Memory));
            }
        };
        match drain(
            self.alloc,
            &self.maker,
            &mut self.session,
            answer,
            &mut waiting,
        ) {
            Ok(batch) => {
                self.waiting = waiting;
                self.phase = batch.end.phase();
                Ok(batch)
            }
            Err(kind) => {
                self.phase = Phase::Failed;
                Err(DecodeError::Fault(kind))
            }
        }
    }
}

impl Phase {
    ghost use Rattle.combine_decode.specs.Decoders.{checked_phase};

    /// Refuses where a decoder may not go on.
    fn check(self) -> Result<(), DecodeError>
        ensures { result ≡ checked_phase self }
    {
        match self {
            Phase::Running => Ok(()),
            Phase::Closed => Err(DecodeError::Closed),
            Phase::Failed => Err(DecodeError::Failed),
        }
    }
}

/// Returns how many tokens wait with these more, unless that is more than the limit.
fn admit(waiting: usize, more: usize, limit: usize) -> Result<usize, DecodeError>
    ensures { MatchResult result (λ all. (all ≡ waiting + more) × (all ≤ limit)) (λ e. (e ≡ errors.TooLong) × (limit < waiting + more)) }
{
    match waiting.checked_add(more) {
        Some(all) if all <= limit => Ok(all),
        _ => Err(DecodeError::TooLong),
    }
}

impl BatchEnd {
    ghost use Rattle.combine_decode.specs.Decoders.{phase_after};

    /// Returns how far a decoder is after it.
    fn phase(self) -> Phase
        ensures { result ≡ phase_after self }
    {
        match self {
            BatchEnd::More => Phase::Running,
            BatchEnd::Refused { .. } | BatchEnd::EmptyMessage => Phase::Closed,
        }
    }
}

/// Takes a message after its length, a number of two bytes, the highest first: the bytes of the message are the value. Our own.
///
/// It is `be_u16`, and then that many bytes by `count_min_max` of `any`. Room is had as bytes come: a length takes room for no more than 1,024 of them at once.
///
/// # Errors
///
/// Ended input that is too short is refused: peeked within the length, committed after it. Nothing else is refused. A growth that is refused is a fault of kind `Memory`.
///
/// # Partial input
///
/// On need of more the length is kept, and so are the bytes after it; the first byte of a length alone is put back.
#[inline]
pub fn frame<Input>(alloc: Global) -> Frame<Input>
    ensures { result ≡ frame_of alloc }
{
    Answered::new(be_u16(), Framing::new(alloc))
}

/// Starts a session of a parser that the maker returns.
fn begin<F: Maker<Output = P>, P: Parser<fed::Stream<T>>, T: Copy + 'static>(
    alloc: Global,
    maker: &F,
) -> Session<P, T>
    requires callable { F.callable maker.now }
    requires lawful { IsMade (F.returns maker.now) P.lawful }
    ensures { After (made_reading P.meaning (F.returns maker.now)) P.meaning [] result × (result.limit ≡ None) }
{
    Session::new(alloc, maker.make())
}

/// Begins the next message on what the last one left unread.
fn begin_next<F: Maker<Output = P>, P: Parser<fed::Stream<T>> + Drop, T: Copy + 'static>(
    maker: &F,
    session: &mut Session<P, T>,
) -> Result<Answer<P::Output, UnexpectedParse>, Kind>
    requires callable { F.callable maker.now }
    requires lawful { IsMade (F.returns maker.now) P.lawful }
    requires is_open { session.old.seen.is_open ≡ true }
    ensures { MatchResult result (λ a. AnswersMessage (made_reading P.meaning (F.returns maker.now)) P.meaning session.old.seen.unread session.new a × (session.new.limit ≡ session.old.limit)) (λ k. k ≡ kinds.Memory) }
{
    match session.begin_again(maker.make()) {
        Ok(answer) => Ok(answer),
        Err(_) => Err(Kind::Memory),
    }
}

/// Returns the messages that follow a result of the session.
fn drain<F: Maker<Output = P>, P: Parser<fed::Stream<T>> + Drop, T: Copy + 'static>(
    alloc: Global,
    maker: &F,
    session: &mut Session<P, T>,
    first: Answer<P::Output, UnexpectedParse>,
    waiting: &mut usize,
) -> Result<Batch<P::Output>, Kind>
    requires callable { F.callable maker.now }
    requires lawful { IsMade (F.returns maker.now) P.lawful }
    requires is_open { session.old.seen.is_open ≡ true }
    ensures { (tokens : _) → AnswersMessage (made_reading P.meaning (F.returns maker.now)) P.meaning tokens session.old first → waiting.old ≡ length tokens → Drains (made_reading P.meaning (F.returns maker.now)) P.meaning tokens session.old session.new waiting.new result }
{
    let mut messages = Vec::new(alloc);
    let mut answer = first;
    let mut behind = *waiting;
    'messages: loop {
        match answer {
            Answer::More => {
                *waiting = behind;
                return Ok(Batch {
                    messages,
                    end: BatchEnd::More,
                });
            }
            Answer::Refused {
                taken,
                committed,
                ..
            } => {
                *waiting = behind;
                return Ok(Batch {
                    messages,
                    end: BatchEnd::Refused { taken, committed },
                });
            }
            Answer::Accepted { value, taken, .. } => {
                if taken == 0 {
                    *waiting = behind;
                    return Ok(Batch {
                        messages,
                        end: BatchEnd::EmptyMessage,
                    });
                }
                if messages.push(value).is_err() {
                    return Err(Kind::Memory);
                }
                behind = session.unread().len();
                answer = begin_next(maker, session)?;
            }
        }
    }
}
