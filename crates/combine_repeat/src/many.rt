//! Repetitions: a parser runs turn after turn, until it is refused peeked.
//!
//! The values are collected in any `F: Append<P::Output>`, for which the constructors take an allocator first; the crate takes `F: Extend + Default`, and no allocator. The skipping forms drop the values.
//!
//! A turn that takes nothing is refused, committed, with the message `repetition takes nothing`, at the position where it began; in the crate such a parser may hang. A turn that took its tokens in an earlier piece counts as one that takes them.
//!
//! A collection that can't grow gives the committed fault `Memory`, and a stream that can't be put back the committed fault `Reset`, each at the position where the turn began. The faults of the parser are passed on.
//!
//! On need of more the state keeps what is collected, whether a turn committed, which the crate forgets, and the turn that runs.
//!
//! What is added to an error, and how many parsers are counted, is as for the parser, but the skipping forms count as 1.
//!
//! Which error a refusal has is exact: that of a turn that is refused committed, that of a first turn that is asked for, as it is, or the message of a turn that takes nothing, at the place where it was begun or resumed. A turn's own error is one that the parser refuses with.
ghost use Rattle.std.specs.Prelude.{◌≡◌};
ghost use Rattle.combine_repeat.specs.ManyParsers.{many_of, many1_of, skip_many_of, skip_many1_of};

pub mod laws;
pub mod types;

use crate::bounds::{FirstThenMore, ZeroOrMore};
use crate::counts::Repeat;
use crate::each::{Dropped, Each};
pub use crate::turns::TurnsState;
pub use combine_base::repeat::{Append, Sink};
use std::alloc::Global;
use types::{Many, Many1, SkipMany, SkipMany1};

/// Runs turns of `parser` until it is refused peeked, and collects their values in order.
///
/// That refusal ends the turns: the stream is put back to where that turn began, and the result is accepted, committed exactly if there was a turn before.
///
/// # Errors
///
/// - A committed refusal of a turn is the result.
/// - A turn that takes nothing is refused, committed, with the message `repetition takes nothing`.
/// - A collection that can't grow is the committed fault `Memory`, and a stream that can't be put back `Reset`.
///
/// # Partial input
///
/// On need of more the state keeps what is collected, whether a turn committed, and the turn that runs.
///
/// # Differences from combine
///
/// - The values are collected in any `Append`, for which an allocator comes first. The crate takes `Extend + Default`.
/// - If a turn takes nothing the crate goes round for ever.
/// - Over a cut the crate forgets that a turn committed.
///
/// # Examples
///
/// ```
/// fn letters(alloc: Global, input: &[u8]) -> Result<(Vec<u8>, &[u8]), UnexpectedParse> {
///     many::<Vec<u8>, _>(alloc, satisfy(|byte: u8| byte.is_ascii_lowercase())).parse(input)
/// }
/// ```
///
/// On `b"dex=1"` it returns `(b"dex", b"=1")`, and on `b"=1"` `(b"", b"=1")`.
#[inline]
pub fn many<F, P>(alloc: Global, parser: P) -> Many<F, P>
    ensures { result ≡ many_of alloc parser }
{
    Repeat::new(Each::new(alloc), parser, ZeroOrMore)
}

/// Runs `parser` once, and then turns of it until it is refused peeked, and collects all values in order.
///
/// The first turn counts also where it takes nothing. The acceptance is committed exactly if a turn was.
///
/// # Errors
///
/// The refusal of the first turn, committed or peeked, is the result. From then on they are those of `many`.
///
/// # Partial input
///
/// On need of more the state keeps what is collected, whether a turn committed, and the turn that runs.
///
/// # Differences from combine
///
/// They are those of `many`, but that the crate too remembers over a cut that the first turn committed.
///
/// # Examples
///
/// ```
/// fn word(alloc: Global, input: &[u8]) -> Result<(Vec<u8>, &[u8]), UnexpectedParse> {
///     many1::<Vec<u8>, _>(alloc, satisfy(|byte: u8| byte.is_ascii_lowercase())).parse(input)
/// }
/// ```
///
/// On `b"dex=1"` it returns `(b"dex", b"=1")`; `b"=1"` is refused peeked.
#[inline]
pub fn many1<F, P>(alloc: Global, parser: P) -> Many1<F, P>
    ensures { result ≡ many1_of alloc parser }
{
    Repeat::new(Each::new(alloc), parser, FirstThenMore::<1>)
}

/// Runs turns as `many` does, and drops the values.
///
/// It takes no memory of its own, but for that of an error's message.
///
/// # Examples
///
/// ```
/// fn after_blanks(input: &[u8]) -> Result<(u8, &[u8]), UnexpectedParse> {
///     with(skip_many(token(b' ')), any()).parse(input)
/// }
/// ```
///
/// On `b"  ab"` it returns `(b'a', b"b")`.
#[inline]
pub fn skip_many<P>(parser: P) -> SkipMany<P>
    ensures { result ≡ skip_many_of parser }
{
    Repeat::new(Dropped, parser, ZeroOrMore)
}

/// Runs turns as `many1` does, and drops the values.
///
/// It takes no memory of its own, but for that of an error's message.
#[inline]
pub fn skip_many1<P>(parser: P) -> SkipMany1<P>
    ensures { result ≡ skip_many1_of parser }
{
    Repeat::new(Dropped, parser, FirstThenMore::<1>)
}
