//! Repetitions up to a place: the blocks before the first place where a parser `end` isn't refused peeked.
//!
//! If `end` is accepted there, its tokens are put back, and the result is accepted, committed exactly if a block or `end` was. Every other result of `end` there, or of the parser of the blocks, is the result: a refusal keeps its kind, also after committed blocks, with the tokens of the blocks taken or not. The crate loses the kind.
//!
//! On need of more the stream is put back to where the parser began, but nothing begins again. The state keeps the distance that was read, in tokens, how much of it stands before the place where the running part began, the blocks so far, and the state of that part. The next call passes over the distance and goes on. The crate puts back the tokens of `end` alone.
//!
//! Faults are those of the parsers, `Reset` if the stream can't be put back, `Read` if the distance can't be read again, `Lost` if the input is shorter than a kept distance, and `Memory` if the collection can't grow.
//!
//! The values are collected in any `F: Append`, for which the constructors take an allocator first; the crate takes `F: Extend + Default`, and no allocator. The skipping forms drop the values, and take no memory of their own, but for that of an error's items.
ghost use Rattle.std.specs.Prelude.{◌≡◌};
ghost use Rattle.combine_until.specs.UntilParsers.{repeat_skip_until_of, repeat_until_of, skip_until_of, take_until_of};

pub mod laws;
pub mod types;

use crate::next::Next;
pub use crate::until::UntilState;
use combine_combinator::combinator::ignore;
use combine_token::token::any;
use std::alloc::Global;
use std::marker::PhantomData;
use types::{
    BlocksUntil, Mute, RepeatUntil, SkipBlocksUntil, SkipRepeatUntil, SkipUntil, TakeUntil,
};

/// Takes blocks of `parser` up to the first place where `end` isn't refused peeked, and collects their values in order.
///
/// The tokens of `end` are put back. The acceptance is committed exactly if a block or `end` was.
///
/// # Errors
///
/// - Every other result of `end` there, or of `parser`, is the result. A refusal of `parser` has its error alone, with nothing of that of `end`; where it is peeked, it says what was expected there.
/// - A block that takes nothing is refused, committed, with the message `repetition takes nothing`, at the position where it began.
/// - Faults are those of the parsers, `Reset`, `Read` and `Lost` of the stream, and `Memory` if the collection can't grow.
///
/// What is added to an error is what `parser` adds.
///
/// # Partial input
///
/// On need of more the stream is put back to where the parser began, but nothing begins again: the next call passes over what was read, and goes on.
///
/// # Differences from combine
///
/// The crate puts back the tokens of `end` alone, and loses the kind of a refusal over a cut. It adds nothing to an error.
///
/// # Examples
///
/// ```
/// fn letters(alloc: Global, input: &[u8]) -> Result<(Vec<u8>, &[u8]), UnexpectedParse> {
///     let letter = satisfy(|byte: u8| byte.is_ascii_lowercase());
///     repeat_until::<Vec<u8>, _, _, _>(alloc, letter, token(b';')).parse(input)
/// }
/// ```
///
/// On `b"ab;"` it returns `(b"ab", b";")`.
#[inline]
pub fn repeat_until<F, A, P, E>(alloc: Global, parser: P, end: E) -> RepeatUntil<F, A, P, E>
    ensures { result ≡ repeat_until_of alloc parser end }
{
    BlocksUntil {
        alloc,
        turn: Next::new(parser, Mute::new(end)),
        collects: PhantomData,
    }
}

/// Takes blocks as `repeat_until` does, and drops the values.
///
/// It takes no memory of its own, but for that of an error's items.
#[inline]
pub fn repeat_skip_until<A, P, E>(parser: P, end: E) -> SkipRepeatUntil<A, P, E>
    ensures { result ≡ repeat_skip_until_of parser end }
{
    ignore(SkipBlocksUntil {
        turn: Next::new(parser, Mute::new(end)),
    })
}

/// Takes the tokens before the first place where `end` isn't refused peeked, and collects them in order.
///
/// The tokens of `end` are put back. The acceptance is committed exactly if a token was taken, or `end` was committed.
///
/// # Errors
///
/// - If the input ends first it is refused peeked. The error stands at that end, which it says is unexpected, and has nothing of that of `end` but what `end` expects.
/// - Every other result of `end` is the result.
/// - Faults are those of `end`, `Reset`, `Read` and `Lost` of the stream, and `Memory` if the collection can't grow.
///
/// What is added to an error is what `end` adds.
///
/// # Partial input
///
/// On need of more the stream is put back to where the parser began, but nothing begins again: the next call passes over what was read, and goes on.
///
/// # Differences from combine
///
/// The crate puts back the tokens of `end` alone, and loses the kind of a refusal over a cut. It adds nothing to an error.
///
/// # Examples
///
/// ```
/// fn comment(alloc: Global, input: &[u8]) -> Result<(Vec<u8>, &[u8]), UnexpectedParse> {
///     take_until::<Vec<u8>, _, _, _>(alloc, attempt((token(b'-'), token(b'>')))).parse(input)
/// }
/// ```
///
/// On `b"a-b->"` it returns `(b"a-b", b"->")`.
#[inline]
pub fn take_until<F, Input, T, E>(alloc: Global, end: E) -> TakeUntil<F, Input, T, E>
    ensures { result ≡ take_until_of alloc end }
{
    BlocksUntil {
        alloc,
        turn: Next::new(any(), end),
        collects: PhantomData,
    }
}

/// Takes tokens as `take_until` does, and drops them.
///
/// It takes no memory of its own, but for that of an error's items.
#[inline]
pub fn skip_until<Input, T, E>(end: E) -> SkipUntil<Input, T, E>
    ensures { result ≡ skip_until_of end }
{
    ignore(SkipBlocksUntil {
        turn: Next::new(any(), end),
    })
}
