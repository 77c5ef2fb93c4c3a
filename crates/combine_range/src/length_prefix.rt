//! A length, and then that many items.
ghost use Rattle.std.specs.Prelude.{◌≡◌};
ghost use Rattle.combine_range.specs.LengthParsers.{length_prefix_of};

mod prefix;
pub mod types;

use combine_combinator::combinator::no_partial;
use combine_function::combinator::Changed;
use combine_sequence::sequence::types::Answered;
use prefix::{AsLength, Taking};
use std::marker::PhantomData;
use types::LengthPrefix;

/// Takes a range of as many items as the value of `p` says, after what `p` takes: tokens of a slice, or bytes of a text.
///
/// It is committed if `p` is, or if the range isn't empty. It counts as one parser.
///
/// # Errors
///
/// - What `p` refuses is refused alike.
/// - A value that is no `usize` is refused with the message `length out of range`, by an error that stands at the position before `p`. The tokens of `p` are taken.
/// - Too few items of ended input are refused with the stream put back to after `p`, and so is an end inside a character, as soon as that many bytes stand there. The error stands there too, says of too few items that the input ended, and then which token is left.
/// - Both refusals are committed if `p` was.
/// - Faults are those of `p`, `Read` and `Reset` of the stream, and `Memory` if an error finds none for its text.
///
/// # Partial input
///
/// On need of more the stream is put back to where the parser began, and the next call begins again, with `p` too.
///
/// # Differences from combine
///
/// - The crate's keeps the length on need of more.
/// - A value that is no `usize` is refused there with the message of the conversion's error.
///
/// # Examples
///
/// ```
/// fn message(input: &[u8]) -> Result<(&[u8], &[u8]), UnexpectedParse> {
///     length_prefix(be_u16()).parse(input)
/// }
/// ```
///
/// On `b"\0\x02abc"` it returns `(b"ab", b"c")`.
#[inline]
pub fn length_prefix<Input, P, R>(p: P) -> LengthPrefix<Input, P, R>
    ensures { result ≡ length_prefix_of p }
{
    no_partial(Answered::new(Changed::new(p, AsLength), Taking(PhantomData)))
}
