//! What a parser takes, in place of its value.
ghost use Rattle.std.specs.Prelude.{◌≡◌};
ghost use Rattle.combine_combinator.specs.RecognizedTokens.{recognize_collecting_of};

pub mod types;

use std::alloc::Global;
use std::marker::PhantomData;
use types::Recognize;

/// Parses as `parser`, with the tokens that it took as the value, collected in order in any `F: Append<Input::Token>`.
///
/// To collect them the stream is put back to where the call began, and they are read again.
///
/// # Errors
///
/// Kind, count and refusals are those of `parser`. `Reset` and `Read` of the stream, and `Memory` if the collection can't grow, are committed, at the position where the call began.
///
/// # Partial input
///
/// The tokens that are left on need of more are those of `parser`. The state keeps the tokens that were taken, and the state of `parser`.
///
/// # Differences from combine
///
/// The crate takes `F: Extend + Default`, and no allocator.
///
/// # Examples
///
/// ```
/// fn number(alloc: Global, input: &[u8]) -> Result<(Vec<u8>, &[u8]), UnexpectedParse> {
///     recognize::<Vec<u8>, _>(alloc, (optional(token(b'-')), skip_many1(digit()))).parse(input)
/// }
/// ```
///
/// On `b"-12;"` it returns `(b"-12", b";")`.
#[inline]
pub fn recognize<F, P>(alloc: Global, parser: P) -> Recognize<F, P>
    ensures { result ≡ recognize_collecting_of alloc parser }
{
    Recognize {
        alloc,
        parser,
        collects: PhantomData,
    }
}
