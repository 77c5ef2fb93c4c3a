//! What stands before the place that a function finds.
ghost use Rattle.std.specs.Prelude.{◌≡◌};
ghost use Rattle.combine_byte.specs.Search.SearchParsers.{take_fn_of};

pub mod types;

pub use crate::search::TakeRange;
use crate::search::{FindByFn, Searching};
use std::marker::PhantomData;
use types::TakeFn;

/// Takes the items before the place that the function finds in the range that is unread.
///
/// `searcher: Fn(Input::Range) -> T, T: Into<TakeRange>`, or a `Function`.
///
/// `Found(i)` is the first `i` items, accepted committed, or peeked where `i` is 0. An `Option` is `Found(i)` or `NotFound(0)`.
///
/// # What the function owes
///
/// - `Found` stays the same on a longer range.
/// - After `NotFound(n)` it finds in the rest what it would find in the whole.
///
/// Else there are several outcomes, and the result is one of them (see [`laws`](crate::laws)).
///
/// # Errors
///
/// - `NotFound` in ended input is refused, peeked where the input is empty, and else committed, with an error of kind `End`.
/// - Too few items for `Found(i)` in ended input are refused peeked, and so is an end inside a character.
/// - The error of a refusal stands where the call began, and says that the input ended. That of an end inside a character says nothing.
/// - Faults are `Lost`, if the input is shorter than what is passed over, `Read` and `Reset` of the stream, and `Memory` if an error finds none for its text.
///
/// # Partial input
///
/// - At the end of an open piece `NotFound(n)` asks for more. The next call passes over the first `n` items, or those before them that end no character, and calls the function on the rest.
/// - Too few items for `Found(i)` are need of more in an open piece.
///
/// # Differences from combine
///
/// - The function is an `Fn`, where the crate takes an `FnMut`.
/// - The error stands in the crate at the end of what was read.
/// - The distance that is kept is in the crate that of the last call alone.
///
/// # Examples
///
/// ```
/// fn third(bytes: &[u8]) -> Option<usize> {
///     if bytes.len() < 3 {
///         return None;
///     }
///     Some(2)
/// }
///
/// fn before_third(input: &[u8]) -> Result<(&[u8], &[u8]), UnexpectedParse> {
///     take_fn(third).parse(input)
/// }
/// ```
///
/// On `b"abcd"` it returns `(b"ab", b"cd")`.
#[inline]
pub fn take_fn<F, Input>(searcher: F) -> TakeFn<F, Input>
    ensures { result ≡ take_fn_of searcher }
{
    Searching {
        searcher: FindByFn(searcher),
        reads: PhantomData,
    }
}
