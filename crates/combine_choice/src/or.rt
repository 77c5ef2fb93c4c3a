//! Choices: the first parser that isn't refused peeked gives the result.
ghost use Rattle.std.specs.Prelude.{◌≡◌};
ghost use Rattle.combine_base.specs.Error.Errors.{IsFault};
ghost use Rattle.combine_choice.specs.Choice.Alternatives.{AfterRefusal, PeeksNoFault, both_merged};
ghost use Rattle.combine_choice.specs.Choice.Optional.{optional_parser};
ghost use Rattle.combine_choice.specs.Choice.Or.{StartsSame, or_parser};

use combine_base::error::{ParseError, ParseResult, Tracked};
use combine_base::parser::Parser;
use combine_base::refusal::peeked;
use combine_base::stream::Stream;

pub mod alternatives;
pub mod first;
pub mod types;

use types::{Optional, Or};

/// The running alternative of a choice, and its state.
///
/// A choice makes it by `Default`, which is `Peek`, and keeps an alternative in it on need of more alone.
#[derive(Drop)]
pub enum OrState<S, T> {
    /// No alternative runs.
    Peek,
    /// The first runs, from that state.
    A(S),
    /// The second runs, from that state.
    B(T),
}

impl<S, T> Default for OrState<S, T> {
    ghost use Rattle.combine_choice.specs.declared.or.OrState.TheVariants.{Peek};

    ghost is_default = { λ s. s ≡ Peek };

    fn default() -> Self {
        OrState::Peek
    }
}

/// Parses as the first of two parsers that isn't refused peeked.
///
/// The second begins where the first did.
///
/// # Errors
///
/// - If both are refused peeked so is the choice, and their errors are merged in order.
/// - A committed refusal ends the choice, and so does a fault.
/// - Two faults are the choice's own: `Reset`, if the stream can't be put back, and `Memory`, if an item of the merged error finds none.
///
/// # Partial input
///
/// On need of more the running alternative is kept. If it is then refused peeked, the second is still tried.
///
/// # Differences from combine
///
/// The crate's choice stays with the alternative that took tokens before the cut. It also carries offsets with errors; here these are merged pairwise, once all are refused.
///
/// # Examples
///
/// ```
/// fn verb(input: &[u8]) -> Result<(&'static [u8], &[u8]), UnexpectedParse> {
///     or(attempt(bytes(b"get")), bytes(b"go")).parse(input)
/// }
/// ```
///
/// On `b"go on"` it returns `(b"go", b" on")`. Without `attempt` the first alternative is refused committed, and the second isn't tried.
#[inline]
pub fn or<P, Q>(p: P, q: Q) -> Or<P, Q>
    ensures { result ≡ or_parser p q }
{
    Or(p, q)
}

/// Gives the value of a parser, or `None` where it is refused peeked.
///
/// `None` is accepted peeked, and nothing is taken.
///
/// # Errors
///
/// A committed refusal and a fault are those of the parser. If the stream can't be put back, that is the committed fault `Reset`.
///
/// # Partial input
///
/// Need of more is that of the parser, and the parser's own state is kept.
///
/// # Examples
///
/// ```
/// fn number(input: &[u8]) -> Result<((Option<u8>, u8), &[u8]), UnexpectedParse> {
///     (optional(token(b'-')), token(b'0')).parse(input)
/// }
/// ```
///
/// On `b"0;"` it returns `((None, b'0'), b";")`.
#[inline]
pub fn optional<P>(parser: P) -> Optional<P>
    ensures { result ≡ optional_parser parser }
{
    Optional(parser)
}

/// The law that `or` is associative.
///
/// On every list `or(or(a, b), c)` and `or(a, or(b, c))` have the same outcomes from the start; they leave tokens unread and ask for memory alike, and add the same items to an error. The call does nothing; its contract is the law.
pub fn or_is_associative<
    Input: Stream,
    A: Parser<Input>,
    B: Parser<Input, Output = A::Output>,
    C: Parser<Input, Output = A::Output>,
>(a: &A, b: &B, c: &C)
    ensures { StartsSame
        (⟦<Or<Or<A, B>, C> as Parser<Input>>⟧.meaning (or_parser (or_parser a.now b.now) c.now))
        (⟦<Or<A, Or<B, C>> as Parser<Input>>⟧.meaning (or_parser a.now (or_parser b.now c.now))) }
{}

/// Returns the result of a choice whose first alternative was refused peeked, of the result of the later ones. Our own.
///
/// If they are refused peeked too, the errors are merged in order.
#[inline(always)]
pub fn after_refusal<O, T: Copy, R: Copy, P: Ord, E: ParseError<T, R, P>>(
    first: Tracked<E>,
    answer: ParseResult<O, E>,
) -> ParseResult<O, E>
    requires first { IsFault (E.observers.kind first.error) → ⊥ }
    requires later { PeeksNoFault E.observers.kind answer }
    ensures { AfterRefusal E.observers (both_merged E.observers P.cmp) first.error answer result }
{
    match answer {
        ParseResult::CommitOk(value) => ParseResult::CommitOk(value),
        ParseResult::PeekOk(value) => ParseResult::PeekOk(value),
        ParseResult::CommitErr(error) => ParseResult::CommitErr(error),
        ParseResult::PeekErr(second) => peeked(Tracked::from(first.error.merge(second.error))),
    }
}
