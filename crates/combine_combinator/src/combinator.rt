//! Parsers that change the value of another parser, or keep a part of it, put its refusals back, or look ahead.
ghost use Rattle.std.specs.Prelude.{◌≡◌};
ghost use Rattle.combine_combinator.specs.CombinatorParsers.{attempt_of, look_ahead_of, map_of, no_partial_of, not_followed_by_of, picked_of};

pub mod laws;
mod look;
pub mod types;
mod values;

pub use types::TryState;
use types::{Ignore, LookAhead, Map, NoPartial, NotFollowedBy, Try};

/// Parses as `p`, and changes its value by `f`.
///
/// `f: Fn(P::Output) -> B`, or a `Function`.
///
/// What is taken, refusals, faults and need of more are those of `p`, and so is the state. `f` need only be callable on the values that `p` gives.
///
/// # Differences from combine
///
/// `f` is an `Fn`, where the crate takes an `FnMut`.
///
/// # Examples
///
/// ```
/// fn digit(input: &[u8]) -> Result<(u8, &[u8]), UnexpectedParse> {
///     let digit = satisfy(|byte: u8| byte.is_ascii_digit());
///     map(digit, |byte: u8| byte.wrapping_sub(b'0')).parse(input)
/// }
/// ```
///
/// On `b"7;"` it returns `(7, b";")`.
#[inline]
pub fn map<P, F, B>(p: P, f: F) -> Map<P, F, B>
    ensures { result ≡ map_of p f }
{
    Map::new(p, f)
}

/// Parses as `p`, but every refusal is peeked, with the stream put back to where the parser began.
///
/// # Errors
///
/// Faults stay committed. They are those of `p`, and three of the parser's own:
///
/// - `Reset` if the stream can't be put back.
/// - `Read` if the distance can't be read again.
/// - `Lost` if the input is shorter than a kept distance.
///
/// # Partial input
///
/// On need of more the stream is put back too, but `p` does not begin again. The state keeps the distance that was read, in tokens, and the state of `p`. The next call passes over that distance and goes on.
///
/// # Differences from combine
///
/// The crate's keeps the tokens taken on need of more, and a later refusal is peeked with those tokens gone.
///
/// # Examples
///
/// ```
/// fn verb(input: &[u8]) -> Result<(&'static [u8], &[u8]), UnexpectedParse> {
///     or(attempt(bytes(b"get")), bytes(b"go")).parse(input)
/// }
/// ```
///
/// On `b"go"` it returns `(b"go", b"")`: the `g` that `get` took is put back.
#[inline]
pub fn attempt<P>(p: P) -> Try<P>
    ensures { result ≡ attempt_of p }
{
    Try(p)
}

/// Parses as `p`, with the value `()`.
///
/// What is taken, refusals, faults, need of more and the state are those of `p`.
#[inline]
pub fn ignore<P>(p: P) -> Ignore<P>
    ensures { result ≡ picked_of p }
{
    Ignore::new(p)
}

/// Gives the value of `p`, and puts the stream back to where the parser began.
///
/// The acceptance is peeked.
///
/// # Errors
///
/// What `p` refuses is refused alike. Faults are those of `p`, and `Reset` if the stream can't be put back.
///
/// # Partial input
///
/// On need of more the stream is put back too, and the next call begins again.
///
/// # Differences from combine
///
/// On need of more the crate's loses the tokens that `p` took.
///
/// # Examples
///
/// ```
/// fn first(input: &[u8]) -> Result<((u8, u8), &[u8]), UnexpectedParse> {
///     (look_ahead(any()), any()).parse(input)
/// }
/// ```
///
/// On `b"ab"` it returns `((b'a', b'a'), b"b")`.
#[inline]
pub fn look_ahead<P>(p: P) -> LookAhead<P>
    ensures { result ≡ look_ahead_of p }
{
    LookAhead(p)
}

/// Accepts peeked where `p` is refused, and refuses peeked where `p` is accepted.
///
/// The stream is put back to where the parser began.
///
/// # Errors
///
/// The error of its refusal says nothing. A fault of `p` stays one, and there is `Reset` if the stream can't be put back.
///
/// # Partial input
///
/// Where `p` needs more, so does it, with the stream put back, and the next call begins again.
///
/// # Differences from combine
///
/// If `p` needs more the crate's accepts. It asks that the values of `p` can be shown.
///
/// # Examples
///
/// ```
/// fn keyword(input: &[u8]) -> Result<((&'static [u8], ()), &[u8]), UnexpectedParse> {
///     let letter = satisfy(|byte: u8| byte.is_ascii_lowercase());
///     (bytes(b"let"), not_followed_by(letter)).parse(input)
/// }
/// ```
///
/// `b"let x"` is accepted, and `b"letter"` is refused committed.
#[inline]
pub fn not_followed_by<P>(p: P) -> NotFollowedBy<P>
    ensures { result ≡ not_followed_by_of p }
{
    NotFollowedBy(p)
}

/// Parses as `p`, but keeps no state.
///
/// # Errors
///
/// They are those of `p`, and the fault `Reset` if the stream can't be put back.
///
/// # Partial input
///
/// On need of more the stream is put back to where the parser began, and the next call begins again.
#[inline]
pub fn no_partial<P>(p: P) -> NoPartial<P>
    ensures { result ≡ no_partial_of p }
{
    NoPartial(p)
}
