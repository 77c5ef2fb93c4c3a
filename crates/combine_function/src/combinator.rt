//! Parsers that change the value of another parser, or refuse it.
ghost use Rattle.std.specs.Prelude.{◌≡◌};
ghost use Rattle.combine_function.specs.ChangeParsers.{and_then_of, flat_map_of, from_str_of, map_input_of};

mod changed;
mod changes;
mod text;
pub mod types;

pub use changed::{Changed, ValueChange};
use changes::{AndThenFn, FlatMapFn, FromStrFn, MapInputFn};
use std::marker::PhantomData;
pub use text::StrLike;
use types::{AndThen, FlatMap, FromStr, MapInput};

/// Parses as `p`, and changes its value by `f`, or refuses it where `f` returns an error.
///
/// `f: Fn(P::Output) -> Result<B, E>, E: Into<StreamError>`, or a `Function`; `StreamError` is that of `Input::Error`.
///
/// What is taken, refusals, faults and need of more are those of `p`, and so is the state. `f` need only be callable on the values that `p` gives, and may return any error.
///
/// # Errors
///
/// - A refusal by `f` is committed if `p` was. The tokens of `p` stay taken, also at the end of an open piece.
/// - Its error stands at the position before `p`, and says what `f` returned.
/// - An error of `f` of kind `Memory`, or an item that finds no memory, is that fault. An error of any other kind is a refusal: where `f` parses a frame whole, a frame that ends too soon is refused, and asks for no more.
///
/// # Differences from combine
///
/// - `f` is an `Fn`, where the crate takes an `FnMut`.
/// - At the end of an open piece the crate puts the tokens of `p` back, and refuses committed.
///
/// # Examples
///
/// ```
/// fn digit_of(byte: u8) -> Result<u8, UnexpectedParse> {
///     if byte.is_ascii_digit() {
///         Ok(byte - b'0')
///     } else {
///         Err(UnexpectedParse(Kind::Refused))
///     }
/// }
///
/// fn digit(input: &[u8]) -> Result<(u8, &[u8]), UnexpectedParse> {
///     and_then(any(), digit_of).parse(input)
/// }
/// ```
///
/// On `b"7;"` it returns `(7, b";")`; `b"x"` is refused committed.
#[inline]
pub fn and_then<P, F, B>(p: P, f: F) -> AndThen<P, F, B>
    ensures { result ≡ and_then_of p f }
{
    Changed::new(p, AndThenFn(f))
}

/// Parses as `p`, and changes its value by `f`, or refuses it with the error that `f` returns.
///
/// `f: Fn(P::Output) -> Result<B, Input::Error>`, or a `Function`.
///
/// What is taken, refusals, faults and need of more are those of `p`, and so is the state. `f` need only be callable on the values that `p` gives, and may return any error.
///
/// # Errors
///
/// - A refusal by `f` is committed if `p` was; the tokens of `p` stay taken. It has the error that `f` returned.
/// - An error of `f` of kind `End` is a refusal too, with what it says: where `f` parses a frame whole, a frame that ends too soon is refused, and asks for no more.
/// - An error of `f` of kind `Memory` is that fault. One of another fault is a refusal that says nothing.
///
/// # Differences from combine
///
/// `f` is an `Fn`, where the crate takes an `FnMut`.
///
/// # Examples
///
/// ```
/// fn digit_of(byte: u8) -> Result<u8, UnexpectedParse> {
///     if byte.is_ascii_digit() {
///         Ok(byte - b'0')
///     } else {
///         Err(UnexpectedParse(Kind::Refused))
///     }
/// }
///
/// fn digit(input: &[u8]) -> Result<(u8, &[u8]), UnexpectedParse> {
///     flat_map(any(), digit_of).parse(input)
/// }
/// ```
///
/// On `b"7;"` it returns `(7, b";")`; `b"x"` is refused committed.
#[inline]
pub fn flat_map<P, F, B>(p: P, f: F) -> FlatMap<P, F, B>
    ensures { result ≡ flat_map_of p f }
{
    Changed::new(p, FlatMapFn(f))
}

/// Parses as `p`, and changes its value by `f`, which is given the stream too, as `p` left it.
///
/// `f: Fn(P::Output, &mut Input) -> B`, or a `MutFunction`.
///
/// `f` has to leave the stream in place, and to be callable on the values that `p` gives. What is taken, refusals, faults and need of more are those of `p`, and so is the state.
///
/// # Differences from combine
///
/// `f` is an `Fn`, where the crate takes an `FnMut`.
#[inline]
pub fn map_input<P, F, B>(p: P, f: F) -> MapInput<P, F, B>
    ensures { result ≡ map_input_of p f }
{
    Changed::new(p, MapInputFn(f))
}

/// Parses as `p`, whose value is a text, and reads it as a `T` by its `FromStr`.
///
/// What is taken, refusals, faults and need of more are those of `p`, and so is the state.
///
/// # Errors
///
/// - Bytes that aren't UTF-8 are refused with `UTF-8` said to be expected, and a text that is no `T` with the message `invalid value`.
/// - These are committed if `p` was, with the tokens of `p` taken and the error at the position before `p`.
/// - An item that finds no memory is the fault `Memory`.
///
/// # Differences from combine
///
/// The crate's message is that of the error of `T`.
///
/// # Examples
///
/// ```
/// fn number(input: &[u8]) -> Result<(u64, &[u8]), UnexpectedParse> {
///     from_str::<_, u64>(recognize(skip_many1(digit()))).parse(input)
/// }
/// ```
///
/// On `b"12;"` it returns `(12, b";")`.
#[inline]
pub fn from_str<P, T>(p: P) -> FromStr<P, T>
    ensures { result ≡ from_str_of p }
{
    Changed::new(p, FromStrFn(PhantomData))
}
