//! Chains of operands and operators, which are folded, and texts with escapes.
//!
//! A turn that takes nothing is refused, committed, with the message `repetition takes nothing`, at the position where it began. Which error a refusal has is exact, as for `sep_by1` and for `skip_many`.
ghost use Rattle.std.specs.Prelude.{◌≡◌};
ghost use Rattle.combine_separated.specs.ChainParsers.{chainl1_of, chainr1_of, escaped_of};

pub mod laws;
pub mod types;

use crate::operands::{FromLeft, FromRight};
use combine_choice::or::or;
use combine_combinator::combinator::{ignore, no_partial};
use combine_repeat::many::skip_many;
use combine_token::token::token;
use std::alloc::Global;
use types::{Chain, Chainl1, Chainr1, Escaped};

/// Parses as `parser`, and then by turns as `operator` and `parser`: folds the values from the left, by the functions that `operator` gives.
///
/// `operator: Parser<Input, Output = O>, O: FnOnce(P::Output, P::Output) -> P::Output`.
///
/// The functions must always be callable. It takes as `sep_by1` does.
///
/// # Errors
///
/// It refuses as `sep_by1` does.
///
/// # Partial input
///
/// On need of more the state keeps the left value.
///
/// # Differences from combine
///
/// The operators are `FnOnce`.
///
/// # Examples
///
/// ```
/// fn difference(input: &[u8]) -> Result<(u8, &[u8]), UnexpectedParse> {
///     let digit = map(digit(), |byte: u8| byte.wrapping_sub(b'0'));
///     let minus = map(token(b'-'), |_minus: u8| |left: u8, right: u8| left.wrapping_sub(right));
///     chainl1(digit, minus).parse(input)
/// }
/// ```
///
/// On `b"9-3-2;"` it returns `(4, b";")`.
#[inline]
pub fn chainl1<P, S>(parser: P, operator: S) -> Chainl1<P, S>
    ensures { result ≡ chainl1_of parser operator }
{
    Chain::new(FromLeft, parser, operator)
}

/// Parses as `parser`, and then by turns as `operator` and `parser`: folds the values from the right, by the functions that `operator` gives.
///
/// `operator: Parser<Input, Output = O>, O: FnOnce(P::Output, P::Output) -> P::Output`.
///
/// The functions must always be callable. It takes as `sep_by1` does. The operands are held in memory of `alloc`, and not on the call stack.
///
/// # Errors
///
/// - An operator without a right operand is refused, committed if the operator was. Else it is put back, and the chain ends.
/// - A turn that takes nothing is refused, committed, with the message `repetition takes nothing`.
/// - If memory isn't found, that is the committed fault `Memory`.
///
/// # Partial input
///
/// On need of more everything is put back, and the next call begins again.
///
/// # Differences from combine
///
/// The crate's drops an operator without a right operand, and accepts. It calls itself, and on need of more the tokens that it took are gone.
///
/// # Examples
///
/// ```
/// fn difference(alloc: Global, input: &[u8]) -> Result<(u8, &[u8]), UnexpectedParse> {
///     let digit = map(digit(), |byte: u8| byte.wrapping_sub(b'0'));
///     let minus = map(token(b'-'), |_minus: u8| |left: u8, right: u8| left.wrapping_sub(right));
///     chainr1(alloc, digit, minus).parse(input)
/// }
/// ```
///
/// On `b"9-3-2;"` it returns `(8, b";")`, for `9 - (3 - 2)`.
#[inline]
pub fn chainr1<P, S>(alloc: Global, parser: P, operator: S) -> Chainr1<P, S>
    ensures { result ≡ chainr1_of alloc parser operator }
{
    no_partial(Chain::new(FromRight(alloc), parser, operator))
}

/// Runs turns of `parser`, or, where it is refused peeked, of the token `escape` and then `escaped`, and drops the values.
///
/// It is `skip_many` of a choice. If `parser` is refused peeked, another token or the end of ended input ends the turns, accepted, committed exactly if there was a turn.
///
/// # Errors
///
/// - A committed refusal of `parser` is the result. After the token `escape` a refusal of `escaped` is committed.
/// - A turn that takes nothing is refused, committed, with the message `repetition takes nothing`.
/// - Added to an error is what `parser` adds, and then that `escape` was expected.
///
/// # Partial input
///
/// On need of more the state keeps whether a turn committed, and the part that runs.
///
/// # Differences from combine
///
/// The crate doesn't put back what `parser` read before it was refused, and looks for the escape after that.
///
/// # Examples
///
/// ```
/// fn quoted(input: &str) -> Result<((char, (), char), &str), UnexpectedParse> {
///     let plain = satisfy(|character: char| character != '"' && character != '\\');
///     let inside = escaped(plain, '\\', one_of(['n', 'r', '"', '\\']));
///     (token('"'), inside, token('"')).parse(input)
/// }
/// ```
///
/// It takes `"a\"b"` whole, to its second bare quote.
#[inline]
pub fn escaped<Input, P, T, Q>(parser: P, escape: T, escaped: Q) -> Escaped<Input, P, T, Q>
    ensures { result ≡ escaped_of parser escape escaped }
{
    skip_many(or(ignore(parser), ignore((token(escape), escaped))))
}
