//! Parsers that a maker returns.
ghost use Rattle.std.specs.Prelude.{◌≡◌};
ghost use Rattle.combine_combinator.specs.MadeParsers.{factory_of, lazy_of};

pub(crate) mod made;
pub mod types;

use types::{Factory, Lazy};

/// Parses as the parser that `maker` returns, which is called where a parse begins.
///
/// `maker: Fn() -> N, N: Parser<Input>`, or a `Maker`.
///
/// Every parser that `maker` may return has to be lawful; where they have one outcome, there is one.
///
/// # Errors
///
/// What is added to an error is what a parser of the maker adds, for which the maker is called once more.
///
/// # Partial input
///
/// The state keeps the parser and its state. After need of more the next call goes on with that one, and the maker isn't asked again.
///
/// # Differences from combine
///
/// `maker` is an `Fn`, where the crate takes an `FnMut`, and asks it again on resumption.
///
/// # Examples
///
/// ```
/// fn pair(input: &[u8]) -> Result<((u8, u8), &[u8]), UnexpectedParse> {
///     lazy(|| (token(b'a'), token(b'b'))).parse(input)
/// }
/// ```
///
/// On `b"abc"` it returns `((b'a', b'b'), b"c")`.
#[inline]
pub fn lazy<F>(maker: F) -> Lazy<F>
    ensures { result ≡ lazy_of maker }
{
    Lazy(maker)
}

/// Parses as the parser that `maker` returns for the stream where a parse begins.
///
/// `maker: Fn(&mut Input) -> N, N: Parser<Input>`, or a `MutFunction`.
///
/// The maker has to leave the stream in place. A call that begins afresh parses as [`make_and_parse`](crate::lazy_laws::make_and_parse) does.
///
/// # Errors
///
/// Nothing is added to an error.
///
/// # Partial input
///
/// The state keeps the parser that the maker returned, as by `lazy`.
///
/// # Differences from combine
///
/// - `maker` is an `Fn`, where the crate takes an `FnMut`.
/// - The crate keeps the parser in itself, and adds to an error what its last parser adds.
///
/// # Examples
///
/// ```
/// fn an_a<Input>(_input: &mut Input) -> Token<Input, u8>
///     ensures { _input.new ≡ _input.old }
/// {
///     token(b'a')
/// }
///
/// fn placed_a(input: &[u8]) -> Result<(u8, &[u8]), UnexpectedParse> {
///     factory(an_a).parse(input)
/// }
/// ```
///
/// On `b"ab"` it returns `(b'a', b"b")`.
#[inline]
pub fn factory<F>(maker: F) -> Factory<F>
    ensures { result ≡ factory_of maker }
{
    Factory(maker)
}
