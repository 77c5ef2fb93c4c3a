//! Parsers one after another.
//!
//! Of `with`, `skip`, `between` and `struct_parser!` what is taken, refusals, faults, need of more, errors and states are those of the tuple.
ghost use Rattle.std.specs.Prelude.{◌≡◌};
ghost use Rattle.combine_combinator.specs.CombinatorParsers.{picked_of};
ghost use Rattle.combine_sequence.specs.Then.{then_of, then_partial_of, then_ref_of};

mod answered;
pub mod laws;
pub mod types;

use answered::next_parser::{ByMut, ByRef, ByValue};
pub use combine_combinator::combinator::map;
use types::{Answered, Between, Skip, Then, ThenPartial, ThenRef, With};

/// Parses as `p` and then as `q`, with the value of `q`.
///
/// # Errors
///
/// They are those of the tuple `(p, q)`.
///
/// # Examples
///
/// ```
/// fn digit(input: &[u8]) -> Result<(u8, &[u8]), UnexpectedParse> {
///     with(token(b'#'), satisfy(|byte: u8| byte.is_ascii_digit())).parse(input)
/// }
/// ```
///
/// On `b"#1;"` it returns `(b'1', b";")`.
#[inline]
pub fn with<P, Q, B>(p: P, q: Q) -> With<P, Q, B>
    ensures { result ≡ picked_of (p, q) }
{
    With::new((p, q))
}

/// Parses as `p` and then as `q`, with the value of `p`.
///
/// # Errors
///
/// They are those of the tuple `(p, q)`.
///
/// # Examples
///
/// ```
/// fn word(alloc: Global, input: &[u8]) -> Result<(Vec<u8>, &[u8]), UnexpectedParse> {
///     let letters = many1::<Vec<u8>, _>(alloc, satisfy(|byte: u8| byte.is_ascii_lowercase()));
///     skip(letters, token(b';')).parse(input)
/// }
/// ```
///
/// On `b"dex;a"` it returns `(b"dex", b"a")`.
#[inline]
pub fn skip<P, Q, A>(p: P, q: Q) -> Skip<P, Q, A>
    ensures { result ≡ picked_of (p, q) }
{
    Skip::new((p, q))
}

/// Parses as `l`, then as `p`, then as `r`, with the value of `p`.
///
/// It counts as one parser.
///
/// # Errors
///
/// They are those of the tuple `(l, p, r)`.
///
/// # Examples
///
/// ```
/// fn quoted(input: &[u8]) -> Result<(u8, &[u8]), UnexpectedParse> {
///     between(token(b'"'), token(b'"'), any()).parse(input)
/// }
/// ```
///
/// On `b"\"a\";"` it returns `(b'a', b";")`.
#[inline]
pub fn between<L, R, P, A>(l: L, r: R, p: P) -> Between<L, R, P, A>
    ensures { result ≡ picked_of (l, p, r) }
{
    Between::new((l, p, r))
}

/// Parses as `parser`, and then as the parser that `f` returns for its value, whose value is the value of both.
///
/// `f: Fn(P::Output) -> N, N: Parser<Input>`, or a `Function`.
///
/// Every parser that `f` may return has to be lawful. `f` is called where `parser` is accepted. The result is committed if one of the two is.
///
/// # Errors
///
/// What `parser` refuses is refused alike. A peeked refusal of the second is put back to where the second began, and says what stands there and what the second expects; it is committed if the first was.
///
/// # Partial input
///
/// On need of more the state keeps the parser that `f` returned, and the next call goes on with that one.
///
/// # Differences from combine
///
/// `f` is an `Fn`, where the crate takes an `FnMut`.
///
/// # Examples
///
/// ```
/// fn twice(input: &[u8]) -> Result<(u8, &[u8]), UnexpectedParse> {
///     then(any(), |first: u8| token(first)).parse(input)
/// }
/// ```
///
/// On `b"aab"` it returns `(b'a', b"b")`; `b"ab"` is refused committed.
#[inline]
pub fn then<P, F, B>(parser: P, f: F) -> Then<P, F, B>
    ensures { result ≡ then_of parser f }
{
    Answered::new(parser, ByValue(f))
}

/// Parses as `then` does, where the function takes a mutable reference to the value.
///
/// `f: Fn(&mut P::Output) -> N, N: Parser<Input>`, or a `MutFunction`.
///
/// # Differences from combine
///
/// The crate's hands its function the value as it stands in the state, and asks it again for each piece.
///
/// # Examples
///
/// ```
/// fn next_byte(input: &[u8]) -> Result<(u8, &[u8]), UnexpectedParse> {
///     let next = |byte: &mut u8| {
///         *byte = byte.wrapping_add(1);
///         token(*byte)
///     };
///     then_partial(any(), next).parse(input)
/// }
/// ```
///
/// On `b"abc"` it returns `(b'b', b"c")`.
#[inline]
pub fn then_partial<P, F, B>(parser: P, f: F) -> ThenPartial<P, F, B>
    ensures { result ≡ then_partial_of parser f }
{
    Answered::new(parser, ByMut(f))
}

/// Parses as `then` does, where the function takes a reference to the value.
///
/// `f: Fn(&P::Output) -> N, N: Parser<Input>`, or a `RefFunction`.
///
/// The value of both is the pair of both values.
///
/// # Examples
///
/// ```
/// fn digit_twice(
///     alloc: Global,
///     pieces: &[&[u8]],
/// ) -> Result<Answer<(u8, u8), UnexpectedParse>, SessionError> {
///     let twice = then_ref(digit(), |digit: &u8| token(*digit));
///     parse_pieces(alloc, twice, pieces)
/// }
/// ```
///
/// Of the pieces `b"1"` and `b"1;"` it accepts `(b'1', b'1')`, with 2 tokens taken.
#[inline]
pub fn then_ref<P, F, B>(parser: P, f: F) -> ThenRef<P, F, B>
    ensures { result ≡ then_ref_of parser f }
{
    Answered::new(parser, ByRef(f))
}

/// Parses as up to eight parsers one after another, whose values make a struct.
///
/// `struct_parser!(Pair { left: p, _: q, right: r })` is `(p, q, r)` with the value `Pair { left, right }` of the values of `p` and `r`, and `struct_parser!(Pair(p, _: q, r))` is the same of a struct whose fields have no names. A part named `_` is run, and its value let go.
///
/// Such a call is an expression, and may stand as a part of another.
///
/// # Differences from combine
///
/// Without names the crate's takes up to fifteen parts.
///
/// # Examples
///
/// ```
/// #[derive(Debug, Drop, PartialEq)]
/// struct Entry {
///     name: u8,
///     digit: u8,
/// }
///
/// fn setting(input: &[u8]) -> Result<(Entry, &[u8]), UnexpectedParse> {
///     struct_parser!(Entry {
///         name: any(),
///         _: token(b'='),
///         digit: digit(),
///     })
///     .parse(input)
/// }
/// ```
///
/// On `b"a=1;"` it returns `(Entry { name: b'a', digit: b'1' }, b";")`.
#[macro_export]
macro_rules! struct_parser {
    ($name:ident { $($parts:tt)* }) => {
        $crate::struct_parser!(@named $name [] [] [] $($parts)*)
    };
    ($name:ident ( $($parts:tt)* )) => {
        $crate::struct_parser!(@unnamed $name [] [] [] $($parts)*)
    };
    (@named $name:ident [$($parser:tt)*] [$($value:tt)*] [$($field:tt)*]) => {
        $crate::sequence::map(($($parser)*), |($($value)*)| $name { $($field)* })
    };
    (@named $name:ident [$($parser:tt)*] [$($value:tt)*] [$($field:tt)*] _ : $part:expr $(, $($rest:tt)*)?) => {
        $crate::struct_parser!(@named $name [$($parser)* $part,] [$($value)* _,] [$($field)*] $($($rest)*)?)
    };
    (@named $name:ident [$($parser:tt)*] [$($value:tt)*] [$($field:tt)*] $new:ident : $part:expr $(, $($rest:tt)*)?) => {
        $crate::struct_parser!(@named $name [$($parser)* $part,] [$($value)* $new,] [$($field)* $new,] $($($rest)*)?)
    };
    (@unnamed $name:ident [$($parser:tt)*] [$($value:tt)*] [$($field:tt)*]) => {
        $crate::sequence::map(($($parser)*), |($($value)*)| $name($($field)*))
    };
    (@unnamed $name:ident [$($parser:tt)*] [$($value:tt)*] [$($field:tt)*] _ : $part:expr $(, $($rest:tt)*)?) => {
        $crate::struct_parser!(@unnamed $name [$($parser)* $part,] [$($value)* _,] [$($field)*] $($($rest)*)?)
    };
    (@unnamed $name:ident [$($parser:tt)*] [$($value:tt)*] [$($field:tt)*] $part:expr $(, $($rest:tt)*)?) => {
        $crate::struct_parser!(@unnamed $name [$($parser)* $part,] [$($value)* value,] [$($field)* value,] $($($rest)*)?)
    };
}
