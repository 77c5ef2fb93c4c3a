//! Parsers that give ranges: parts of the input, as they stand there.
//!
//! They run over every stream that hands out ranges. On need of more each puts the stream back to where it began.
ghost use Rattle.std.specs.Prelude.{◌≡◌};
ghost use Rattle.combine_range.specs.Range.RangeParsers.{range_of, recognize_of, recognize_with_value_of, take_of, take_until_range_of, take_while_of, take_while1_of};

mod beginnings;
mod lengths;
mod recognized;
pub mod types;
mod until;

pub use recognized::RecognizeState;
use std::marker::PhantomData;
use types::{Range, Recognize, RecognizeWithValue, Take, TakeUntilRange, TakeWhile, TakeWhile1};

/// Takes as many first items as the range has, if they are that range.
///
/// The value is the range that was read.
///
/// The acceptance is committed, also where the range is empty. The length is judged first: too few items of an open piece are need of more, also where they differ already.
///
/// # Errors
///
/// - Other items are put back and refused peeked. Too few items of ended input, and an end inside a character, are refused peeked.
/// - The error of a refusal stands where the items begin. That of too few says that the input ended, another nothing.
/// - Faults are `Read` and `Reset` of the stream, and `Memory` if an error finds none for its text.
///
/// # Partial input
///
/// On need of more the stream is put back, and the next call begins again.
///
/// # Examples
///
/// ```
/// fn keyword(text: &str) -> Result<(&str, &str), UnexpectedParse> {
///     range("let").parse(text)
/// }
/// ```
///
/// On `"let x"` it returns `("let", " x")`.
#[inline]
pub fn range<Input, R>(wanted: R) -> Range<Input, R>
    ensures { result ≡ range_of wanted }
{
    Range {
        wanted,
        reads: PhantomData,
    }
}

/// Takes the first `count` items: tokens of a slice, or bytes of a text.
///
/// The acceptance is committed, or peeked where `count` is 0.
///
/// # Errors
///
/// - Too few items of ended input are refused peeked, and so is an end inside a character, as soon as that many bytes stand there.
/// - The error stands where the items begin. That of too few says that the input ended, the other nothing.
/// - Faults are `Read` of the stream, and `Memory` if an error finds none for its text.
///
/// # Partial input
///
/// Too few items of an open piece are need of more; the next call begins again.
///
/// # Differences from combine
///
/// Over partial text the crate's refuses an end inside a character committed, or asks for more.
///
/// # Examples
///
/// ```
/// fn pair(input: &[u8]) -> Result<(&[u8], &[u8]), UnexpectedParse> {
///     take(2).parse(input)
/// }
/// ```
///
/// On `b"abc"` it returns `(b"ab", b"c")`.
#[inline]
pub fn take<Input>(count: usize) -> Take<Input>
    ensures { result ≡ take_of count }
{
    Take {
        count,
        reads: PhantomData,
    }
}

/// Takes the longest beginning whose tokens the predicate holds of.
///
/// `predicate: Fn(Input::Token) -> bool`, or a `Function`.
///
/// The acceptance is committed, or peeked where the beginning is empty.
///
/// # Errors
///
/// - It is never refused, but from a kept distance that ends inside a token of other input.
/// - Faults are `Lost`, if the input is shorter than what an earlier call read, and `Read` and `Reset` of the stream.
///
/// # Partial input
///
/// If the beginning is all of an open piece more is asked for. The next call doesn't begin again, but passes over the items read so far and goes on.
///
/// # Differences from combine
///
/// The predicate is an `Fn`, where the crate takes an `FnMut`.
///
/// # Examples
///
/// ```
/// fn blanks(text: &str) -> Result<(&str, &str), UnexpectedParse> {
///     take_while(|character: char| character == ' ').parse(text)
/// }
/// ```
///
/// On `"  a"` it returns `("  ", "a")`, and on `"a"` `("", "a")`.
#[inline]
pub fn take_while<Input, F>(predicate: F) -> TakeWhile<Input, F>
    ensures { result ≡ take_while_of predicate }
{
    TakeWhile {
        predicate,
        reads: PhantomData,
    }
}

/// Takes the longest beginning as `take_while` does, but refuses an empty one peeked.
///
/// `predicate: Fn(Input::Token) -> bool`, or a `Function`.
///
/// # Errors
///
/// The error stands where the beginning would. If nothing is left of ended input, it is of kind `End` and says so; one that finds no memory for that is the fault `Memory`. At a token it says nothing. Faults are those of `take_while`.
///
/// # Examples
///
/// ```
/// fn first_word(text: &str) -> Result<(&str, &str), UnexpectedParse> {
///     take_while1(|character: char| character != ' ').parse(text)
/// }
/// ```
///
/// On `"let x"` it returns `("let", " x")`; `" x"` is refused peeked.
#[inline]
pub fn take_while1<Input, F>(predicate: F) -> TakeWhile1<Input, F>
    ensures { result ≡ take_while1_of predicate }
{
    TakeWhile1 {
        predicate,
        reads: PhantomData,
    }
}

/// Takes what stands before the first occurrence of a range.
///
/// The acceptance is committed, or peeked where nothing stands before it. The range occurs where the one that is read there is equal to it. So it is found at one place only if ranges of the same tokens are all equal to it or all not.
///
/// # Errors
///
/// - If it doesn't occur in ended input, that is refused peeked. The error is of kind `End`, stands where the call began, whatever was searched, and says that the input ended.
/// - Faults are `Lost`, if the input is shorter than what an earlier call searched, `Read` and `Reset` of the stream, and `Memory` if an error finds none for its text.
///
/// # Partial input
///
/// If it isn't found in an open piece more is asked for. The next call doesn't begin again, but passes over the items that were searched and goes on.
///
/// # Examples
///
/// ```
/// fn line(text: &str) -> Result<(&str, &str), UnexpectedParse> {
///     take_until_range("\r\n").parse(text)
/// }
/// ```
///
/// On `"a\r\nb"` it returns `("a", "\r\nb")`.
#[inline]
pub fn take_until_range<Input, R>(wanted: R) -> TakeUntilRange<Input, R>
    ensures { result ≡ take_until_range_of wanted }
{
    TakeUntilRange {
        wanted,
        reads: PhantomData,
    }
}

/// Gives the range of the tokens that `p` takes.
///
/// The acceptance is committed, or peeked where `p` takes none, whichever kind `p` has. It counts as one parser.
///
/// # Errors
///
/// What `p` refuses is refused alike, with its error. Faults are those of `p`, `Lost`, if the input is shorter than what was read, and `Read` and `Reset` of the stream.
///
/// # Partial input
///
/// On need of more `p` doesn't begin again. The state keeps the items that were read and the state of `p`; the next call passes over these items and goes on.
///
/// # Examples
///
/// ```
/// fn number(input: &[u8]) -> Result<(&[u8], &[u8]), UnexpectedParse> {
///     recognize((optional(token(b'-')), skip_many1(digit()))).parse(input)
/// }
/// ```
///
/// On `b"-12;"` it returns `(b"-12", b";")`.
#[inline]
pub fn recognize<P>(p: P) -> Recognize<P>
    ensures { result ≡ recognize_of p }
{
    Recognize(RecognizeWithValue(p))
}

/// Gives the range as `recognize` does, with the value of `p` beside it.
#[inline]
pub fn recognize_with_value<P>(p: P) -> RecognizeWithValue<P>
    ensures { result ≡ recognize_with_value_of p }
{
    RecognizeWithValue(p)
}
