//! Parsers that shape what the errors of another parser say.
ghost use Rattle.std.specs.Prelude.{◌≡◌};
ghost use Rattle.combine_error.specs.ErrorParsers.{expected_of, message_of, silent_of};

pub mod types;

use combine_base::error::Info;
pub use types::{add_message_to_refusal, clear_expected_of_refusal};
use types::{Expected, Message, Silent};

/// Parses as `parser`, but its refusals also say this.
///
/// # Errors
///
/// - The message is added to the error of a committed refusal, and where a peeked refusal is explained after what `parser` adds.
/// - Faults and need of more stay as they are.
/// - A message that finds no memory makes it the committed fault `Memory`.
///
/// # Differences from combine
///
/// The crate adds the message to faults and need of more too.
#[inline]
pub fn message<P, I, T, R>(parser: P, info: I) -> Message<P, Info<T, R>>
where
    I: Into<Info<T, R>>,
    ensures { (i : _) × I.converts info i × (result ≡ message_of parser i) }
{
    Message {
        parser,
        info: info.into(),
    }
}

/// Parses as `parser`, but where a peeked refusal is explained it says that this was expected, in place of what `parser` says was expected.
///
/// # Errors
///
/// - What else `parser` adds stays, and so does all that the error said before.
/// - A committed refusal, a fault and need of more stay as they are.
/// - An item that finds no memory makes it the committed fault `Memory`.
///
/// # Examples
///
/// ```
/// fn named<'a>(
///     alloc: Global,
///     text: &'a str,
/// ) -> Result<(char, &'a str), Errors<char, &'a str, Left>> {
///     expected(token('a'), "letter a").easy_parse(alloc, text)
/// }
/// ```
///
/// Of `"b"` the error says ``Unexpected `b` `` and `Expected letter a`.
#[inline]
pub fn expected<P, I, T, R>(parser: P, info: I) -> Expected<P, Info<T, R>>
where
    I: Into<Info<T, R>>,
    ensures { (i : _) × I.converts info i × (result ≡ expected_of parser i) }
{
    Expected {
        parser,
        info: info.into(),
    }
}

/// Parses as `parser`, but its refusals, committed or peeked, no longer say what was expected.
///
/// # Errors
///
/// Nothing is added where a peeked refusal is explained. What else the errors say stays. Faults and need of more stay as they are.
///
/// # Differences from combine
///
/// The crate clears faults and need of more too.
///
/// # Examples
///
/// ```
/// fn hushed<'a>(
///     alloc: Global,
///     text: &'a str,
/// ) -> Result<(char, &'a str), Errors<char, &'a str, Left>> {
///     silent(token('a')).easy_parse(alloc, text)
/// }
/// ```
///
/// Of `"b"` the error says ``Unexpected `b` `` alone.
#[inline]
pub fn silent<P>(parser: P) -> Silent<P>
    ensures { result ≡ silent_of parser }
{
    Silent(parser)
}
