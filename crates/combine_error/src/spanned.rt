//! A parser whose refusals stand at the span that it read.
ghost use Rattle.std.specs.Prelude.{◌≡◌};
ghost use Rattle.combine_error.specs.SpannedErrors.{spanned_of};

pub mod types;

use types::Spanned;

/// Parses as `parser`, with the errors of its refusals at the span that it read.
///
/// The stream's positions are spans, as those of a `span::Stream`.
///
/// # Errors
///
/// The error of a refusal, where its span begins and ends at one position, is made to stand at the span from where this call began to where it left the stream. A span that an inner `spanned` has set stays. What an error says stays, and so does its kind. An error that keeps no position is left as it is.
///
/// # Examples
///
/// ```
/// fn placed(input: &[u8]) -> Result<(u8, span::Stream<&[u8]>), UnexpectedParse> {
///     spanned(token(b'a')).parse(span::Stream(input))
/// }
/// ```
///
/// On `b"ab"` it returns `b'a'`, and leaves `span::Stream(b"b")`.
#[inline]
pub fn spanned<P>(parser: P) -> Spanned<P>
    ensures { result ≡ spanned_of parser }
{
    Spanned(parser)
}
