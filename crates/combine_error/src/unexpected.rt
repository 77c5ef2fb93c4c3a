//! Parsers that always refuse.
ghost use Rattle.std.specs.Prelude.{◌≡◌};
ghost use Rattle.combine_error.specs.Unexpected.{unexpected_of};

pub mod types;

use combine_base::error::Info;
use combine_base::stream::StreamOnce;
use std::marker::PhantomData;
use types::Unexpected;

/// Refuses everywhere, peeked, and reads nothing.
///
/// Its value would be `()`.
///
/// # Errors
///
/// They say that this was not expected.
///
/// # Examples
///
/// ```
/// fn only_a(input: &[u8]) -> Result<(u8, &[u8]), UnexpectedParse> {
///     or(token(b'a'), unexpected_any("another letter")).parse(input)
/// }
/// ```
///
/// On `b"a"` it returns `(b'a', b"")`; `b"b"` is refused peeked.
pub fn unexpected<Input: StreamOnce, S: Into<Info<Input::Token, Input::Range>>>(
    message: S,
) -> Unexpected<Input, (), Info<Input::Token, Input::Range>>
    ensures { (i : _) × S.converts message i × (result ≡ unexpected_of i) }
{
    unexpected_any(message)
}

/// Refuses as `unexpected` does, with whatever value the place asks for.
pub fn unexpected_any<Input: StreamOnce, S: Into<Info<Input::Token, Input::Range>>, V>(
    message: S,
) -> Unexpected<Input, V, Info<Input::Token, Input::Range>>
    ensures { (i : _) × S.converts message i × (result ≡ unexpected_of i) }
{
    Unexpected {
        info: message.into(),
        reads: PhantomData,
        value: PhantomData,
    }
}
