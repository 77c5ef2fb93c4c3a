//! The errors of peeked refusals.
ghost use Rattle.std.specs.Prelude.{◌≡◌};

/// A number of parsers, at most 255, as `parser_count` returns it.
///
/// As the `offset` of an error it is carried along, and no parser decides by it. In the crate it tells a sequence which of its parts has to explain itself.
#[derive(Clone, Copy, Debug, PartialEq, Eq)]
pub struct ErrorOffset(pub u8);

/// The error of a peeked refusal, with an offset, which `From` makes 1.
#[derive(Drop)]
pub struct Tracked<E> {
    /// The error.
    pub error: E,
    /// Carried along; no parser decides by it.
    pub offset: ErrorOffset,
}

impl<E> From<E> for Tracked<E> {
    fn from(error: E) -> Self
        ensures { result ≡ record { error = error; offset = record { 0 = 1 } } }
    {
        Tracked {
            error,
            offset: ErrorOffset(1),
        }
    }
}
