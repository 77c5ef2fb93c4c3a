//! A parser that says nothing of what it expects.
ghost use Rattle.std.specs.Prelude.{◌≡◌};
ghost use Rattle.combine_until.specs.Mute.{mute, mute_is_meaning, mute_means_one};
ghost use Rattle.combine_until.specs.UntilParsers.{mute_of, muted_part};

use combine_base::error::{ErrorOffset, ParseResult, Tracked};
use combine_base::parser::{Outputs, ParseMode, Parser};
use combine_base::stream::Stream;

/// As its part, but that it adds nothing to errors. Our own.
#[derive(Clone, Copy, Drop)]
pub struct Mute<P> {
    part: P,
}

impl<P> Mute<P> {
    /// Returns the parser of this part.
    #[inline]
    pub(crate) fn new(part: P) -> Self
        ensures { result ≡ mute_of part }
    {
        Mute { part }
    }
}

impl<Input, P: Outputs<Input>> Outputs<Input> for Mute<P> {
    type Output = P::Output;
}

impl<Input: Stream, P: Parser<Input>> Parser<Input> for Mute<P> {
    type PartialState = P::PartialState;

    ghost lawful = { λ p. P.lawful (muted_part p) };

    ghost determined = { λ p. P.determined (muted_part p) };

    ghost valid = { P.valid };

    ghost meaning = { λ p. mute (P.meaning (muted_part p)) };

    ghost default_valid = { P.default_valid };

    ghost laws = { λ p l. mute_is_meaning P.PartialState.is_default P.valid (P.meaning (muted_part p)) (P.laws (muted_part p) l) };

    ghost single = { λ p l d. mute_means_one P.valid (P.meaning (muted_part p)) (P.single (muted_part p) l d) };

    #[inline(always)]
    fn parse_mode<M: ParseMode>(
        &mut self,
        mode: M,
        input: &mut Input,
        state: &mut Self::PartialState,
    ) -> ParseResult<P::Output, Input::Error> {
        self.part.parse_mode(mode, input, state)
    }

    /// Adds nothing.
    fn add_error(&mut self, error: &mut Tracked<Input::Error>) {}

    fn parser_count(&self) -> ErrorOffset {
        ErrorOffset(1)
    }
}
