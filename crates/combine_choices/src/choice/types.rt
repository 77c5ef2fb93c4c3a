//! The parsers that the functions of `choice` return.

use super::{ChoiceOutputs, ChoiceParser};
use combine_base::error::{ErrorOffset, ParseResult, Tracked};
use combine_base::parser::{Outputs, ParseMode, Parser};
use combine_base::stream::Stream;
pub use combine_choice::or::types::{Optional, Or};

/// The parser of [`choice`](crate::choice::choice).
#[derive(Clone, Copy, Drop)]
pub struct Choice<P>(pub(super) P);

impl<Input, P: ChoiceOutputs<Input>> Outputs<Input> for Choice<P> {
    type Output = P::Output;
}

impl<Input: Stream, P: ChoiceParser<Input>> Parser<Input> for Choice<P> {
    type PartialState = P::PartialState;

    ghost lawful = { λ p. P.lawful p.0 };

    ghost determined = { λ p. P.determined p.0 };

    ghost valid = { P.valid };

    ghost meaning = { λ p. P.meaning p.0 };

    ghost default_valid = { P.default_valid };

    ghost laws = { λ p l. P.laws p.0 l };

    ghost single = { λ p l d. P.single p.0 l d };

    #[inline(always)]
    fn parse_mode<M: ParseMode>(
        &mut self,
        mode: M,
        input: &mut Input,
        state: &mut P::PartialState,
    ) -> ParseResult<P::Output, Input::Error> {
        self.0.parse_mode_choice(mode, input, state)
    }

    /// Adds what the alternatives add, in order.
    fn add_error(&mut self, error: &mut Tracked<Input::Error>) {
        self.0.add_error_choice(error)
    }

    /// Counts as one parser.
    fn parser_count(&self) -> ErrorOffset {
        ErrorOffset(1)
    }
}
