//! The choice of one parser, and several alternatives as choices of two.

use super::{ChoiceOutputs, ChoiceParser};
use combine_base::error::{ParseResult, Tracked};
use combine_base::parser::{Outputs, ParseMode, Parser};
use combine_base::stream::Stream;
use combine_choice::or::types::Or;

/// Three alternatives as choices of two.
pub(super) type Or3<A, B, C> = Or<A, Or<B, C>>;

/// Four alternatives as choices of two.
pub(super) type Or4<A, B, C, D> = Or<Or<A, B>, Or<C, D>>;

/// Five alternatives as choices of two.
pub(super) type Or5<A, B, C, D, E> = Or<A, Or4<B, C, D, E>>;

/// Six alternatives as choices of two.
pub(super) type Or6<A, B, C, D, E, F> = Or<Or<A, B>, Or4<C, D, E, F>>;

/// Seven alternatives as choices of two.
pub(super) type Or7<A, B, C, D, E, F, G> = Or<Or3<A, B, C>, Or4<D, E, F, G>>;

/// Eight alternatives as choices of two.
pub(super) type Or8<A, B, C, D, E, F, G, H> = Or<Or4<A, B, C, D>, Or4<E, F, G, H>>;

impl<Input, A: Outputs<Input>> ChoiceOutputs<Input> for (A,) {
    type Output = A::Output;
}

/// The choice of one parser is that parser.
impl<Input: Stream, A: Parser<Input>> ChoiceParser<Input> for (A,) {
    type PartialState = A::PartialState;

    ghost lawful = { λ p. A.lawful p.0 };

    ghost determined = { λ p. A.determined p.0 };

    ghost valid = { A.valid };

    ghost meaning = { λ p. A.meaning p.0 };

    ghost default_valid = { A.default_valid };

    ghost laws = { λ p l. A.laws p.0 l };

    ghost single = { λ p l d. A.single p.0 l d };

    #[inline(always)]
    fn parse_mode_choice<M: ParseMode>(
        &mut self,
        mode: M,
        input: &mut Input,
        state: &mut A::PartialState,
    ) -> ParseResult<A::Output, Input::Error> {
        self.0.parse_mode(mode, input, state)
    }

    fn add_error_choice(&mut self, error: &mut Tracked<Input::Error>) {
        self.0.add_error(error)
    }
}
