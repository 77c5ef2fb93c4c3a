//! The parsers that the functions of `choice` return.
ghost use Rattle.std.specs.Prelude.{◌≡◌};
ghost use Rattle.combine_choice.specs.Choice.Alternatives.{both_merged};
ghost use Rattle.combine_choice.specs.Choice.Optional.{optional, optional_is_meaning, optional_means_one};
ghost use Rattle.combine_choice.specs.Choice.Or.{either_of, or_is_meaning, or_means_one, or_valid};

use super::OrState;
use super::alternatives::{Alternatives, FirstHalf};
use combine_base::error::{ErrorOffset, ParseResult, Tracked};
use combine_base::parser::{Outputs, ParseMode, Parser};
use combine_base::stream::Stream;

/// The parser of [`or`](crate::or::or).
#[derive(Clone, Copy, Drop)]
pub struct Or<P, Q>(pub(super) P, pub(super) Q);

impl<Input, P: Outputs<Input>, Q> Outputs<Input> for Or<P, Q> {
    type Output = P::Output;
}

impl<Input: Stream, P: Parser<Input>, Q: Parser<Input, Output = P::Output>> Parser<Input>
    for Or<P, Q> {
    type PartialState = OrState<P::PartialState, Q::PartialState>;

    ghost lawful = { λ p. P.lawful p.0 × Q.lawful p.1 };

    ghost determined = { λ p. P.determined p.0 × Q.determined p.1 };

    ghost valid = { or_valid P.valid Q.valid };

    ghost meaning = { λ p. either_of (both_merged Input.Error.observers Input.Position.cmp) (P.meaning p.0) (Q.meaning p.1) };

    ghost default_valid = { λ s d. rw d tt };

    ghost laws = { λ p l. or_is_meaning (both_merged Input.Error.observers Input.Position.cmp) P.PartialState.is_default P.valid Q.PartialState.is_default Q.valid _ _ (P.laws p.0 l.0) (Q.laws p.1 l.1) };

    ghost single = { λ p l d. or_means_one (both_merged Input.Error.observers Input.Position.cmp) P.PartialState.is_default P.valid Q.PartialState.is_default Q.valid _ _ (P.single p.0 l.0 d.0) (Q.single p.1 l.1 d.1) };

    #[inline(always)]
    fn parse_mode<M: ParseMode>(
        &mut self,
        mode: M,
        input: &mut Input,
        state: &mut Self::PartialState,
    ) -> ParseResult<P::Output, Input::Error> {
        let mut halves = (&mut self.0, &mut self.1);
        halves.choose::<_, FirstHalf>(mode, input, state)
    }

    /// Adds what the first adds, and then what the second does.
    fn add_error(&mut self, error: &mut Tracked<Input::Error>) {
        self.0.add_error(error);
        self.1.add_error(error);
    }

    /// Counts as one parser.
    fn parser_count(&self) -> ErrorOffset {
        ErrorOffset(1)
    }
}

/// The parser of [`optional`](crate::or::optional).
#[derive(Clone, Copy, Drop)]
pub struct Optional<P>(pub P);

impl<Input, P: Outputs<Input>> Outputs<Input> for Optional<P> {
    type Output = Option<P::Output>;
}

impl<Input: Stream, P: Parser<Input>> Parser<Input> for Optional<P> {
    type PartialState = P::PartialState;

    ghost lawful = { λ p. P.lawful p.0 };

    ghost determined = { λ p. P.determined p.0 };

    ghost valid = { P.valid };

    ghost meaning = { λ p. optional (P.meaning p.0) };

    ghost parts = { λ p. P.parts p.0 };

    ghost default_valid = { P.default_valid };

    ghost laws = { λ p l. optional_is_meaning _ P.valid (P.meaning p.0) (P.laws p.0 l) };

    ghost single = { λ p l d. optional_means_one P.valid (P.meaning p.0) (P.single p.0 l d) };

    #[inline(always)]
    fn parse_mode<M: ParseMode>(
        &mut self,
        mode: M,
        input: &mut Input,
        state: &mut Self::PartialState,
    ) -> ParseResult<Option<P::Output>, Input::Error> {
        let start = input.checkpoint();
        let position = input.position();
        match self.0.parse_mode(mode, input, state) {
            ParseResult::CommitOk(value) => ParseResult::CommitOk(Some(value)),
            ParseResult::PeekOk(value) => ParseResult::PeekOk(Some(value)),
            ParseResult::CommitErr(error) => ParseResult::CommitErr(error),
            ParseResult::PeekErr(_refused) => match input.reset(start) {
                Ok(()) => ParseResult::PeekOk(None),
                Err(kind) => ParseResult::CommitErr(input.new_error(kind, position)),
            },
        }
    }

    /// Adds what the parser adds.
    fn add_error(&mut self, error: &mut Tracked<Input::Error>) {
        self.0.add_error(error)
    }

    /// Counts as the parser does.
    fn parser_count(&self) -> ErrorOffset {
        self.0.parser_count()
    }
}
