//! Choices over the parsers of a tuple of 2 to 8. Written by trials/widths: not to be edited by hand.

use super::single::{Or3, Or4, Or5, Or6, Or7, Or8};
use super::{ChoiceOutputs, ChoiceParser};
use combine_base::error::{ParseResult, Tracked};
use combine_base::parser::{Outputs, ParseMode, Parser};
use combine_base::stream::Stream;
use combine_choice::or::alternatives::{Alternatives, FirstHalf};
use combine_choice::or::types::Or;

impl<Input, A: Outputs<Input>, B> ChoiceOutputs<Input> for (A, B) {
    type Output = A::Output;
}

impl<Input: Stream, A: Parser<Input>, B: Parser<Input, Output = A::Output>> ChoiceParser<Input>
    for (A, B) {
    ghost use Rattle.std.specs.Prelude.{◌≡◌};
    ghost use Rattle.combine_choice.specs.declared.or.OrState.TheVariants.{Peek};
    ghost use Rattle.combine_choices.specs.NestedChoice.{nest_laws, nest_one, or_2};

    type PartialState = <Or<A, B> as Parser<Input>>::PartialState;

    ghost lawful = { λ p. ⟦<Or<A, B> as Parser<Input>>⟧.lawful (or_2 p) };

    ghost determined = { λ p. ⟦<Or<A, B> as Parser<Input>>⟧.determined (or_2 p) };

    ghost valid = { ⟦<Or<A, B> as Parser<Input>>⟧.valid };

    ghost meaning = { λ p. ⟦<Or<A, B> as Parser<Input>>⟧.meaning (or_2 p) };

    ghost default_valid = { λ s d. rw d tt };

    ghost laws = { λ p l. nest_laws (A.laws p.0 l.0) (B.laws p.1 l.1) };

    ghost single = { λ p l d. nest_one (A.single p.0 l.0 d.0) (B.single p.1 l.1 d.1) };

    #[inline(always)]
    fn parse_mode_choice<M: ParseMode>(
        &mut self,
        mode: M,
        input: &mut Input,
        state: &mut Self::PartialState,
    ) -> ParseResult<A::Output, Input::Error> {
        let mut halves = (&mut self.0, &mut self.1);
        halves.choose::<_, FirstHalf>(mode, input, state)
    }

    fn add_error_choice(&mut self, error: &mut Tracked<Input::Error>) {
        self.0.add_error(error);
        self.1.add_error(error);
    }
}

impl<Input, A: Outputs<Input>, B, C> ChoiceOutputs<Input> for (A, B, C) {
    type Output = A::Output;
}

impl<
    Input: Stream,
    A: Parser<Input>,
    B: Parser<Input, Output = A::Output>,
    C: Parser<Input, Output = A::Output>,
> ChoiceParser<Input> for (A, B, C) {
    ghost use Rattle.std.specs.Prelude.{◌≡◌};
    ghost use Rattle.combine_choice.specs.declared.or.OrState.TheVariants.{Peek};
    ghost use Rattle.combine_choices.specs.NestedChoice.{nest_laws, nest_one, or_3};

    type PartialState = <Or3<A, B, C> as Parser<Input>>::PartialState;

    ghost lawful = { λ p. ⟦<Or3<A, B, C> as Parser<Input>>⟧.lawful (or_3 p) };

    ghost determined = { λ p. ⟦<Or3<A, B, C> as Parser<Input>>⟧.determined (or_3 p) };

    ghost valid = { ⟦<Or3<A, B, C> as Parser<Input>>⟧.valid };

    ghost meaning = { λ p. ⟦<Or3<A, B, C> as Parser<Input>>⟧.meaning (or_3 p) };

    ghost default_valid = { λ s d. rw d tt };

    ghost laws = { λ p l. nest_laws (A.laws p.0 l.0) (nest_laws (B.laws p.1 l.1.0) (C.laws p.2 l.1.1)) };

    ghost single = { λ p l d. nest_one (A.single p.0 l.0 d.0) (nest_one (B.single p.1 l.1.0 d.1.0) (C.single p.2 l.1.1 d.1.1)) };

    #[inline(always)]
    fn parse_mode_choice<M: ParseMode>(
        &mut self,
        mode: M,
        input: &mut Input,
        state: &mut Self::PartialState,
    ) -> ParseResult<A::Output, Input::Error> {
        let mut halves = (&mut self.0, (&mut self.1, &mut self.2));
        halves.choose::<_, FirstHalf>(mode, input, state)
    }

    fn add_error_choice(&mut self, error: &mut Tracked<Input::Error>) {
        self.0.add_error(error);
        self.1.add_error(error);
        self.2.add_error(error);
    }
}

impl<Input, A: Outputs<Input>, B, C, D> ChoiceOutputs<Input> for (A, B, C, D) {
    type Output = A::Output;
}

impl<
    Input: Stream,
    A: Parser<Input>,
    B: Parser<Input, Output = A::Output>,
    C: Parser<Input, Output = A::Output>,
    D: Parser<Input, Output = A::Output>,
> ChoiceParser<Input> for (A, B, C, D) {
    ghost use Rattle.std.specs.Prelude.{◌≡◌};
    ghost use Rattle.combine_choice.specs.declared.or.OrState.TheVariants.{Peek};
    ghost use Rattle.combine_choices.specs.NestedChoice.{nest_laws, nest_one, or_4};

    type PartialState = <Or4<A, B, C, D> as Parser<Input>>::PartialState;

    ghost lawful = { λ p. ⟦<Or4<A, B, C, D> as Parser<Input>>⟧.lawful (or_4 p) };

    ghost determined = { λ p. ⟦<Or4<A, B, C, D> as Parser<Input>>⟧.determined (or_4 p) };

    ghost valid = { ⟦<Or4<A, B, C, D> as Parser<Input>>⟧.valid };

    ghost meaning = { λ p. ⟦<Or4<A, B, C, D> as Parser<Input>>⟧.meaning (or_4 p) };

    ghost default_valid = { λ s d. rw d tt };

    ghost laws = { λ p l. nest_laws (nest_laws (A.laws p.0 l.0.0) (B.laws p.1 l.0.1)) (nest_laws (C.laws p.2 l.1.0) (D.laws p.3 l.1.1)) };

    ghost single = { λ p l d. nest_one (nest_one (A.single p.0 l.0.0 d.0.0) (B.single p.1 l.0.1 d.0.1)) (nest_one (C.single p.2 l.1.0 d.1.0) (D.single p.3 l.1.1 d.1.1)) };

    #[inline(always)]
    fn parse_mode_choice<M: ParseMode>(
        &mut self,
        mode: M,
        input: &mut Input,
        state: &mut Self::PartialState,
    ) -> ParseResult<A::Output, Input::Error> {
        let mut halves = ((&mut self.0, &mut self.1), (&mut self.2, &mut self.3));
        halves.choose::<_, FirstHalf>(mode, input, state)
    }

    fn add_error_choice(&mut self, error: &mut Tracked<Input::Error>) {
        self.0.add_error(error);
        self.1.add_error(error);
        self.2.add_error(error);
        self.3.add_error(error);
    }
}

impl<Input, A: Outputs<Input>, B, C, D, E> ChoiceOutputs<Input> for (A, B, C, D, E) {
    type Output = A::Output;
}

impl<
    Input: Stream,
    A: Parser<Input>,
    B: Parser<Input, Output = A::Output>,
    C: Parser<Input, Output = A::Output>,
    D: Parser<Input, Output = A::Output>,
    E: Parser<Input, Output = A::Output>,
> ChoiceParser<Input> for (A, B, C, D, E) {
    ghost use Rattle.std.specs.Prelude.{◌≡◌};
    ghost use Rattle.combine_choice.specs.declared.or.OrState.TheVariants.{Peek};
    ghost use Rattle.combine_choices.specs.NestedChoice.{nest_laws, nest_one, or_5};

    type PartialState = <Or5<A, B, C, D, E> as Parser<Input>>::PartialState;

    ghost lawful = { λ p. ⟦<Or5<A, B, C, D, E> as Parser<Input>>⟧.lawful (or_5 p) };

    ghost determined = { λ p. ⟦<Or5<A, B, C, D, E> as Parser<Input>>⟧.determined (or_5 p) };

    ghost valid = { ⟦<Or5<A, B, C, D, E> as Parser<Input>>⟧.valid };

    ghost meaning = { λ p. ⟦<Or5<A, B, C, D, E> as Parser<Input>>⟧.meaning (or_5 p) };

    ghost default_valid = { λ s d. rw d tt };

    ghost laws = { λ p l. nest_laws (A.laws p.0 l.0) (nest_laws (nest_laws (B.laws p.1 l.1.0.0) (C.laws p.2 l.1.0.1)) (nest_laws (D.laws p.3 l.1.1.0) (E.laws p.4 l.1.1.1))) };

    ghost single = { λ p l d. nest_one (A.single p.0 l.0 d.0) (nest_one (nest_one (B.single p.1 l.1.0.0 d.1.0.0) (C.single p.2 l.1.0.1 d.1.0.1)) (nest_one (D.single p.3 l.1.1.0 d.1.1.0) (E.single p.4 l.1.1.1 d.1.1.1))) };

    #[inline(always)]
    fn parse_mode_choice<M: ParseMode>(
        &mut self,
        mode: M,
        input: &mut Input,
        state: &mut Self::PartialState,
    ) -> ParseResult<A::Output, Input::Error> {
        let mut halves = (
            &mut self.0,
            ((&mut self.1, &mut self.2), (&mut self.3, &mut self.4)),
        );
        halves.choose::<_, FirstHalf>(mode, input, state)
    }

    fn add_error_choice(&mut self, error: &mut Tracked<Input::Error>) {
        self.0.add_error(error);
        self.1.add_error(error);
        self.2.add_error(error);
        self.3.add_error(error);
        self.4.add_error(error);
    }
}

impl<Input, A: Outputs<Input>, B, C, D, E, F> ChoiceOutputs<Input> for (A, B, C, D, E, F) {
    type Output = A::Output;
}

impl<
    Input: Stream,
    A: Parser<Input>,
    B: Parser<Input, Output = A::Output>,
    C: Parser<Input, Output = A::Output>,
    D: Parser<Input, Output = A::Output>,
    E: Parser<Input, Output = A::Output>,
    F: Parser<Input, Output = A::Output>,
> ChoiceParser<Input> for (A, B, C, D, E, F) {
    ghost use Rattle.std.specs.Prelude.{◌≡◌};
    ghost use Rattle.combine_choice.specs.declared.or.OrState.TheVariants.{Peek};
    ghost use Rattle.combine_choices.specs.NestedChoice.{nest_laws, nest_one, or_6};

    type PartialState = <Or6<A, B, C, D, E, F> as Parser<Input>>::PartialState;

    ghost lawful = { λ p. ⟦<Or6<A, B, C, D, E, F> as Parser<Input>>⟧.lawful (or_6 p) };

    ghost determined = { λ p. ⟦<Or6<A, B, C, D, E, F> as Parser<Input>>⟧.determined (or_6 p) };

    ghost valid = { ⟦<Or6<A, B, C, D, E, F> as Parser<Input>>⟧.valid };

    ghost meaning = { λ p. ⟦<Or6<A, B, C, D, E, F> as Parser<Input>>⟧.meaning (or_6 p) };

    ghost default_valid = { λ s d. rw d tt };

    ghost laws = { λ p l. nest_laws (nest_laws (A.laws p.0 l.0.0) (B.laws p.1 l.0.1)) (nest_laws (nest_laws (C.laws p.2 l.1.0.0) (D.laws p.3 l.1.0.1)) (nest_laws (E.laws p.4 l.1.1.0) (F.laws p.5 l.1.1.1))) };

    ghost single = { λ p l d. nest_one (nest_one (A.single p.0 l.0.0 d.0.0) (B.single p.1 l.0.1 d.0.1)) (nest_one (nest_one (C.single p.2 l.1.0.0 d.1.0.0) (D.single p.3 l.1.0.1 d.1.0.1)) (nest_one (E.single p.4 l.1.1.0 d.1.1.0) (F.single p.5 l.1.1.1 d.1.1.1))) };

    #[inline(always)]
    fn parse_mode_choice<M: ParseMode>(
        &mut self,
        mode: M,
        input: &mut Input,
        state: &mut Self::PartialState,
    ) -> ParseResult<A::Output, Input::Error> {
        let mut halves = (
            (&mut self.0, &mut self.1),
            ((&mut self.2, &mut self.3), (&mut self.4, &mut self.5)),
        );
        halves.choose::<_, FirstHalf>(mode, input, state)
    }

    fn add_error_choice(&mut self, error: &mut Tracked<Input::Error>) {
        self.0.add_error(error);
        self.1.add_error(error);
        self.2.add_error(error);
        self.3.add_error(error);
        self.4.add_error(error);
        self.5.add_error(error);
    }
}

impl<Input, A: Outputs<Input>, B, C, D, E, F, G> ChoiceOutputs<Input> for (A, B, C, D, E, F, G) {
    type Output = A::Output;
}

impl<
    Input: Stream,
    A: Parser<Input>,
    B: Parser<Input, Output = A::Output>,
    C: Parser<Input, Output = A::Output>,
    D: Parser<Input, Output = A::Output>,
    E: Parser<Input, Output = A::Output>,
    F: Parser<Input, Output = A::Output>,
    G: Parser<Input, Output = A::Output>,
> ChoiceParser<Input> for (A, B, C, D, E, F, G) {
    ghost use Rattle.std.specs.Prelude.{◌≡◌};
    ghost use Rattle.combine_choice.specs.declared.or.OrState.TheVariants.{Peek};
    ghost use Rattle.combine_choices.specs.NestedChoice.{nest_laws, nest_one, nest_one_4, or_7};

    type PartialState = <Or7<A, B, C, D, E, F, G> as Parser<Input>>::PartialState;

    ghost lawful = { λ p. ⟦<Or7<A, B, C, D, E, F, G> as Parser<Input>>⟧.lawful (or_7 p) };

    ghost determined = { λ p. ⟦<Or7<A, B, C, D, E, F, G> as Parser<Input>>⟧.determined (or_7 p) };

    ghost valid = { ⟦<Or7<A, B, C, D, E, F, G> as Parser<Input>>⟧.valid };

    ghost meaning = { λ p. ⟦<Or7<A, B, C, D, E, F, G> as Parser<Input>>⟧.meaning (or_7 p) };

    ghost default_valid = { λ s d. rw d tt };

    ghost laws = { λ p l. nest_laws (nest_laws (A.laws p.0 l.0.0) (nest_laws (B.laws p.1 l.0.1.0) (C.laws p.2 l.0.1.1))) (nest_laws (nest_laws (D.laws p.3 l.1.0.0) (E.laws p.4 l.1.0.1)) (nest_laws (F.laws p.5 l.1.1.0) (G.laws p.6 l.1.1.1))) };

    ghost single = { λ p l d. nest_one (nest_one (A.single p.0 l.0.0 d.0.0) (nest_one (B.single p.1 l.0.1.0 d.0.1.0) (C.single p.2 l.0.1.1 d.0.1.1))) (nest_one_4 (D.single p.3 l.1.0.0 d.1.0.0) (E.single p.4 l.1.0.1 d.1.0.1) (F.single p.5 l.1.1.0 d.1.1.0) (G.single p.6 l.1.1.1 d.1.1.1)) };

    #[inline(always)]
    fn parse_mode_choice<M: ParseMode>(
        &mut self,
        mode: M,
        input: &mut Input,
        state: &mut Self::PartialState,
    ) -> ParseResult<A::Output, Input::Error> {
        let mut halves = (
            (&mut self.0, (&mut self.1, &mut self.2)),
            ((&mut self.3, &mut self.4), (&mut self.5, &mut self.6)),
        );
        halves.choose::<_, FirstHalf>(mode, input, state)
    }

    fn add_error_choice(&mut self, error: &mut Tracked<Input::Error>) {
        self.0.add_error(error);
        self.1.add_error(error);
        self.2.add_error(error);
        self.3.add_error(error);
        self.4.add_error(error);
        self.5.add_error(error);
        self.6.add_error(error);
    }
}

impl<Input, A: Outputs<Input>, B, C, D, E, F, G, H> ChoiceOutputs<Input>
    for (A, B, C, D, E, F, G, H) {
    type Output = A::Output;
}

impl<
    Input: Stream,
    A: Parser<Input>,
    B: Parser<Input, Output = A::Output>,
    C: Parser<Input, Output = A::Output>,
    D: Parser<Input, Output = A::Output>,
    E: Parser<Input, Output = A::Output>,
    F: Parser<Input, Output = A::Output>,
    G: Parser<Input, Output = A::Output>,
    H: Parser<Input, Output = A::Output>,
> ChoiceParser<Input> for (A, B, C, D, E, F, G, H) {
    ghost use Rattle.std.specs.Prelude.{◌≡◌};
    ghost use Rattle.combine_choice.specs.declared.or.OrState.TheVariants.{Peek};
    ghost use Rattle.combine_choices.specs.NestedChoice.{nest_laws, nest_one_8, or_8};

    type PartialState = <Or8<A, B, C, D, E, F, G, H> as Parser<Input>>::PartialState;

    ghost lawful = { λ p. ⟦<Or8<A, B, C, D, E, F, G, H> as Parser<Input>>⟧.lawful (or_8 p) };

    ghost determined = { λ p. ⟦<Or8<A, B, C, D, E, F, G, H> as Parser<Input>>⟧.determined (or_8 p) };

    ghost valid = { ⟦<Or8<A, B, C, D, E, F, G, H> as Parser<Input>>⟧.valid };

    ghost meaning = { λ p. ⟦<Or8<A, B, C, D, E, F, G, H> as Parser<Input>>⟧.meaning (or_8 p) };

    ghost default_valid = { λ s d. rw d tt };

    ghost laws = { λ p l. nest_laws (nest_laws (nest_laws (A.laws p.0 l.0.0.0) (B.laws p.1 l.0.0.1)) (nest_laws (C.laws p.2 l.0.1.0) (D.laws p.3 l.0.1.1))) (nest_laws (nest_laws (E.laws p.4 l.1.0.0) (F.laws p.5 l.1.0.1)) (nest_laws (G.laws p.6 l.1.1.0) (H.laws p.7 l.1.1.1))) };

    ghost single = { λ p l d. nest_one_8 (A.single p.0 l.0.0.0 d.0.0.0) (B.single p.1 l.0.0.1 d.0.0.1) (C.single p.2 l.0.1.0 d.0.1.0) (D.single p.3 l.0.1.1 d.0.1.1) (E.single p.4 l.1.0.0 d.1.0.0) (F.single p.5 l.1.0.1 d.1.0.1) (G.single p.6 l.1.1.0 d.1.1.0) (H.single p.7 l.1.1.1 d.1.1.1) };

    #[inline(always)]
    fn parse_mode_choice<M: ParseMode>(
        &mut self,
        mode: M,
        input: &mut Input,
        state: &mut Self::PartialState,
    ) -> ParseResult<A::Output, Input::Error> {
        let mut halves = (
            ((&mut self.0, &mut self.1), (&mut self.2, &mut self.3)),
            ((&mut self.4, &mut self.5), (&mut self.6, &mut self.7)),
        );
        halves.choose::<_, FirstHalf>(mode, input, state)
    }

    fn add_error_choice(&mut self, error: &mut Tracked<Input::Error>) {
        self.0.add_error(error);
        self.1.add_error(error);
        self.2.add_error(error);
        self.3.add_error(error);
        self.4.add_error(error);
        self.5.add_error(error);
        self.6.add_error(error);
        self.7.add_error(error);
    }
}
