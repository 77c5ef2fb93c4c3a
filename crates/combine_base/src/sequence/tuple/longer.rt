//! Tuples of five to eight as parsers: each is a tuple of references to the parts before its last one, and then that one. Written by trials/widths: not to be edited by hand.
ghost use Rattle.std.specs.Prelude.{◌≡◌, ◌+◌, min, true};
ghost use Rattle.combine_base.specs.Sequence.Longer.{begins_valid_5, begins_valid_6, begins_valid_7, begins_valid_8, tuple_5, tuple_5_is_meaning, tuple_5_means_one, tuple_6, tuple_6_is_meaning, tuple_6_means_one, tuple_7, tuple_7_is_meaning, tuple_7_means_one, tuple_8, tuple_8_is_meaning, tuple_8_means_one, valid_5, valid_6, valid_7, valid_8};

mod front;
mod more;

use crate::error::{ErrorOffset, ParseResult, Tracked};
use crate::parser::{Outputs, ParseMode, Parser};
use crate::sequence::part::take_state;
use crate::sequence::tuple::add_counts;
use crate::sequence::{PartialState5, PartialState6, PartialState7, PartialState8, SequenceState};
use crate::stream::Stream;
use more::{parse_with_four_more, parse_with_one_more, parse_with_three_more, parse_with_two_more};

type State5<Input, A, B, C, D, E> = PartialState5<
    SequenceState<(), <A as Parser<Input>>::PartialState>,
    SequenceState<(<A as Outputs<Input>>::Output,), <B as Parser<Input>>::PartialState>,
    SequenceState<
        (<A as Outputs<Input>>::Output, <B as Outputs<Input>>::Output),
        <C as Parser<Input>>::PartialState,
    >,
    SequenceState<
        (
            <A as Outputs<Input>>::Output,
            <B as Outputs<Input>>::Output,
            <C as Outputs<Input>>::Output,
        ),
        <D as Parser<Input>>::PartialState,
    >,
    SequenceState<
        (
            <A as Outputs<Input>>::Output,
            <B as Outputs<Input>>::Output,
            <C as Outputs<Input>>::Output,
            <D as Outputs<Input>>::Output,
        ),
        <E as Parser<Input>>::PartialState,
    >,
>;

impl<
    Input,
    A: Outputs<Input>,
    B: Outputs<Input>,
    C: Outputs<Input>,
    D: Outputs<Input>,
    E: Outputs<Input>,
> Outputs<Input> for (A, B, C, D, E) {
    type Output = (A::Output, B::Output, C::Output, D::Output, E::Output);
}

impl<
    Input: Stream,
    A: Parser<Input>,
    B: Parser<Input>,
    C: Parser<Input>,
    D: Parser<Input>,
    E: Parser<Input>,
> Parser<Input> for (A, B, C, D, E) {
    type PartialState = State5<Input, A, B, C, D, E>;

    ghost lawful = { λ p. A.lawful p.0 × B.lawful p.1 × C.lawful p.2 × D.lawful p.3 × E.lawful p.4 };

    ghost determined = { λ p. A.determined p.0 × B.determined p.1 × C.determined p.2 × D.determined p.3 × E.determined p.4 };

    ghost valid = { valid_5 A.valid B.valid C.valid D.valid E.valid };

    ghost meaning = { λ p. tuple_5 Input.step Input.Error.observers (A.meaning p.0) (B.meaning p.1) (C.meaning p.2) (D.meaning p.3) (E.meaning p.4) };

    ghost parts = { λ p. min (A.parts p.0 + B.parts p.1 + C.parts p.2 + D.parts p.3 + E.parts p.4) 255 };

    #[inline(always)]
    fn parse_mode<M: ParseMode>(
        &mut self,
        mode: M,
        input: &mut Input,
        state: &mut Self::PartialState,
    ) -> ParseResult<Self::Output, Input::Error> {
        let from = take_state(mode, state);
        let mut before = (&mut self.0, &mut self.1, &mut self.2, &mut self.3);
        parse_with_one_more(&mut before, &mut self.4, mode, input, from, state)
    }

    #[inline]
    fn add_error(&mut self, error: &mut Tracked<Input::Error>) {
        self.0.add_error(error);
    }

    #[inline]
    fn parser_count(&self) -> ErrorOffset {
        add_counts(
            add_counts(
                add_counts(
                    add_counts(self.0.parser_count(), self.1.parser_count()),
                    self.2.parser_count(),
                ),
                self.3.parser_count(),
            ),
            self.4.parser_count(),
        )
    }

    ghost default_valid = { begins_valid_5 B.valid C.valid D.valid E.valid A.default_valid };

    ghost laws = { λ p l. tuple_5_is_meaning Input.step Input.Error.observers (A.laws p.0 l.0) (B.laws p.1 l.1) (C.laws p.2 l.2) (D.laws p.3 l.3) (E.laws p.4 l.4) };

    ghost single = { λ p l d. tuple_5_means_one Input.step Input.Error.observers (A.single p.0 l.0 d.0) (B.single p.1 l.1 d.1) (C.single p.2 l.2 d.2) (D.single p.3 l.3 d.3) (E.single p.4 l.4 d.4) };
}

type State6<Input, A, B, C, D, E, F> = PartialState6<
    SequenceState<(), <A as Parser<Input>>::PartialState>,
    SequenceState<(<A as Outputs<Input>>::Output,), <B as Parser<Input>>::PartialState>,
    SequenceState<
        (<A as Outputs<Input>>::Output, <B as Outputs<Input>>::Output),
        <C as Parser<Input>>::PartialState,
    >,
    SequenceState<
        (
            <A as Outputs<Input>>::Output,
            <B as Outputs<Input>>::Output,
            <C as Outputs<Input>>::Output,
        ),
        <D as Parser<Input>>::PartialState,
    >,
    SequenceState<
        (
            <A as Outputs<Input>>::Output,
            <B as Outputs<Input>>::Output,
            <C as Outputs<Input>>::Output,
            <D as Outputs<Input>>::Output,
        ),
        <E as Parser<Input>>::PartialState,
    >,
    SequenceState<
        (
            <A as Outputs<Input>>::Output,
            <B as Outputs<Input>>::Output,
            <C as Outputs<Input>>::Output,
            <D as Outputs<Input>>::Output,
            <E as Outputs<Input>>::Output,
        ),
        <F as Parser<Input>>::PartialState,
    >,
>;

impl<
    Input,
    A: Outputs<Input>,
    B: Outputs<Input>,
    C: Outputs<Input>,
    D: Outputs<Input>,
    E: Outputs<Input>,
    F: Outputs<Input>,
> Outputs<Input> for (A, B, C, D, E, F) {
    type Output = (
        A::Output,
        B::Output,
        C::Output,
        D::Output,
        E::Output,
        F::Output,
    );
}

impl<
    Input: Stream,
    A: Parser<Input>,
    B: Parser<Input>,
    C: Parser<Input>,
    D: Parser<Input>,
    E: Parser<Input>,
    F: Parser<Input>,
> Parser<Input> for (A, B, C, D, E, F) {
    type PartialState = State6<Input, A, B, C, D, E, F>;

    ghost lawful = { λ p. A.lawful p.0 × B.lawful p.1 × C.lawful p.2 × D.lawful p.3 × E.lawful p.4 × F.lawful p.5 };

    ghost determined = { λ p. A.determined p.0 × B.determined p.1 × C.determined p.2 × D.determined p.3 × E.determined p.4 × F.determined p.5 };

    ghost valid = { valid_6 A.valid B.valid C.valid D.valid E.valid F.valid };

    ghost meaning = { λ p. tuple_6 Input.step Input.Error.observers (A.meaning p.0) (B.meaning p.1) (C.meaning p.2) (D.meaning p.3) (E.meaning p.4) (F.meaning p.5) };

    ghost parts = { λ p. min (A.parts p.0 + B.parts p.1 + C.parts p.2 + D.parts p.3 + E.parts p.4 + F.parts p.5) 255 };

    #[inline(always)]
    fn parse_mode<M: ParseMode>(
        &mut self,
        mode: M,
        input: &mut Input,
        state: &mut Self::PartialState,
    ) -> ParseResult<Self::Output, Input::Error> {
        let from = take_state(mode, state);
        let mut before = (&mut self.0, &mut self.1, &mut self.2, &mut self.3);
        parse_with_two_more(
            &mut before,
            &mut self.4,
            &mut self.5,
            mode,
            input,
            from,
            state,
        )
    }

    #[inline]
    fn add_error(&mut self, error: &mut Tracked<Input::Error>) {
        self.0.add_error(error);
    }

    #[inline]
    fn parser_count(&self) -> ErrorOffset {
        add_counts(
            add_counts(
                add_counts(
                    add_counts(
                        add_counts(self.0.parser_count(), self.1.parser_count()),
                        self.2.parser_count(),
                    ),
                    self.3.parser_count(),
                ),
                self.4.parser_count(),
            ),
            self.5.parser_count(),
        )
    }

    ghost default_valid = { begins_valid_6 B.valid C.valid D.valid E.valid F.valid A.default_valid };

    ghost laws = { λ p l. tuple_6_is_meaning Input.step Input.Error.observers (A.laws p.0 l.0) (B.laws p.1 l.1) (C.laws p.2 l.2) (D.laws p.3 l.3) (E.laws p.4 l.4) (F.laws p.5 l.5) };

    ghost single = { λ p l d. tuple_6_means_one Input.step Input.Error.observers (A.single p.0 l.0 d.0) (B.single p.1 l.1 d.1) (C.single p.2 l.2 d.2) (D.single p.3 l.3 d.3) (E.single p.4 l.4 d.4) (F.single p.5 l.5 d.5) };
}

type State7<Input, A, B, C, D, E, F, G> = PartialState7<
    SequenceState<(), <A as Parser<Input>>::PartialState>,
    SequenceState<(<A as Outputs<Input>>::Output,), <B as Parser<Input>>::PartialState>,
    SequenceState<
        (<A as Outputs<Input>>::Output, <B as Outputs<Input>>::Output),
        <C as Parser<Input>>::PartialState,
    >,
    SequenceState<
        (
            <A as Outputs<Input>>::Output,
            <B as Outputs<Input>>::Output,
            <C as Outputs<Input>>::Output,
        ),
        <D as Parser<Input>>::PartialState,
    >,
    SequenceState<
        (
            <A as Outputs<Input>>::Output,
            <B as Outputs<Input>>::Output,
            <C as Outputs<Input>>::Output,
            <D as Outputs<Input>>::Output,
        ),
        <E as Parser<Input>>::PartialState,
    >,
    SequenceState<
        (
            <A as Outputs<Input>>::Output,
            <B as Outputs<Input>>::Output,
            <C as Outputs<Input>>::Output,
            <D as Outputs<Input>>::Output,
            <E as Outputs<Input>>::Output,
        ),
        <F as Parser<Input>>::PartialState,
    >,
    SequenceState<
        (
            <A as Outputs<Input>>::Output,
            <B as Outputs<Input>>::Output,
            <C as Outputs<Input>>::Output,
            <D as Outputs<Input>>::Output,
            <E as Outputs<Input>>::Output,
            <F as Outputs<Input>>::Output,
        ),
        <G as Parser<Input>>::PartialState,
    >,
>;

impl<
    Input,
    A: Outputs<Input>,
    B: Outputs<Input>,
    C: Outputs<Input>,
    D: Outputs<Input>,
    E: Outputs<Input>,
    F: Outputs<Input>,
    G: Outputs<Input>,
> Outputs<Input> for (A, B, C, D, E, F, G) {
    type Output = (
        A::Output,
        B::Output,
        C::Output,
        D::Output,
        E::Output,
        F::Output,
        G::Output,
    );
}

impl<
    Input: Stream,
    A: Parser<Input>,
    B: Parser<Input>,
    C: Parser<Input>,
    D: Parser<Input>,
    E: Parser<Input>,
    F: Parser<Input>,
    G: Parser<Input>,
> Parser<Input> for (A, B, C, D, E, F, G) {
    type PartialState = State7<Input, A, B, C, D, E, F, G>;

    ghost lawful = { λ p. A.lawful p.0 × B.lawful p.1 × C.lawful p.2 × D.lawful p.3 × E.lawful p.4 × F.lawful p.5 × G.lawful p.6 };

    ghost determined = { λ p. A.determined p.0 × B.determined p.1 × C.determined p.2 × D.determined p.3 × E.determined p.4 × F.determined p.5 × G.determined p.6 };

    ghost valid = { valid_7 A.valid B.valid C.valid D.valid E.valid F.valid G.valid };

    ghost meaning = { λ p. tuple_7 Input.step Input.Error.observers (A.meaning p.0) (B.meaning p.1) (C.meaning p.2) (D.meaning p.3) (E.meaning p.4) (F.meaning p.5) (G.meaning p.6) };

    ghost parts = { λ p. min (A.parts p.0 + B.parts p.1 + C.parts p.2 + D.parts p.3 + E.parts p.4 + F.parts p.5 + G.parts p.6) 255 };

    #[inline(always)]
    fn parse_mode<M: ParseMode>(
        &mut self,
        mode: M,
        input: &mut Input,
        state: &mut Self::PartialState,
    ) -> ParseResult<Self::Output, Input::Error> {
        let from = take_state(mode, state);
        let mut before = (&mut self.0, &mut self.1, &mut self.2, &mut self.3);
        parse_with_three_more(
            &mut before,
            &mut self.4,
            &mut self.5,
            &mut self.6,
            mode,
            input,
            from,
            state,
        )
    }

    #[inline]
    fn add_error(&mut self, error: &mut Tracked<Input::Error>) {
        self.0.add_error(error);
    }

    #[inline]
    fn parser_count(&self) -> ErrorOffset {
        add_counts(
            add_counts(
                add_counts(
                    add_counts(
                        add_counts(
                            add_counts(self.0.parser_count(), self.1.parser_count()),
                            self.2.parser_count(),
                        ),
                        self.3.parser_count(),
                    ),
                    self.4.parser_count(),
                ),
                self.5.parser_count(),
            ),
            self.6.parser_count(),
        )
    }

    ghost default_valid = { begins_valid_7 B.valid C.valid D.valid E.valid F.valid G.valid A.default_valid };

    ghost laws = { λ p l. tuple_7_is_meaning Input.step Input.Error.observers (A.laws p.0 l.0) (B.laws p.1 l.1) (C.laws p.2 l.2) (D.laws p.3 l.3) (E.laws p.4 l.4) (F.laws p.5 l.5) (G.laws p.6 l.6) };

    ghost single = { λ p l d. tuple_7_means_one Input.step Input.Error.observers (A.single p.0 l.0 d.0) (B.single p.1 l.1 d.1) (C.single p.2 l.2 d.2) (D.single p.3 l.3 d.3) (E.single p.4 l.4 d.4) (F.single p.5 l.5 d.5) (G.single p.6 l.6 d.6) };
}

type State8<Input, A, B, C, D, E, F, G, H> = PartialState8<
    SequenceState<(), <A as Parser<Input>>::PartialState>,
    SequenceState<(<A as Outputs<Input>>::Output,), <B as Parser<Input>>::PartialState>,
    SequenceState<
        (<A as Outputs<Input>>::Output, <B as Outputs<Input>>::Output),
        <C as Parser<Input>>::PartialState,
    >,
    SequenceState<
        (
            <A as Outputs<Input>>::Output,
            <B as Outputs<Input>>::Output,
            <C as Outputs<Input>>::Output,
        ),
        <D as Parser<Input>>::PartialState,
    >,
    SequenceState<
        (
            <A as Outputs<Input>>::Output,
            <B as Outputs<Input>>::Output,
            <C as Outputs<Input>>::Output,
            <D as Outputs<Input>>::Output,
        ),
        <E as Parser<Input>>::PartialState,
    >,
    SequenceState<
        (
            <A as Outputs<Input>>::Output,
            <B as Outputs<Input>>::Output,
            <C as Outputs<Input>>::Output,
            <D as Outputs<Input>>::Output,
            <E as Outputs<Input>>::Output,
        ),
        <F as Parser<Input>>::PartialState,
    >,
    SequenceState<
        (
            <A as Outputs<Input>>::Output,
            <B as Outputs<Input>>::Output,
            <C as Outputs<Input>>::Output,
            <D as Outputs<Input>>::Output,
            <E as Outputs<Input>>::Output,
            <F as Outputs<Input>>::Output,
        ),
        <G as Parser<Input>>::PartialState,
    >,
    SequenceState<
        (
            <A as Outputs<Input>>::Output,
            <B as Outputs<Input>>::Output,
            <C as Outputs<Input>>::Output,
            <D as Outputs<Input>>::Output,
            <E as Outputs<Input>>::Output,
            <F as Outputs<Input>>::Output,
            <G as Outputs<Input>>::Output,
        ),
        <H as Parser<Input>>::PartialState,
    >,
>;

impl<
    Input,
    A: Outputs<Input>,
    B: Outputs<Input>,
    C: Outputs<Input>,
    D: Outputs<Input>,
    E: Outputs<Input>,
    F: Outputs<Input>,
    G: Outputs<Input>,
    H: Outputs<Input>,
> Outputs<Input> for (A, B, C, D, E, F, G, H) {
    type Output = (
        A::Output,
        B::Output,
        C::Output,
        D::Output,
        E::Output,
        F::Output,
        G::Output,
        H::Output,
    );
}

impl<
    Input: Stream,
    A: Parser<Input>,
    B: Parser<Input>,
    C: Parser<Input>,
    D: Parser<Input>,
    E: Parser<Input>,
    F: Parser<Input>,
    G: Parser<Input>,
    H: Parser<Input>,
> Parser<Input> for (A, B, C, D, E, F, G, H) {
    type PartialState = State8<Input, A, B, C, D, E, F, G, H>;

    ghost lawful = { λ p. A.lawful p.0 × B.lawful p.1 × C.lawful p.2 × D.lawful p.3 × E.lawful p.4 × F.lawful p.5 × G.lawful p.6 × H.lawful p.7 };

    ghost determined = { λ p. A.determined p.0 × B.determined p.1 × C.determined p.2 × D.determined p.3 × E.determined p.4 × F.determined p.5 × G.determined p.6 × H.determined p.7 };

    ghost valid = { valid_8 A.valid B.valid C.valid D.valid E.valid F.valid G.valid H.valid };

    ghost meaning = { λ p. tuple_8 Input.step Input.Error.observers (A.meaning p.0) (B.meaning p.1) (C.meaning p.2) (D.meaning p.3) (E.meaning p.4) (F.meaning p.5) (G.meaning p.6) (H.meaning p.7) };

    ghost parts = { λ p. min (A.parts p.0 + B.parts p.1 + C.parts p.2 + D.parts p.3 + E.parts p.4 + F.parts p.5 + G.parts p.6 + H.parts p.7) 255 };

    #[inline(always)]
    fn parse_mode<M: ParseMode>(
        &mut self,
        mode: M,
        input: &mut Input,
        state: &mut Self::PartialState,
    ) -> ParseResult<Self::Output, Input::Error> {
        let from = take_state(mode, state);
        let mut before = (&mut self.0, &mut self.1, &mut self.2, &mut self.3);
        parse_with_four_more(
            &mut before,
            &mut self.4,
            &mut self.5,
            &mut self.6,
            &mut self.7,
            mode,
            input,
            from,
            state,
        )
    }

    #[inline]
    fn add_error(&mut self, error: &mut Tracked<Input::Error>) {
        self.0.add_error(error);
    }

    #[inline]
    fn parser_count(&self) -> ErrorOffset {
        add_counts(
            add_counts(
                add_counts(
                    add_counts(
                        add_counts(
                            add_counts(
                                add_counts(self.0.parser_count(), self.1.parser_count()),
                                self.2.parser_count(),
                            ),
                            self.3.parser_count(),
                        ),
                        self.4.parser_count(),
                    ),
                    self.5.parser_count(),
                ),
                self.6.parser_count(),
            ),
            self.7.parser_count(),
        )
    }

    ghost default_valid = { begins_valid_8 B.valid C.valid D.valid E.valid F.valid G.valid H.valid A.default_valid };

    ghost laws = { λ p l. tuple_8_is_meaning Input.step Input.Error.observers (A.laws p.0 l.0) (B.laws p.1 l.1) (C.laws p.2 l.2) (D.laws p.3 l.3) (E.laws p.4 l.4) (F.laws p.5 l.5) (G.laws p.6 l.6) (H.laws p.7 l.7) };

    ghost single = { λ p l d. tuple_8_means_one Input.step Input.Error.observers (A.single p.0 l.0 d.0) (B.single p.1 l.1 d.1) (C.single p.2 l.2 d.2) (D.single p.3 l.3 d.3) (E.single p.4 l.4 d.4) (F.single p.5 l.5 d.5) (G.single p.6 l.6 d.6) (H.single p.7 l.7 d.7) };
}
