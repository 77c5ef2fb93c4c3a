//! Tuples as parsers.
ghost use Rattle.std.specs.Prelude.{◌≡◌, ◌+◌, false, min, true};
ghost use Rattle.combine_base.specs.Parser.Meaning.{MeansSame};
ghost use Rattle.combine_base.specs.Sequence.Places.{begins_valid_1, begins_valid_2, begins_valid_3, begins_valid_4, valid_1, valid_2, valid_3, valid_4};
ghost use Rattle.combine_base.specs.Sequence.Tuples.{tuple_1, tuple_1_is_meaning, tuple_1_means_one, tuple_2, tuple_2_is_meaning, tuple_2_means_one, tuple_3, tuple_3_is_meaning, tuple_3_means_one, tuple_4, tuple_4_is_meaning, tuple_4_means_one};

use crate::error::{ErrorOffset, ParseResult, Tracked};
use crate::parser::{Calls, Outputs, ParseMode, Parser};
use crate::sequence::part::{parse_rest, resume_last, take_state};
use crate::sequence::{
    PartialState1, PartialState2, PartialState3, PartialState4, SequencePlace, SequenceState,
    TupleState,
};
use crate::stream::Stream;

mod longer;

/// The kept state of a tuple of one parser over a stream.
pub type State1<Input, A> = PartialState1<SequenceState<(), <A as Parser<Input>>::PartialState>>;

/// The kept state of a tuple of two parsers over a stream.
pub type State2<Input, A, B> = PartialState2<
    SequenceState<(), <A as Parser<Input>>::PartialState>,
    SequenceState<(<A as Outputs<Input>>::Output,), <B as Parser<Input>>::PartialState>,
>;

/// The kept state of a tuple of three parsers over a stream.
type State3<Input, A, B, C> = PartialState3<
    SequenceState<(), <A as Parser<Input>>::PartialState>,
    SequenceState<(<A as Outputs<Input>>::Output,), <B as Parser<Input>>::PartialState>,
    SequenceState<
        (<A as Outputs<Input>>::Output, <B as Outputs<Input>>::Output),
        <C as Parser<Input>>::PartialState,
    >,
>;

/// The kept state of a tuple of four parsers over a stream.
type State4<Input, A, B, C, D> = PartialState4<
    SequenceState<(), <A as Parser<Input>>::PartialState>,
    SequenceState<(<A as Outputs<Input>>::Output,), <B as Parser<Input>>::PartialState>,
    SequenceState<
        (<A as Outputs<Input>>::Output, <B as Outputs<Input>>::Output),
        <C as Parser<Input>>::PartialState,
    >,
    SequenceState<
        (
            <A as Outputs<Input>>::Output,
            <B as Outputs<Input>>::Output,
            <C as Outputs<Input>>::Output,
        ),
        <D as Parser<Input>>::PartialState,
    >,
>;

/// Returns how many parsers two are, at most 255.
fn add_counts(before: ErrorOffset, last: ErrorOffset) -> ErrorOffset
    ensures { result.0 ≡ min (before.0 + last.0) 255 }
{
    ErrorOffset(before.0.saturating_add(last.0))
}

/// Runs one part, from what is kept of it.
///
/// `state` is a default one, and keeps what goes on where more is needed.
#[inline(always)]
pub fn parse_1<Input: Stream, A: Parser<Input>, M: ParseMode>(
    a: &mut A,
    mode: M,
    input: &mut Input,
    from: State1<Input, A>,
    state: &mut State1<Input, A>,
) -> ParseResult<(A::Output,), Input::Error>
    requires ready { ⟦<(A,) as Calls<Input>>⟧.ready (record { 0 = a.old }) from }
    requires starts { M.first mode ≡ true → ⟦<State1<Input, A> as Default>⟧.is_default from }
    requires fresh { ⟦<State1<Input, A> as Default>⟧.is_default state.old }
    ensures called { ⟦<(A,) as Calls<Input>>⟧.called (record { 0 = a.old }) (record { 0 = a.new }) input.old input.new false from state.new result }
    ensures part { MeansSame (A.meaning a.old) (A.meaning a.new) }
{
    let SequenceState {
        value: (),
        committed: _,
        state: mut kept,
    } = from.into_only();
    match a.parse_mode(mode, input, &mut kept) {
        ParseResult::CommitOk(value) => ParseResult::CommitOk((value,)),
        ParseResult::PeekOk(value) => ParseResult::PeekOk((value,)),
        ParseResult::CommitErr(error) => {
            *state = PartialState1::A(SequenceState {
                value: (),
                committed: false,
                state: kept,
            });
            ParseResult::CommitErr(error)
        }
        ParseResult::PeekErr(refusal) => ParseResult::PeekErr(refusal),
    }
}

/// Runs two parts, from what is kept of them.
///
/// `state` is a default one, and keeps what goes on where more is needed.
#[inline(always)]
pub fn parse_2<Input: Stream, A: Parser<Input>, B: Parser<Input>, M: ParseMode>(
    a: &mut A,
    b: &mut B,
    mode: M,
    input: &mut Input,
    from: State2<Input, A, B>,
    state: &mut State2<Input, A, B>,
) -> ParseResult<(A::Output, B::Output), Input::Error>
    requires ready { ⟦<(A, B) as Calls<Input>>⟧.ready (a.old, b.old) from }
    requires starts { M.first mode ≡ true → ⟦<State2<Input, A, B> as Default>⟧.is_default from }
    requires fresh { ⟦<State2<Input, A, B> as Default>⟧.is_default state.old }
    ensures called { ⟦<(A, B) as Calls<Input>>⟧.called (a.old, b.old) (a.new, b.new) input.old input.new false from state.new result }
    ensures parts { MeansSame (A.meaning a.old) (A.meaning a.new) × MeansSame (B.meaning b.old) (B.meaning b.new) }
{
    match from.into_place() {
        SequencePlace::Before(at) => {
            let mut kept = PartialState1::default();
            let answer = parse_1(a, mode, input, at, &mut kept);
            parse_rest(answer, kept, b, mode, input, state)
        }
        SequencePlace::Last(at) => resume_last(b, mode, input, at, state),
    }
}

/// Runs three parts, from what is kept of them.
///
/// `state` is a default one, and keeps what goes on where more is needed.
#[inline(always)]
fn parse_3<Input: Stream, A: Parser<Input>, B: Parser<Input>, C: Parser<Input>, M: ParseMode>(
    a: &mut A,
    b: &mut B,
    c: &mut C,
    mode: M,
    input: &mut Input,
    from: State3<Input, A, B, C>,
    state: &mut State3<Input, A, B, C>,
) -> ParseResult<(A::Output, B::Output, C::Output), Input::Error>
    requires ready { ⟦<(A, B, C) as Calls<Input>>⟧.ready (a.old, b.old, c.old) from }
    requires starts { M.first mode ≡ true → ⟦<State3<Input, A, B, C> as Default>⟧.is_default from }
    requires fresh { ⟦<State3<Input, A, B, C> as Default>⟧.is_default state.old }
    ensures { ⟦<(A, B, C) as Calls<Input>>⟧.called (a.old, b.old, c.old) (a.new, b.new, c.new) input.old input.new false from state.new result }
{
    match from.into_place() {
        SequencePlace::Before(at) => {
            let mut kept = PartialState2::default();
            let answer = parse_2(a, b, mode, input, at, &mut kept);
            parse_rest(answer, kept, c, mode, input, state)
        }
        SequencePlace::Last(at) => resume_last(c, mode, input, at, state),
    }
}

/// Runs four parts, from what is kept of them.
///
/// `state` is a default one, and keeps what goes on where more is needed.
#[inline(always)]
fn parse_4<
    Input: Stream,
    A: Parser<Input>,
    B: Parser<Input>,
    C: Parser<Input>,
    D: Parser<Input>,
    M: ParseMode,
>(
    a: &mut A,
    b: &mut B,
    c: &mut C,
    d: &mut D,
    mode: M,
    input: &mut Input,
    from: State4<Input, A, B, C, D>,
    state: &mut State4<Input, A, B, C, D>,
) -> ParseResult<(A::Output, B::Output, C::Output, D::Output), Input::Error>
    requires ready { ⟦<(A, B, C, D) as Calls<Input>>⟧.ready (a.old, b.old, c.old, d.old) from }
    requires starts { M.first mode ≡ true → ⟦<State4<Input, A, B, C, D> as Default>⟧.is_default from }
    requires fresh { ⟦<State4<Input, A, B, C, D> as Default>⟧.is_default state.old }
    ensures { ⟦<(A, B, C, D) as Calls<Input>>⟧.called (a.old, b.old, c.old, d.old) (a.new, b.new, c.new, d.new) input.old input.new false from state.new result }
{
    match from.into_place() {
        SequencePlace::Before(at) => {
            let mut kept = PartialState3::default();
            let answer = parse_3(a, b, c, mode, input, at, &mut kept);
            parse_rest(answer, kept, d, mode, input, state)
        }
        SequencePlace::Last(at) => resume_last(d, mode, input, at, state),
    }
}

impl<Input, A: Outputs<Input>> Outputs<Input> for (A,) {
    type Output = (A::Output,);
}

impl<Input: Stream, A: Parser<Input>> Parser<Input> for (A,) {
    type PartialState = State1<Input, A>;

    ghost lawful = { λ p. A.lawful p.0 };

    ghost determined = { λ p. A.determined p.0 };

    ghost valid = { valid_1 A.valid };

    ghost meaning = { λ p. tuple_1 (A.meaning p.0) };

    ghost parts = { λ p. A.parts p.0 };

    #[inline(always)]
    fn parse_mode<M: ParseMode>(
        &mut self,
        mode: M,
        input: &mut Input,
        state: &mut Self::PartialState,
    ) -> ParseResult<(A::Output,), Input::Error> {
        let from = take_state(mode, state);
        parse_1(&mut self.0, mode, input, from, state)
    }

    #[inline]
    fn add_error(&mut self, error: &mut Tracked<Input::Error>) {
        self.0.add_error(error);
    }

    #[inline]
    fn parser_count(&self) -> ErrorOffset {
        self.0.parser_count()
    }

    ghost default_valid = { begins_valid_1 A.default_valid };

    ghost laws = { λ p l. tuple_1_is_meaning (A.laws p.0 l) };

    ghost single = { λ p l d. tuple_1_means_one (A.single p.0 l d) };
}

impl<Input, A: Outputs<Input>, B: Outputs<Input>> Outputs<Input> for (A, B) {
    type Output = (A::Output, B::Output);
}

impl<Input: Stream, A: Parser<Input>, B: Parser<Input>> Parser<Input> for (A, B) {
    type PartialState = State2<Input, A, B>;

    ghost lawful = { λ p. A.lawful p.0 × B.lawful p.1 };

    ghost determined = { λ p. A.determined p.0 × B.determined p.1 };

    ghost valid = { valid_2 A.valid B.valid };

    ghost meaning = { λ p. tuple_2 Input.step Input.Error.observers (A.meaning p.0) (B.meaning p.1) };

    ghost parts = { λ p. min (A.parts p.0 + B.parts p.1) 255 };

    #[inline(always)]
    fn parse_mode<M: ParseMode>(
        &mut self,
        mode: M,
        input: &mut Input,
        state: &mut Self::PartialState,
    ) -> ParseResult<(A::Output, B::Output), Input::Error> {
        let from = take_state(mode, state);
        parse_2(&mut self.0, &mut self.1, mode, input, from, state)
    }

    #[inline]
    fn add_error(&mut self, error: &mut Tracked<Input::Error>) {
        self.0.add_error(error);
    }

    #[inline]
    fn parser_count(&self) -> ErrorOffset {
        add_counts(self.0.parser_count(), self.1.parser_count())
    }

    ghost default_valid = { begins_valid_2 B.valid A.default_valid };

    ghost laws = { λ p l. tuple_2_is_meaning Input.step Input.Error.observers (A.laws p.0 l.0) (B.laws p.1 l.1) };

    ghost single = { λ p l d. tuple_2_means_one Input.step Input.Error.observers (A.single p.0 l.0 d.0) (B.single p.1 l.1 d.1) };
}

impl<Input, A: Outputs<Input>, B: Outputs<Input>, C: Outputs<Input>> Outputs<Input> for (A, B, C) {
    type Output = (A::Output, B::Output, C::Output);
}

impl<Input: Stream, A: Parser<Input>, B: Parser<Input>, C: Parser<Input>> Parser<Input>
    for (A, B, C) {
    type PartialState = State3<Input, A, B, C>;

    ghost lawful = { λ p. A.lawful p.0 × B.lawful p.1 × C.lawful p.2 };

    ghost determined = { λ p. A.determined p.0 × B.determined p.1 × C.determined p.2 };

    ghost valid = { valid_3 A.valid B.valid C.valid };

    ghost meaning = { λ p. tuple_3 Input.step Input.Error.observers (A.meaning p.0) (B.meaning p.1) (C.meaning p.2) };

    ghost parts = { λ p. min (A.parts p.0 + B.parts p.1 + C.parts p.2) 255 };

    #[inline(always)]
    fn parse_mode<M: ParseMode>(
        &mut self,
        mode: M,
        input: &mut Input,
        state: &mut Self::PartialState,
    ) -> ParseResult<(A::Output, B::Output, C::Output), Input::Error> {
        let from = take_state(mode, state);
        parse_3(
            &mut self.0,
            &mut self.1,
            &mut self.2,
            mode,
            input,
            from,
            state,
        )
    }

    #[inline]
    fn add_error(&mut self, error: &mut Tracked<Input::Error>) {
        self.0.add_error(error);
    }

    #[inline]
    fn parser_count(&self) -> ErrorOffset {
        add_counts(
            add_counts(self.0.parser_count(), self.1.parser_count()),
            self.2.parser_count(),
        )
    }

    ghost default_valid = { begins_valid_3 B.valid C.valid A.default_valid };

    ghost laws = { λ p l. tuple_3_is_meaning Input.step Input.Error.observers (A.laws p.0 l.0) (B.laws p.1 l.1) (C.laws p.2 l.2) };

    ghost single = { λ p l d. tuple_3_means_one Input.step Input.Error.observers (A.single p.0 l.0 d.0) (B.single p.1 l.1 d.1) (C.single p.2 l.2 d.2) };
}

impl<Input, A: Outputs<Input>, B: Outputs<Input>, C: Outputs<Input>, D: Outputs<Input>> Outputs<
    Input,
> for (A, B, C, D) {
    type Output = (A::Output, B::Output, C::Output, D::Output);
}

impl<Input: Stream, A: Parser<Input>, B: Parser<Input>, C: Parser<Input>, D: Parser<Input>> Parser<
    Input,
> for (A, B, C, D) {
    type PartialState = State4<Input, A, B, C, D>;

    ghost lawful = { λ p. A.lawful p.0 × B.lawful p.1 × C.lawful p.2 × D.lawful p.3 };

    ghost determined = { λ p. A.determined p.0 × B.determined p.1 × C.determined p.2 × D.determined p.3 };

    ghost valid = { valid_4 A.valid B.valid C.valid D.valid };

    ghost meaning = { λ p. tuple_4 Input.step Input.Error.observers (A.meaning p.0) (B.meaning p.1) (C.meaning p.2) (D.meaning p.3) };

    ghost parts = { λ p. min (A.parts p.0 + B.parts p.1 + C.parts p.2 + D.parts p.3) 255 };

    #[inline(always)]
    fn parse_mode<M: ParseMode>(
        &mut self,
        mode: M,
        input: &mut Input,
        state: &mut Self::PartialState,
    ) -> ParseResult<(A::Output, B::Output, C::Output, D::Output), Input::Error> {
        let from = take_state(mode, state);
        parse_4(
            &mut self.0,
            &mut self.1,
            &mut self.2,
            &mut self.3,
            mode,
            input,
            from,
            state,
        )
    }

    #[inline]
    fn add_error(&mut self, error: &mut Tracked<Input::Error>) {
        self.0.add_error(error);
    }

    #[inline]
    fn parser_count(&self) -> ErrorOffset {
        add_counts(
            add_counts(
                add_counts(self.0.parser_count(), self.1.parser_count()),
                self.2.parser_count(),
            ),
            self.3.parser_count(),
        )
    }

    ghost default_valid = { begins_valid_4 B.valid C.valid D.valid A.default_valid };

    ghost laws = { λ p l. tuple_4_is_meaning Input.step Input.Error.observers (A.laws p.0 l.0) (B.laws p.1 l.1) (C.laws p.2 l.2) (D.laws p.3 l.3) };

    ghost single = { λ p l d. tuple_4_means_one Input.step Input.Error.observers (A.single p.0 l.0 d.0) (B.single p.1 l.1 d.1) (C.single p.2 l.2 d.2) (D.single p.3 l.3 d.3) };
}
