//! What runs at each place of a repetition up to a place: the parser that ends it, or else that of a block. It chooses as `or` does, but a refusal is that of the block alone.
ghost use Rattle.std.specs.Prelude.{◌≡◌};
ghost use Rattle.combine_choice.specs.Choice.ChoiceCalls.{ChoseCall};
ghost use Rattle.combine_choice.specs.Choice.Or.{either_of, or_valid};
ghost use Rattle.combine_until.specs.Next.{next, next_is_meaning, next_means_one, second_alone};
ghost use Rattle.combine_until.specs.UntilParsers.{next_end, next_of, next_part};

use combine_base::error::{ErrorOffset, ParseResult, Tracked};
use combine_base::parser::{Outputs, ParseMode, Parser};
use combine_base::stream::Stream;
use combine_choice::or::OrState;
use combine_choice::or::alternatives::{choose_first_half, choose_second_half};
use combine_choice::or::first::FirstResult;
use combine_combinator::combinator::types::{Pick, Picked};
use std::marker::PhantomData;

/// The value is kept.
#[derive(Clone, Copy, Drop)]
pub struct Present;

impl<A: Drop> Pick<A> for Present {
    ghost use Rattle.combine_until.specs.Next.{present};

    type Output = Option<A>;

    ghost picked = { present };

    ghost counted = { λ n. n };

    #[inline(always)]
    fn pick(value: A) -> Option<A> {
        Some(value)
    }

    #[inline]
    fn count(inside: ErrorOffset) -> ErrorOffset {
        inside
    }
}

/// The value is dropped, where there could be one of another type.
#[derive(Drop)]
pub struct Absent<A>(PhantomData<A>);

impl<A: Drop, B: Drop> Pick<B> for Absent<A> {
    ghost use Rattle.combine_until.specs.Next.{absent};

    type Output = Option<A>;

    ghost picked = { absent };

    ghost counted = { λ n. n };

    #[inline(always)]
    fn pick(value: B) -> Option<A> {
        drop(value);
        None
    }

    #[inline]
    fn count(inside: ErrorOffset) -> ErrorOffset {
        inside
    }
}

/// A parser whose acceptance gives no value; or where it is refused peeked, one whose result is the result.
#[derive(Drop)]
#[derive_where(Clone, Copy; P, E)]
pub struct Next<A, P, E> {
    pub(crate) end: Picked<E, Absent<A>, Option<A>>,
    pub(crate) part: Picked<P, Present, Option<A>>,
}

impl<A, P, E> Next<A, P, E> {
    /// Returns the parser of these two.
    #[inline]
    pub(crate) fn new(part: P, end: E) -> Self
        ensures { result ≡ next_of part end }
    {
        Next {
            end: Picked::new(end),
            part: Picked::new(part),
        }
    }
}

/// Chooses as `or` does; but where both are refused peeked, the error is that of the second.
#[inline(always)]
fn choose_next<Input: Stream, E: Parser<Input>, P: Parser<Input, Output = E::Output>, M: ParseMode>(
    end: &mut E,
    part: &mut P,
    mode: M,
    input: &mut Input,
    state: &mut NextState<Input, P, E>,
) -> ParseResult<E::Output, Input::Error>
    requires lawful { E.lawful end.old × P.lawful part.old }
    requires valid { or_valid E.valid P.valid state.old }
    ensures chose { ChoseCall Input.StreamOnce Input.Error.observers (λ s. s ≡ OrState.Peek) (E.lawful end.new × P.lawful part.new) (or_valid E.valid P.valid) (either_of second_alone (E.meaning end.old) (P.meaning part.old)) (either_of second_alone (E.meaning end.new) (P.meaning part.new)) (M.first mode) state.old state.new input.old input.new result }
{
    let mut first = &mut *end;
    match choose_first_half(&mut first, mode, input, state) {
        FirstResult::Done(answer) => answer,
        FirstResult::RunsLater(kept, _refused) => {
            let mut second = &mut *part;
            choose_second_half(&mut second, mode, input, None, kept, state)
        }
    }
}

/// The state of the one that runs.
pub type NextState<Input, P, E> = OrState<
    <E as Parser<Input>>::PartialState,
    <P as Parser<Input>>::PartialState,
>;

impl<Input, A: Drop, P, E> Outputs<Input> for Next<A, P, E> {
    type Output = Option<A>;
}

impl<Input: Stream, A: Drop, P: Parser<Input, Output = A>, E: Parser<Input>> Parser<Input>
    for Next<A, P, E> {
    type PartialState = NextState<Input, P, E>;

    ghost lawful = { λ p. E.lawful (next_end p) × P.lawful (next_part p) };

    ghost determined = { λ p. E.determined (next_end p) × P.determined (next_part p) };

    ghost valid = { or_valid E.valid P.valid };

    ghost meaning = { λ p. next (E.meaning (next_end p)) (P.meaning (next_part p)) };

    ghost default_valid = { λ s d. rw d tt };

    ghost laws = { λ p l. next_is_meaning (E.meaning (next_end p)) (P.meaning (next_part p)) (E.laws (next_end p) l.0) (P.laws (next_part p) l.1) };

    ghost single = { λ p l d. next_means_one E.PartialState.is_default E.valid P.PartialState.is_default P.valid (E.meaning (next_end p)) (P.meaning (next_part p)) (E.single (next_end p) l.0 d.0) (P.single (next_part p) l.1 d.1) };

    #[inline(always)]
    fn parse_mode<M: ParseMode>(
        &mut self,
        mode: M,
        input: &mut Input,
        state: &mut Self::PartialState,
    ) -> ParseResult<Option<A>, Input::Error> {
        choose_next(&mut self.end, &mut self.part, mode, input, state)
    }

    /// Adds what the first adds, and then what the second does.
    fn add_error(&mut self, error: &mut Tracked<Input::Error>) {
        self.end.add_error(error);
        self.part.add_error(error);
    }

    /// Counts as one parser.
    fn parser_count(&self) -> ErrorOffset {
        ErrorOffset(1)
    }
}
