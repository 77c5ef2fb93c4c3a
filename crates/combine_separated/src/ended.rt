//! What runs in each turn: a part, and later a separator and the part, or a separator alone, which ends the turns.
ghost use Rattle.std.specs.Prelude.{◌≡◌, false, true, is_none};
ghost use Rattle.combine_base.specs.Parser.Meaning.{MeansSame};
ghost use Rattle.combine_base.specs.Stream.Calls.{Passes};
ghost use Rattle.combine_separated.specs.Pair.{pair, pair_begins, pair_is_meaning, pair_valid};
ghost use Rattle.combine_separated.specs.PartCalls.{RanCall, RanLaterCall};
ghost use Rattle.combine_separated.specs.Separated.{first_then, later_turn, separated_default, separated_valid, then_is_turn};
ghost use Rattle.combine_separated.specs.Ended.{closer_of, ended_once, ended_part, after_separator, some_more, some_of, optional_part};
ghost use Rattle.combine_choice.specs.Choice.Optional.{optional, optional_is_meaning};
ghost use Rattle.combine_repeat.specs.Turns.SoundValues.{any_sound};
ghost use Rattle.combine_repeat.specs.Turns.Turn.{gives_any};

use crate::pair::{PairState, PairStateOf, parse_pair};
use crate::separated::{Lead, SeparatedState, TurnPlace, begin_turn};
use combine_base::error::{ParseResult, Tracked};
use combine_base::parser::{ParseMode, Parser};
use combine_base::repeat::Append;
use combine_base::stream::{Stream, needs_more};
use combine_choice::or::types::Optional;
use combine_repeat::turns::{Gather, TurnParser};
use std::alloc::AllocError;
use std::marker::PhantomData;
use std::mem;

/// A part, and later a separator and the part, or a separator alone, which ends the turns.
#[derive(Clone, Copy, Drop)]
pub struct Ended<P, S> {
    pub(crate) part: Optional<P>,
    pub(crate) separator: S,
}

/// Each value that is there is appended.
#[derive(Drop)]
pub struct EachSome<F>(PhantomData<F>);

impl<A, F: Append<A>> Gather<Option<A>> for EachSome<F> {
    type Collection = F;

    ghost Held = { F.Held };

    ghost held = { F.held };

    ghost none = { F.none };

    ghost more = { some_more (λ h a i. i ≡ F.more h a) };

    ghost sound = { λ _ _. Unit {0} };

    ghost heapless = { F.heapless };

    #[inline(always)]
    fn gather(into: F, value: Option<A>) -> Result<F, AllocError> {
        let mut into = into;
        match value {
            Some(value) => {
                into.append(value)?;
                Ok(into)
            }
            None => Ok(into),
        }
    }

    ghost keeps_sound = { any_sound };
}

/// Runs the first part, from what is kept of it.
#[inline(always)]
fn run_first<Input: Stream, P: Parser<Input>, O: Drop, W: Drop, M: ParseMode>(
    parser: &mut P,
    mode: M,
    kept: P::PartialState,
    input: &mut Input,
    state: &mut SeparatedState<O, W, P::PartialState>,
) -> ParseResult<Option<P::Output>, Input::Error>
    requires lawful { P.lawful parser.old }
    requires valid { P.valid kept }
    requires starts { M.first mode ≡ true → P.PartialState.is_default kept }
    ensures lawful { P.lawful parser.new }
    ensures same { MeansSame (P.meaning parser.old) (P.meaning parser.new) }
    ensures passes { Passes (Input.marks input.old) (Input.marks input.new) (Input.failures input.old) (Input.failures input.new) }
    ensures ran { RanCall Input.StreamOnce Input.Error.observers P.PartialState.is_default (P.meaning parser.old) P.valid some_of (λ s. SeparatedState.Part Lead.Nothing s) kept state.old state.new input.old input.new result }
{
    let mut kept = kept;
    match parser.parse_mode(mode, input, &mut kept) {
        ParseResult::CommitOk(value) => ParseResult::CommitOk(Some(value)),
        ParseResult::PeekOk(value) => ParseResult::PeekOk(Some(value)),
        ParseResult::CommitErr(error) => {
            if needs_more(input, &error) {
                *state = SeparatedState::Part(Lead::Nothing, kept);
                return ParseResult::CommitErr(error);
            }
            ParseResult::CommitErr(error)
        }
        ParseResult::PeekErr(refusal) => ParseResult::PeekErr(refusal),
    }
}

/// Runs a separator, and a part that may be missing, from what is kept of them.
#[inline(always)]
fn run_later<Input: Stream, P: Parser<Input>, S: Parser<Input>, M: ParseMode>(
    separator: &mut S,
    part: &mut Optional<P>,
    mode: M,
    kept: PairStateOf<Input, S, Optional<P>>,
    input: &mut Input,
    state: &mut SeparatedState<S::Output, S::PartialState, P::PartialState>,
) -> ParseResult<Option<P::Output>, Input::Error>
    requires lawful { S.lawful separator.old × P.lawful (optional_part part.old) }
    requires valid { pair_valid S.valid P.valid kept }
    requires starts { M.first mode ≡ true → pair_begins S.PartialState.is_default kept }
    ensures lawful { S.lawful separator.new × P.lawful (optional_part part.new) }
    ensures parts { MeansSame (S.meaning separator.old) (S.meaning separator.new) × MeansSame (P.meaning (optional_part part.old)) (P.meaning (optional_part part.new)) }
    ensures same { MeansSame (pair Input.step Input.Error.observers (S.meaning separator.old) (optional (P.meaning (optional_part part.old)))) (pair Input.step Input.Error.observers (S.meaning separator.new) (optional (P.meaning (optional_part part.new)))) }
    ensures passes { Passes (Input.marks input.old) (Input.marks input.new) (Input.failures input.old) (Input.failures input.new) }
    ensures ran { RanLaterCall Input.StreamOnce Input.Error.observers S.PartialState.is_default (S.meaning separator.old) (optional (P.meaning (optional_part part.old))) (pair_valid S.valid P.valid) after_separator kept state.old state.new input.old input.new result }
{
    let mut left = PairState::default();
    match parse_pair(separator, part, mode, input, kept, &mut left) {
        ParseResult::CommitOk(pair) => {
            let (_separator, value) = pair;
            ParseResult::CommitOk(value)
        }
        ParseResult::PeekOk(pair) => {
            let (_separator, value) = pair;
            ParseResult::PeekOk(value)
        }
        ParseResult::CommitErr(error) => {
            if needs_more(input, &error) {
                *state = SeparatedState::later(left);
                return ParseResult::CommitErr(error);
            }
            ParseResult::CommitErr(error)
        }
        ParseResult::PeekErr(refusal) => ParseResult::PeekErr(refusal),
    }
}

impl<Input: Stream, P: Parser<Input>, S: Parser<Input>> TurnParser<Input> for Ended<P, S> {
    type Value = Option<P::Output>;

    type Running = SeparatedState<S::Output, S::PartialState, P::PartialState>;

    ghost lawful = { λ p. S.lawful (closer_of p) × P.lawful (ended_part p) };

    ghost determined = { λ p. S.determined (closer_of p) × P.determined (ended_part p) };

    ghost valid = { separated_valid P.valid (pair_valid S.valid P.valid) };

    ghost meaning = { λ p. first_then some_of after_separator (P.meaning (ended_part p)) (pair Input.step Input.Error.observers (S.meaning (closer_of p)) (optional (P.meaning (ended_part p)))) };

    ghost again = { λ p. later_turn after_separator (pair Input.step Input.Error.observers (S.meaning (closer_of p)) (optional (P.meaning (ended_part p)))) };

    ghost ending = { is_none };

    ghost gives = { λ _. Unit {0} };

    #[inline(always)]
    fn parse_turn<M: ParseMode>(
        &mut self,
        later: bool,
        mode: M,
        input: &mut Input,
        state: &mut Self::Running,
    ) -> ParseResult<Self::Value, Input::Error> {
        let place = begin_turn(later, mode, mem::take(state));
        match place {
            TurnPlace::First(kept) => run_first(&mut self.part.0, mode, kept, input, state),
            TurnPlace::Later(kept) => run_later(
                &mut self.separator,
                &mut self.part,
                mode,
                kept,
                input,
                state,
            ),
        }
    }

    fn add_error(&mut self, error: &mut Tracked<Input::Error>) {
        self.part.0.add_error(error);
    }

    #[inline(always)]
    fn is_last(value: &Self::Value) -> bool {
        match value {
            Some(_) => false,
            None => true,
        }
    }

    ghost default_valid = { λ s d. separated_default P.PartialState.is_default P.valid (pair_valid S.valid P.valid) P.default_valid s d };

    ghost laws = { λ p l. then_is_turn some_of after_separator (P.laws (ended_part p) l.1) (pair_is_meaning Input.step Input.Error.observers (S.laws (closer_of p) l.0) (optional_is_meaning _ P.valid (P.meaning (ended_part p)) (P.laws (ended_part p) l.1))) };

    ghost single = { λ p l d. ended_once Input.step Input.Error.observers P.valid S.valid (P.meaning (ended_part p)) (S.meaning (closer_of p)) (P.single (ended_part p) l.1 d.1) (S.single (closer_of p) l.0 d.0) };

    ghost gives_only = { λ p l. gives_any };
}
