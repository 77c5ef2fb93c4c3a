//! The first part of a choice, and what follows it. Our own: what `or` and the choices over tuples are made of.
ghost use Rattle.std.specs.Prelude.{◌≡◌, false};
ghost use Rattle.combine_base.specs.Stream.Calls.{Passes};
ghost use Rattle.combine_choice.specs.Choice.Alternatives.{both_merged};
ghost use Rattle.combine_choice.specs.Choice.FirstAlternative.{JudgesFirst, RunsAlternative, SettlesLater, MayFollowRefusal};

use super::{OrState, after_refusal};
use combine_base::error::{ParseResult, Tracked};
use combine_base::parser::ParseMode;
use combine_base::stream::{Stream, asks_for_more, needs_more};
use std::mem::replace;

/// What comes of the first part of a choice.
#[derive(Drop)]
pub enum FirstResult<V, S, E> {
    /// The choice ends with this result.
    Done(ParseResult<V, E>),
    /// The later part goes on from that state, or begins after that refusal of the first.
    RunsLater(S, Option<Tracked<E>>),
}

/// Hands out the state of the part that goes on, or begins: the first one's, or that of the later one.
#[inline(always)]
pub fn begin<S: Default + Drop, T: Drop, M: ParseMode>(
    state: &mut OrState<S, T>,
    mode: M,
) -> Result<S, T>
    ensures begun { RunsAlternative S.is_default (M.first mode) state.old result }
    ensures left { state.new ≡ OrState.Peek }
{
    let kept = replace(state, OrState::Peek);
    if mode.is_first() {
        return Ok(S::default());
    }
    match kept {
        OrState::B(kept) => Err(kept),
        OrState::A(kept) => Ok(kept),
        OrState::Peek => Ok(S::default()),
    }
}

/// Goes on after the first part's result.
///
/// A peeked refusal is put back, and the later part goes on. Any other result ends the choice, and on need of more the first part's state is kept.
#[inline(always)]
pub fn settle_first<O, Input: Stream, S: Drop, T: Default + Drop>(
    start: Input::Checkpoint,
    position: Input::Position,
    input: &mut Input,
    kept: S,
    answer: ParseResult<O, Input::Error>,
    state: &mut OrState<S, T>,
) -> FirstResult<O, T, Input::Error>
    requires fresh { state.old ≡ OrState.Peek }
    ensures passes { Passes (Input.marks input.old) (Input.marks input.new) (Input.failures input.old) (Input.failures input.new) }
    ensures goes { JudgesFirst Input.step Input.Error.observers.kind Input.counts_failures T.is_default (Input.stands input.old start) kept state.new (Input.view input.old) (Input.view input.new) (Input.failures input.old) (Input.failures input.new) answer result }
{
    match answer {
        ParseResult::CommitOk(value) => FirstResult::Done(ParseResult::CommitOk(value)),
        ParseResult::PeekOk(value) => FirstResult::Done(ParseResult::PeekOk(value)),
        ParseResult::CommitErr(error) => {
            if needs_more(input, &error) {
                *state = OrState::A(kept);
            }
            FirstResult::Done(ParseResult::CommitErr(error))
        }
        ParseResult::PeekErr(refused) => match input.reset(start) {
            Ok(()) => FirstResult::RunsLater(T::default(), Some(refused)),
            Err(kind) => FirstResult::Done(ParseResult::CommitErr(input.new_error(kind, position))),
        },
    }
}

/// Returns the choice's result of that of the later part, after that refusal of the first.
///
/// On need of more the later part's state is kept.
#[inline(always)]
pub fn settle_second<O, Input: Stream, S: Drop, T: Drop>(
    input: &Input,
    refused: Option<Tracked<Input::Error>>,
    kept: T,
    answer: ParseResult<O, Input::Error>,
    state: &mut OrState<S, T>,
) -> ParseResult<O, Input::Error>
    requires { MayFollowRefusal Input.Error.observers.kind refused answer }
    ensures { SettlesLater Input.Error.observers (both_merged Input.Error.observers Input.Position.cmp) (Input.view input.now).is_open refused kept state.old state.new answer result }
{
    if asks_for_more(input, &answer) {
        *state = OrState::B(kept);
    }
    match refused {
        Some(first) => after_refusal(first, answer),
        None => answer,
    }
}
