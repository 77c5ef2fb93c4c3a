//! One step's parser, run, and what becomes of the frames.
ghost use Rattle.std.specs.Prelude.{◌≡◌, ◌||◌, true, MatchResult, reverse, vec_items};
ghost use Rattle.combine_nested.specs.NestedSteps.{frames_around, begins_steps, settles_frames};
ghost use Rattle.combine_nested.specs.StepCalls.{CalledStep, Denies, TakesItem, ends_of, step_item_did};

use super::{Frame, Next};
use combine_base::error::{ParseResult, Tracked, accepted_after, refused_after};
use combine_base::parser::{Calls, ParseMode, Parser};
use combine_base::refusal::{peeked, refusal_saying};
use combine_base::stream::{Kind, Stream, has_taken, needs_more};
use std::alloc::AllocError;

/// The frames that are open: the innermost, and those round it, the outermost first.
#[derive(Drop)]
pub struct Frames<F> {
    pub(super) top: F,
    pub(super) outer: Vec<F>,
}

/// What is kept of a step whose parser runs.
#[derive(Drop)]
pub struct RunningStep<F, N, U> {
    pub(super) frames: Frames<F>,
    /// A step before was committed.
    pub(super) committed: bool,
    /// This step took a token before the cut.
    pub(super) took_before: bool,
    pub(super) parser: N,
    pub(super) state: U,
}

/// The kept state of `nested`.
#[derive(Drop)]
pub enum NestedState<F, N, U> {
    /// No step was asked for.
    Start,
    /// A step's parser runs.
    Running(RunningStep<F, N, U>),
}

impl<F, N, U> Default for NestedState<F, N, U> {
    ghost is_default = { begins_steps };

    #[inline]
    fn default() -> Self {
        NestedState::Start
    }
}

/// What a step did.
pub(super) enum Did<F, V, E> {
    /// The next step comes, over these frames, and whether a step was committed.
    Goes(Frames<F>, bool),
    /// This is the result.
    Stops(ParseResult<V, E>),
}

/// What became of the frames.
#[derive(Drop)]
pub(super) enum Settled<F, V> {
    /// The frames that are open.
    Open(Frames<F>),
    /// The outermost is closed.
    Closed(V),
    /// A frame refuses.
    Denied(&'static str),
    /// A frame too many was opened.
    TooDeep,
}

/// Settles the frames round one of which that came: the value of each that is closed is given to the one round it.
pub(super) fn settle<F: Frame>(
    depth: usize,
    outer: Vec<F>,
    next: Next<F, F::Value>,
) -> Result<Settled<F, F::Value>, AllocError>
    ensures { MatchResult result (λ r. settles_frames depth F.joins (reverse (vec_items outer)) next (ends_of r)) (λ _. Unit {0}) }
{
    let mut outer = outer;
    let mut next = next;
    'frames: loop {
        match next {
            Next::Stay(top) => return Ok(Settled::Open(Frames { top, outer })),
            Next::Open(around, inside) => {
                if outer.len() >= depth {
                    return Ok(Settled::TooDeep);
                }
                outer.push(around)?;
                return Ok(Settled::Open(Frames { top: inside, outer }));
            }
            Next::Close(value) => {
                let Some(around) = outer.pop() else {
                    return Ok(Settled::Closed(value));
                };
                next = around.join(value)?;
            }
            Next::Refuse(message) => return Ok(Settled::Denied(message)),
        }
    }
}

/// Lets the innermost frame take an item.
fn take_item<F: Frame>(
    depth: usize,
    frames: Frames<F>,
    item: F::Item,
) -> Result<Settled<F, F::Value>, AllocError>
    ensures { MatchResult result (λ r. TakesItem depth F.takes F.joins frames.top (frames_around frames) item (ends_of r)) (λ _. Unit {0}) }
{
    let Frames { top, outer } = frames;
    settle(depth, outer, top.take(item)?)
}

#[inline(always)]
fn one_of(first: bool, second: bool) -> bool
    ensures { result ≡ (first || second) }
{
    first || second
}

/// Refuses as a frame does: committed where a step was.
fn denied<V, Input: Stream>(
    input: &Input,
    position: Input::Position,
    committed: bool,
    message: &'static str,
) -> ParseResult<V, Input::Error>
    ensures { Denies Input.Error.observers position message.now committed result }
{
    let error = refusal_saying(input, position, message);
    if committed {
        return ParseResult::CommitErr(error);
    }
    peeked(Tracked::from(error))
}

/// Returns what a step did whose parser was accepted with that item.
fn finish_step<Input: Stream, F: Frame>(
    input: &Input,
    position: Input::Position,
    depth: usize,
    frames: Frames<F>,
    item: F::Item,
    committed: bool,
    took: bool,
) -> Did<F, F::Value, Input::Error>
    ensures { step_item_did depth F.takes F.joins Input.Error.observers position frames committed took item result }
{
    let before = frames.outer.len();
    match take_item(depth, frames, item) {
        Ok(Settled::Open(frames)) => {
            if took || frames.outer.len() < before {
                return Did::Goes(frames, committed);
            }
            let error = refusal_saying(input, position, "repetition takes nothing");
            Did::Stops(ParseResult::CommitErr(error))
        }
        Ok(Settled::Closed(value)) => Did::Stops(accepted_after(committed, value)),
        Ok(Settled::Denied(message)) => { Did::Stops(denied(input, position, committed, message)) }
        Ok(Settled::TooDeep) => {
            let error = refusal_saying(input, position, "nesting too deep");
            Did::Stops(ParseResult::CommitErr(error))
        }
        Err(_) => Did::Stops(ParseResult::CommitErr(input.new_error(Kind::Memory, position))),
    }
}

/// Runs a step's parser from its state.
///
/// Need of more is kept in `state`, which is a default one.
pub(super) fn run_step<
    Input: Stream,
    F: Frame,
    N: Parser<Input, Output = F::Item> + Drop,
    M: ParseMode,
>(
    mode: M,
    input: &mut Input,
    depth: usize,
    from: RunningStep<F, N, N::PartialState>,
    state: &mut NestedState<F, N, N::PartialState>,
) -> Did<F, F::Value, Input::Error>
    requires ready { ⟦<N as Calls<Input>>⟧.ready from.parser from.state }
    requires starts { M.first mode ≡ true → N.PartialState.is_default from.state }
    requires fresh { begins_steps state.old }
    ensures { CalledStep N.Parser Input.StreamOnce Input.Error.observers N.PartialState.is_default depth F.takes F.joins input.old input.new from state.new result }
{
    let RunningStep {
        frames,
        committed: earlier,
        took_before,
        mut parser,
        state: mut kept,
    } = from;
    let position = input.position();
    let since = input.checkpoint();
    let (item, committed) = match parser.parse_explained(mode, input, &mut kept) {
        ParseResult::CommitOk(item) => (item, true),
        ParseResult::PeekOk(item) => (item, false),
        ParseResult::CommitErr(error) => {
            if needs_more(input, &error) {
                *state = NestedState::Running(RunningStep {
                    frames,
                    committed: earlier,
                    took_before: has_taken(took_before, since, input),
                    parser,
                    state: kept,
                });
                return Did::Stops(ParseResult::CommitErr(error));
            }
            return Did::Stops(ParseResult::CommitErr(error));
        }
        ParseResult::PeekErr(refusal) => return Did::Stops(refused_after(earlier, refusal)),
    };
    let took = has_taken(took_before, since, input);
    let commits = one_of(earlier, committed);
    finish_step(input, position, depth, frames, item, commits, took)
}
