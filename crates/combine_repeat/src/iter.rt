//! The values of a parser, one after another.
ghost use Rattle.std.specs.Prelude.{◌≡◌, ℕ};
ghost use Rattle.combine_base.specs.Error.Results.{standard};
ghost use Rattle.combine_base.specs.Stream.View.{View, Takes};
ghost use Rattle.combine_repeat.specs.IteratorTurn.{TurnCalled, iter_turn_place};
ghost use Rattle.combine_repeat.specs.IteratorValues.{IsNewIter, Nexts, answer_of, answer_with, at_most_left, may_go_on, runs_at};
ghost use Rattle.combine_repeat.specs.Turns.Bounds.{is_block_at};
ghost use Rattle.combine_repeat.specs.declared.bounds.Bounds.TheVariants.{Unbounded};

use combine_base::error::{ParseResult, StdParseResult, accepted_after};
use combine_base::parser::{Calls, ParseMode, Parser};
use combine_base::refusal::refusal_saying;
use combine_base::stream::{Stream, has_taken};

/// Whether another turn runs, and how the turns ended.
#[derive(Drop)]
enum IterStage<E> {
    /// Another turn runs.
    Running,
    /// A turn was refused peeked, and put back.
    Over,
    /// A turn was refused committed, needs more, takes nothing or met a fault.
    Failed(E),
}

impl<E> IterStage<E> {
    #[inline(always)]
    fn is_running(&self) -> bool
        ensures { result ≡ runs_at self.now }
    {
        match self {
            IterStage::Running => true,
            IterStage::Over => false,
            IterStage::Failed(_) => false,
        }
    }

    /// Returns the turns as a result with that value, of which one gave a value or none.
    fn answer<V: Drop>(self, given: bool, value: V) -> ParseResult<V, E>
        ensures { result ≡ answer_of self given value }
    {
        match self {
            IterStage::Running => accepted_after(given, value),
            IterStage::Over => accepted_after(given, value),
            IterStage::Failed(error) => ParseResult::CommitErr(error),
        }
    }
}

/// The values of a parser that is run turn after turn on a stream that is lent, with a state that is lent.
///
/// It gives each turn's value, until a turn is refused, needs more, meets a fault or takes nothing. From then on it gives `None`.
///
/// # Errors
///
/// A peeked refusal is put back. A turn that takes nothing is refused committed, `repetition takes nothing`. Of the first turn of a call that resumes nothing is asked but that it is committed, since it may have taken its tokens from an earlier piece.
///
/// # Partial input
///
/// On need of more the state that was lent keeps the turn that runs, and the tokens of the values that were given are taken. An iterator that resumes from that state goes on.
///
/// # Differences from combine
///
/// In the crate the state is the iterator's own, `next` parses again after the end, and a parser that takes nothing gives values without end.
#[derive(Drop)]
pub struct Iter<'a, Input: Stream, P: Parser<Input>, M> {
    parser: P,
    mode: M,
    input: &'a mut Input,
    state: &'a mut P::PartialState,
    /// Set if a value was given; each is of a committed turn.
    given: bool,
    stage: IterStage<Input::Error>,
}

impl<'a, Input: Stream, P: Parser<Input>, M: ParseMode> Iter<'a, Input, P, M> {
    /// Makes an iterator whose first turn begins afresh or goes on from the state, as the mode says.
    ///
    /// It takes no memory.
    ///
    /// The parser is lawful, and the state one that it keeps.
    pub fn new(
        parser: P,
        mode: M,
        input: &'a mut Input,
        state: &'a mut P::PartialState,
    ) -> Iter<'a, Input, P, M>
        requires ready { ⟦<P as Calls<Input>>⟧.ready parser state.old }
        ensures begins { IsNewIter result parser mode input.old state.old }
        ensures ready { may_go_on P.Parser Input.StreamOnce M.first result }
        ensures same_input { result.input.ghost_name ≡ input.entry.ghost_name }
        ensures same_state { result.state.ghost_name ≡ state.entry.ghost_name }
    {
        Iter {
            parser,
            mode,
            input,
            state,
            given: false,
            stage: IterStage::Running,
        }
    }

    /// Returns the value as the turns would accept it, if they go on or ended at a peeked refusal.
    ///
    /// It is committed exactly if a value was given.
    ///
    /// # Errors
    ///
    /// The error of the turn at which they ended, committed: its parser's, or `repetition takes nothing` at the position where it began.
    pub fn into_result<O: Drop>(self, value: O) -> StdParseResult<O, Input>
    where
        P: Drop,
        ensures answer { result ≡ standard (answer_with self.entry value) }
        ensures input { self.exit.1.1.0.now ≡ self.entry.input.now }
        ensures state { self.exit.1.1.1.0.now ≡ self.entry.state.now }
    {
        let Iter {
            parser: _,
            mode: _,
            input: _,
            state: _,
            given,
            stage,
        } = self;
        stage.answer(given, value).into_result()
    }
}

impl<'a, Input: Stream, P: Parser<Input> + Drop, M: ParseMode> Iterator for Iter<'a, Input, P, M> {
    type Item = P::Output;

    ghost can_next = { may_go_on P.Parser Input.StreamOnce M.first };

    ghost next_gives = { Nexts P.Parser Input.StreamOnce M.first Input.Error.observers P.PartialState.is_default };

    ghost remaining = { at_most_left P.Parser Input.StreamOnce M.first };

    fn next(&mut self) -> Option<P::Output> {
        if !self.stage.is_running() {
            return None;
        }
        match iter_step(&mut self.parser, self.mode, self.input, self.state) {
            IterStep::Gives(value) => {
                self.mode.set_first();
                self.given = true;
                Some(value)
            }
            IterStep::Over => {
                self.stage = IterStage::Over;
                None
            }
            IterStep::Fails(error) => {
                self.stage = IterStage::Failed(error);
                None
            }
        }
    }
}

/// What a turn did.
enum IterStep<A, E> {
    /// It is a block with that value.
    Gives(A),
    /// It was refused peeked, and put back.
    Over,
    /// It was refused committed, needs more, takes nothing or met a fault.
    Fails(E),
}

/// Runs one turn.
#[inline(always)]
fn iter_step<Input: Stream, P: Parser<Input>, M: ParseMode>(
    parser: &mut P,
    mode: M,
    input: &mut Input,
    state: &mut P::PartialState,
) -> IterStep<P::Output, Input::Error>
    requires { ⟦<P as Calls<Input>>⟧.ready parser.old state.old }
    ensures { TurnCalled P.Parser Input.StreamOnce Input.Error.observers P.PartialState.is_default
        parser.old parser.new input.old input.new (M.first mode) state.old state.new result }
{
    let checkpoint = input.checkpoint();
    let position = input.position();
    let (value, committed) = match parser.parse_mode(mode, input, state) {
        ParseResult::CommitOk(value) => (value, true),
        ParseResult::PeekOk(value) => (value, false),
        ParseResult::PeekErr(_refusal) => {
            if let Err(kind) = input.reset(checkpoint) {
                return IterStep::Fails(input.new_error(kind, position));
            }
            return IterStep::Over;
        }
        ParseResult::CommitErr(error) => return IterStep::Fails(error),
    };
    if !is_block(mode.is_first(), committed, checkpoint, input) {
        return IterStep::Fails(refusal_saying(input, position, "repetition takes nothing"));
    }
    IterStep::Gives(value)
}

/// Returns whether an accepted turn counts, which has to take a token, unless it resumes.
///
/// `since` is where its part in this call began, `committed` how it was accepted.
#[inline(always)]
fn is_block<Input: Stream>(
    first: bool,
    committed: bool,
    since: Input::Checkpoint,
    input: &Input,
) -> bool
    ensures { (n : ℕ) (v : View Input.Position Input.Token) → Input.stands input.now since v → Takes Input.step n v (Input.view input.now) → result ≡ is_block_at Unbounded (iter_turn_place first) n committed }
{
    committed && has_taken(!first, since, input)
}
