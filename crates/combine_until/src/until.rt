//! Blocks of a parser up to the first place where it says that they end: the loop, and what is kept of it.
ghost use Rattle.std.specs.Prelude.{◌≡◌, ◌||◌, ◌&&◌, ℕ, nat_lt, not, false, true, MatchResult};
ghost use Rattle.combine_base.specs.Parser.AnswersCalls.{AnswersCall};
ghost use Rattle.combine_base.specs.Parser.Meaning.{MeansSame};
ghost use Rattle.combine_base.specs.Parser.Reasons.{ReasonedCall};
ghost use Rattle.combine_base.specs.Sequence.Parts.{accepted_as};
ghost use Rattle.combine_base.specs.Stream.Calls.{Passes};
ghost use Rattle.combine_base.specs.Stream.View.{Takes, View};
ghost use Rattle.combine_base.specs.Distances.{losing};
ghost use Rattle.combine_until.specs.Until.{blocks_so_far, some_appended, until_fresh, until_valid, until};
ghost use Rattle.combine_until.specs.UntilTurn.{OneBlockCall, ReachesPlace, HandsOutBlocks, KeepsBlocks, KeepsRunning, RefusesTurn, SettlesBlocks};

use combine_base::distance::measure;
use combine_base::error::{ParseResult, Tracked, accepted_after};
use combine_base::parser::{ParseMode, Parser};
use combine_base::refusal::refusal_saying;
use combine_base::repeat::Append;
use combine_base::stream::{Kind, Stream, has_taken, needs_more};
use std::alloc::AllocError;
use std::mem::replace;

/// The blocks so far: what is collected, whether one was committed, and whether the running one took a token in an earlier piece.
#[derive(Drop)]
pub struct Blocks<F> {
    into: F,
    committed: bool,
    took_before: bool,
}

impl<F> Blocks<F> {
    #[inline(always)]
    fn none(into: F) -> Blocks<F>
        ensures { result ≡ record { into = into; committed = false; took_before = false } }
    {
        Blocks {
            into,
            committed: false,
            took_before: false,
        }
    }

    /// Returns the blocks, committed if that is, or they were.
    #[inline(always)]
    fn or_committed(self, committed: bool) -> Blocks<F>
        ensures { result ≡ record { into = self.into; committed = self.committed || committed; took_before = self.took_before } }
    {
        let Blocks {
            into,
            committed: before,
            took_before,
        } = self;
        Blocks {
            into,
            committed: before || committed,
            took_before,
        }
    }

    /// Returns the same blocks in the next piece.
    #[inline(always)]
    fn cut<Input: Stream>(self, since: Input::Checkpoint, input: &Input) -> Blocks<F>
        ensures { (n : ℕ) (v : View Input.Position Input.Token) → Input.stands input.now since v → Takes Input.step n v (Input.view input.now) → result ≡ record { into = self.into; committed = self.committed; took_before = self.took_before || nat_lt 0 n } }
    {
        let Blocks {
            into,
            committed,
            took_before,
        } = self;
        Blocks {
            into,
            committed,
            took_before: has_taken(took_before, since, input),
        }
    }

    /// Returns the blocks with one more value.
    #[inline(always)]
    fn add<A>(self, value: A) -> Result<Blocks<F>, AllocError>
    where
        F: Append<A>,
        ensures { MatchResult result (λ n. blocks_so_far F.held n ≡ record { mark = false; held = F.more (F.held self.into) value; committed = self.committed }) (λ _. F.heapless → ⊥) }
    {
        let Blocks {
            mut into,
            committed,
            took_before: _,
        } = self;
        into.append(value)?;
        Ok(Blocks {
            into,
            committed,
            took_before: false,
        })
    }

    /// Accepts what is collected.
    #[inline(always)]
    fn end<E>(self) -> ParseResult<F, E>
        ensures { result ≡ accepted_as self.committed self.into }
    {
        let Blocks {
            into,
            committed,
            took_before: _,
        } = self;
        accepted_after(committed, into)
    }
}

/// What is kept while more input is needed.
///
/// That is how many tokens stand before the place where the running part began, how many it has read beyond, the blocks, and its state.
#[derive(Drop)]
pub struct KeptBlocks<F, S> {
    before: u64,
    beyond: u64,
    blocks: Blocks<F>,
    running: S,
}

impl<F, S: Default> KeptBlocks<F, S> {
    /// Returns what is kept where nothing is read yet.
    #[inline(always)]
    fn nothing(into: F) -> KeptBlocks<F, S>
        ensures place { (result.before ≡ 0) × (result.beyond ≡ 0) }
        ensures blocks { result.blocks ≡ record { into = into; committed = false; took_before = false } }
        ensures fresh { S.is_default result.running }
    {
        KeptBlocks {
            before: 0,
            beyond: 0,
            blocks: Blocks::none(into),
            running: S::default(),
        }
    }
}

/// The state of a repetition up to a place.
#[derive(Drop)]
pub enum UntilState<F, S> {
    /// Nothing is kept, and the next call begins.
    Begin,
    /// The next call passes over what was read, and goes on.
    At(KeptBlocks<F, S>),
}

impl<F, S> Default for UntilState<F, S> {
    ghost is_default = { until_fresh };

    #[inline]
    fn default() -> Self {
        UntilState::Begin
    }
}

impl<F: Drop, S: Default + Drop> UntilState<F, S> {
    /// Hands out what a call begins with: what is kept, unless it begins afresh.
    #[inline(always)]
    fn hand_out(&mut self, first: bool, into: F) -> KeptBlocks<F, S>
        ensures out { HandsOutBlocks S.is_default into first self.old result }
        ensures left { self.new ≡ UntilState.Begin }
    {
        match replace(self, UntilState::Begin) {
            UntilState::Begin => KeptBlocks::nothing(into),
            UntilState::At(kept) => {
                if first {
                    return KeptBlocks::nothing(into);
                }
                kept
            }
        }
    }
}

/// Why no further block runs.
pub enum BlockStop<F, E> {
    /// The blocks end there, accepted.
    Over(Blocks<F>),
    /// No block is there, refused peeked.
    Refused(Tracked<E>),
    /// The running part needs more.
    More(Blocks<F>, E),
    /// The running part is refused committed, or met a fault; or a block takes nothing.
    Failed(E),
}

/// What came of one turn.
pub enum BlockStep<F, E> {
    /// It is a block, and the next one runs.
    Goes(Blocks<F>),
    /// The blocks stop.
    Stops(BlockStop<F, E>),
}

/// Returns the kind of a failure to pass over the kept distance.
#[inline]
fn lost(kind: Kind) -> Kind
    ensures { result ≡ losing kind }
{
    match kind {
        Kind::End => Kind::Lost,
        other => other,
    }
}

/// Passes over the tokens before the place where the running part began, and over those that it has read, and returns the checkpoint of that place.
#[inline(always)]
fn pass_to<Input: Stream>(
    input: &mut Input,
    before: u64,
    beyond: u64,
) -> Result<Input::Checkpoint, Kind>
    ensures passes { Passes (Input.marks input.old) (Input.marks input.new) (Input.failures input.old) (Input.failures input.new) }
    ensures comes { ReachesPlace Input.counts_failures Input.step (Input.stands input.new) (Input.view input.old) (Input.view input.new) (Input.failures input.old) (Input.failures input.new) before beyond result }
{
    if let Err(kind) = input.advance_by(before) {
        return Err(kind);
    }
    let place = input.checkpoint();
    if let Err(kind) = input.advance_by(beyond) {
        return Err(kind);
    }
    Ok(place)
}

/// Returns whether an accepted turn is a block: `since` is where its part in this piece began, `committed` how it was accepted.
#[inline(always)]
fn is_block<Input: Stream>(
    took_before: bool,
    committed: bool,
    since: Input::Checkpoint,
    input: &Input,
) -> bool
    ensures { (n : ℕ) (v : View Input.Position Input.Token) → Input.stands input.now since v → Takes Input.step n v (Input.view input.now) → result ≡ (committed && (took_before || nat_lt 0 n)) }
{
    committed && has_taken(took_before, since, input)
}

/// Runs one turn, which began at that place; if its parser says that the blocks end, the stream is put back to it.
#[inline(always)]
fn one_block<
    A: Drop,
    F: Append<A>,
    Input: Stream,
    N: Parser<Input, Output = Option<A>>,
    M: ParseMode,
>(
    parser: &mut N,
    place: Input::Checkpoint,
    mode: M,
    blocks: Blocks<F>,
    input: &mut Input,
    running: &mut N::PartialState,
) -> BlockStep<F, Input::Error>
    requires lawful { N.lawful parser.old }
    requires valid { N.valid running.old }
    ensures lawful { N.lawful parser.new }
    ensures valid { N.valid running.new }
    ensures same { MeansSame (N.meaning parser.old) (N.meaning parser.new) }
    ensures passes { Passes (Input.marks input.old) (Input.marks input.new) (Input.failures input.old) (Input.failures input.new) }
    ensures turned { OneBlockCall Input.StreamOnce Input.Error.observers N.PartialState.is_default (N.meaning parser.old) (some_appended F.held F.none F.more F.heapless) (M.first mode) running.old running.new input.old input.new (Input.stands input.old place) blocks result }
    ensures refuses { RefusesTurn Input.Error.observers (N.meaning parser.old) (M.first mode) running.old blocks.took_before (Input.view input.old) (Input.view input.new) result }
{
    let position = input.position();
    let since = input.checkpoint();
    let (value, committed) = match parser.parse_explained(mode, input, running) {
        ParseResult::CommitOk(value) => (value, true),
        ParseResult::PeekOk(value) => (value, false),
        ParseResult::PeekErr(refusal) => return BlockStep::Stops(BlockStop::Refused(refusal)),
        ParseResult::CommitErr(error) => {
            if needs_more(input, &error) {
                return BlockStep::Stops(BlockStop::More(blocks.cut(since, input), error));
            }
            return BlockStep::Stops(BlockStop::Failed(error));
        }
    };
    match value {
        None => match input.reset(place) {
            Ok(()) => BlockStep::Stops(BlockStop::Over(blocks.or_committed(committed))),
            Err(kind) => BlockStep::Stops(BlockStop::Failed(input.new_error(kind, position))),
        },
        Some(value) => {
            if !is_block(blocks.took_before, committed, since, input) {
                let error = refusal_saying(input, position, "repetition takes nothing");
                return BlockStep::Stops(BlockStop::Failed(error));
            }
            match blocks.or_committed(committed).add(value) {
                Ok(blocks) => BlockStep::Goes(blocks),
                Err(_refused) => {
                    BlockStep::Stops(BlockStop::Failed(input.new_error(Kind::Memory, position)))
                }
            }
        }
    }
}

/// Puts the stream back to the start on need of more, and keeps the distances: from there to the place where the running part began, and from it to where the stream was.
fn keep<F, Input: Stream, S>(
    blocks: Blocks<F>,
    need: Input::Error,
    start: Input::Checkpoint,
    place: Input::Checkpoint,
    position: Input::Position,
    input: &mut Input,
    running: S,
    state: &mut UntilState<F, S>,
) -> ParseResult<F, Input::Error>
where
    F: Drop,
    S: Drop,
    ensures passes { Passes (Input.marks input.old) (Input.marks input.new) (Input.failures input.old) (Input.failures input.new) }
    ensures keeps { KeepsBlocks Input.counts_failures Input.step Input.Error.observers.kind (Input.stands input.old start) (Input.stands input.old place) (Input.view input.old) (Input.view input.new) (Input.failures input.old) (Input.failures input.new) blocks running need state.old state.new result }
    ensures left { KeepsRunning running state.old state.new }
{
    let beyond = match measure(input, place) {
        Ok(distance) => distance,
        Err(kind) => return ParseResult::CommitErr(input.new_error(kind, position)),
    };
    let before = match measure(input, start) {
        Ok(distance) => distance,
        Err(kind) => return ParseResult::CommitErr(input.new_error(kind, position)),
    };
    *state = UntilState::At(KeptBlocks {
        before,
        beyond,
        blocks,
        running,
    });
    ParseResult::CommitErr(need)
}

/// Returns the result of blocks that stopped for this reason.
#[inline(always)]
fn settle_blocks<F, Input: Stream, S>(
    why: BlockStop<F, Input::Error>,
    start: Input::Checkpoint,
    place: Input::Checkpoint,
    position: Input::Position,
    input: &mut Input,
    running: S,
    state: &mut UntilState<F, S>,
) -> ParseResult<F, Input::Error>
where
    F: Drop,
    S: Drop,
    ensures passes { Passes (Input.marks input.old) (Input.marks input.new) (Input.failures input.old) (Input.failures input.new) }
    ensures settled { SettlesBlocks Input.counts_failures Input.step Input.Error.observers.kind (Input.stands input.old start) (Input.stands input.old place) (Input.view input.old) (Input.view input.new) (Input.failures input.old) (Input.failures input.new) running state.old state.new result why }
    ensures left { KeepsRunning running state.old state.new }
{
    match why {
        BlockStop::Over(blocks) => blocks.end(),
        BlockStop::Refused(refusal) => ParseResult::PeekErr(refusal),
        BlockStop::Failed(error) => ParseResult::CommitErr(error),
        BlockStop::More(blocks, error) => {
            keep(blocks, error, start, place, position, input, running, state)
        }
    }
}

/// Collects blocks of `parser` up to the first place where it says that they end, from `empty` on, with the stream put back to that place.
#[inline(always)]
pub fn take_blocks<
    A: Drop,
    F: Append<A>,
    Input: Stream,
    N: Parser<Input, Output = Option<A>>,
    M: ParseMode,
>(
    parser: &mut N,
    empty: F,
    mode: M,
    input: &mut Input,
    state: &mut UntilState<F, N::PartialState>,
) -> ParseResult<F, Input::Error>
    requires lawful { N.lawful parser.old }
    requires valid { until_valid N.valid state.old }
    requires empty { F.held empty ≡ F.none }
    ensures lawful { N.lawful parser.new }
    ensures valid { until_valid N.valid state.new }
    ensures same { MeansSame (N.meaning parser.old) (N.meaning parser.new) }
    ensures passes { Passes (Input.marks input.old) (Input.marks input.new) (Input.failures input.old) (Input.failures input.new) }
    ensures answers { AnswersCall Input.StreamOnce Input.Error.observers until_fresh (until Input.step Input.Error.observers (some_appended F.held F.none F.more F.heapless) (N.meaning parser.old)) (M.first mode) state.old state.new input.old input.new result }
    ensures refuses { ReasonedCall Input.Error.observers (until Input.step Input.Error.observers (some_appended F.held F.none F.more F.heapless) (N.meaning parser.old)) (M.first mode) state.old (Input.view input.old) (Input.view input.new) result }
{
    let start = input.checkpoint();
    let position = input.position();
    let KeptBlocks {
        before,
        beyond,
        blocks,
        mut running,
    } = state.hand_out(mode.is_first(), empty);
    let mut place = match pass_to(input, before, beyond) {
        Ok(place) => place,
        Err(kind) => return ParseResult::CommitErr(input.new_error(lost(kind), position)),
    };
    let mut blocks = blocks.or_committed(before > 0);
    'turns: loop {
        match one_block(parser, place, mode, blocks, input, &mut running) {
            BlockStep::Goes(next) => blocks = next,
            BlockStep::Stops(why) => return settle_blocks(
                why, start, place, position, input, running, state,
            ),
        }
        place = input.checkpoint();
    }
}
