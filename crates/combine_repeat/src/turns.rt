//! The loop that all repetitions run, and what it keeps.
ghost use Rattle.std.specs.Prelude.{◌≡◌, ◌||◌, ℕ, Bool, false, true, MatchResult, if◌then◌else◌};
ghost use Rattle.combine_base.specs.Stream.View.{View, Takes};
ghost use Rattle.combine_base.specs.Parser.AnswersCalls.{AnswersCall};
ghost use Rattle.combine_base.specs.Parser.Reasons.{ReasonedCall};
ghost use Rattle.combine_base.specs.Stream.Calls.{Passes};
ghost use Rattle.combine_base.specs.Error.Errors.{Only};
ghost use Rattle.combine_base.specs.Error.Items.{Count, Message};
ghost use Rattle.combine_base.specs.Refusals.{HasItems};
ghost use Rattle.combine_base.specs.Sequence.Parts.{accepted_as, refused_as};
ghost use Rattle.combine_repeat.specs.Turns.OneTurn.{IsGathered, stopped_answer, stopped_state};
ghost use Rattle.combine_repeat.specs.Turns.SoundValues.{LeavesSound, kept_sound, sound_at};
ghost use Rattle.combine_repeat.specs.Turns.Bounds.{JudgesRefusal, TurnStepRefuses, turns_from, gathered, cut_at, fresh_turns, kept_or, running_turn, so_far};
ghost use Rattle.combine_repeat.specs.Turns.Turn.{TurnsSame, called, started};
ghost use Rattle.combine_repeat.specs.Turns.TurnCalls.{HaltsCall, OneTurnCall, TurnsCall};

use crate::bounds::{Lack, TurnBounds, TurnIndex};
use combine_base::error::{Info, ParseError, ParseResult, Tracked, accepted_after, refused_after};
use combine_base::parser::{FirstMode, ParseMode, Parser};
use combine_base::refusal::refusal_saying;
use combine_base::stream::{Kind, Stream, asks_for_more, needs_more};
use std::alloc::AllocError;
use std::mem;

/// What runs in a turn: the first one, or any later one, which may differ.
pub trait TurnParser<Input: Stream> {
    ghost use Rattle.std.specs.Prelude.{◌≡◌, Bool, true};
    ghost use Rattle.combine_base.specs.Parser.Meaning.{Meaning};
    ghost use Rattle.combine_base.specs.Parser.AnswersCalls.{AnswersCall};
    ghost use Rattle.combine_base.specs.Parser.Reasons.{ReasonedCall};
    ghost use Rattle.combine_base.specs.Error.Errors.{AddsItems};
    ghost use Rattle.combine_base.specs.Stream.Calls.{Passes};
    ghost use Rattle.combine_repeat.specs.Turns.Turn.{Start, TurnsSame, TurnsOnce, TurnsGive, IsTurn, called};

    /// What a turn gives.
    type Value: Drop;

    /// What is kept of a running turn.
    type Running: Default + Drop;

    ghost lawful: { Self → Type 0 };

    ghost determined: { Self → Type 0 };

    ghost valid: { Self.Running → Type 0 };

    /// The first turn from its start, and any from a kept state.
    ghost meaning: { Self → Meaning Input.Position Input.Token Input.Range Input.Error Self.Value Self.Running };

    /// A later turn from its start: its outcomes, and the errors of its refusals.
    ghost again: { Self → Start Input.Position Input.Token Input.Error Self.Value };

    /// The values that end the turns.
    ghost ending: { Self.Value → Bool };

    /// What holds of each value that a turn gives.
    ghost gives: { Self.Value → Type 0 };

    /// Parses the first turn, or goes on with any from the kept state.
    fn parse_turn<M: ParseMode>(
        &mut self,
        later: bool,
        mode: M,
        input: &mut Input,
        state: &mut Self::Running,
    ) -> ParseResult<Self::Value, Input::Error>
        requires lawful { lawful self.old }
        requires valid { valid state.old }
        requires fresh { M.first mode ≡ true → Self.Running.is_default state.old }
        ensures lawful { lawful self.new }
        ensures valid { valid state.new }
        ensures same { TurnsSame (meaning self.old) (again self.old) (meaning self.new) (again self.new) }
        ensures passes { Passes (Input.marks input.old) (Input.marks input.new) (Input.failures input.old) (Input.failures input.new) }
        ensures answers { AnswersCall Input.StreamOnce Input.Error.observers Self.Running.is_default (called (meaning self.old) (again self.old) later) (M.first mode) state.old state.new input.old input.new result }
        ensures refuses { ReasonedCall Input.Error.observers (called (meaning self.old) (again self.old) later) (M.first mode) state.old (Input.view input.old) (Input.view input.new) result };

    /// Adds what the first turn adds.
    fn add_error(&mut self, error: &mut Tracked<Input::Error>)
        requires { lawful self.old }
        ensures lawful { lawful self.new }
        ensures same { TurnsSame (meaning self.old) (again self.old) (meaning self.new) (again self.new) }
        ensures says { AddsItems Input.Error.observers (meaning self.old).heapless (meaning self.old).adds error.old.error error.new.error };

    /// Returns whether this value ends the turns.
    fn is_last(value: &Self::Value) -> bool
        ensures { result ≡ ending value.now };

    ghost default_valid: { (s : Self.Running) → Self.Running.is_default s → valid s };

    ghost laws: { (p : Self) → lawful p → IsTurn Self.Running.is_default valid (meaning p) (again p) };

    ghost single: { (p : Self) → lawful p → determined p → TurnsOnce valid ending (meaning p) (again p) };

    ghost gives_only: { (p : Self) → lawful p → TurnsGive valid (meaning p) (again p) gives };
}

/// What values are gathered into, whatever these are. So the compiler finds the value of a repetition without that of its part.
pub trait Gathers {
    /// What they are gathered into.
    type Into: Drop;
}

/// How the values of turns are gathered.
pub trait Gather<A> {
    ghost use Rattle.std.specs.Prelude.{◌≡◌, Bool, MatchResult};
    ghost use Rattle.combine_repeat.specs.Turns.SoundValues.{KeepsSound};

    /// What they are gathered into.
    type Collection: Drop;

    ghost Held: { Type 0 };

    ghost held: { Self.Collection → Held };

    /// What is held before any value.
    ghost none: { Held };

    /// What is held after one more value.
    ghost more: { Held → A → Held → Type 0 };

    /// What gathering needs of a value, as that a function can be called.
    ghost able: { A → Type 0 } = { λ _. Unit {0} };

    /// What is known of what is held, where no turn is over or one is, and each value of it met that need.
    ghost sound: { Bool → Held → Type 0 };

    /// Holds where it takes no memory.
    ghost heapless: { Type 0 };

    /// Adds a value to what is gathered.
    fn gather(into: Self::Collection, value: A) -> Result<Self::Collection, AllocError>
        requires { able value }
        ensures { MatchResult result (λ i. more (held into) value (held i)) (λ _. heapless → ⊥) };

    ghost keeps_sound: { KeepsSound none more able sound };
}

/// How values are gathered from none on.
pub trait Collect<A>: Gather<A> {
    ghost use Rattle.std.specs.Prelude.{◌≡◌, MatchResult, Bool};

    /// Whether what is gathered shows the values.
    ghost keeps: { Bool };

    /// Returns an empty gathering, with room for that many values.
    fn empty(&self, room: usize) -> Result<Self::Collection, AllocError>
        ensures { MatchResult result (λ i. Self.held i ≡ Self.none) (λ _. Self.heapless → ⊥) };

    /// Returns whether what is gathered shows the values.
    fn keeps(&self) -> bool
        ensures { result ≡ keeps };

    /// It takes each value, and nothing is asked of what is held.
    ghost takes_any: { (a : A) → Self.able a };

    ghost holds_any: { (k : Bool) (h : Self.Held) → Self.sound k h };
}

/// The turns so far: what is gathered, whether one committed, and which one runs.
#[derive(Drop)]
pub struct TurnProgress<F> {
    into: F,
    committed: bool,
    index: TurnIndex,
}

impl<F> TurnProgress<F> {
    /// Returns the turns where none is over yet: the first one runs, or would if there is one.
    #[inline]
    pub fn none_yet(into: F) -> TurnProgress<F>
        ensures { result ≡ record { into = into; committed = false; index = record { number = 0; took_before = false } } }
    {
        TurnProgress {
            into,
            committed: false,
            index: TurnIndex::first(),
        }
    }

    /// Returns the turns with one more, which is committed or not.
    #[inline(always)]
    fn or_committed(self, committed: bool) -> TurnProgress<F>
        ensures { result ≡ record { into = self.into; committed = self.committed || committed; index = self.index } }
    {
        let TurnProgress {
            into,
            committed: before,
            index,
        } = self;
        TurnProgress {
            into,
            committed: before || committed,
            index,
        }
    }

    /// Returns the same turns in the next piece.
    #[inline(always)]
    fn cut<Input: Stream>(self, since: Input::Checkpoint, input: &Input) -> TurnProgress<F>
        ensures { (n : ℕ) (v : View Input.Position Input.Token) → Input.stands input.now since v → Takes Input.step n v (Input.view input.now) → result ≡ record { into = self.into; committed = self.committed; index = cut_at self.index n } }
    {
        let TurnProgress {
            into,
            committed,
            index,
        } = self;
        TurnProgress {
            into,
            committed,
            index: index.cut(since, input),
        }
    }

    /// Accepts what is gathered: the turns end.
    #[inline(always)]
    fn end<E>(self) -> ParseResult<F, E>
        ensures { result ≡ accepted_as self.committed self.into }
    {
        let TurnProgress {
            into,
            committed,
            index: _,
        } = self;
        accepted_after(committed, into)
    }

    /// Refuses where a turn that is missing is refused peeked: committed if a turn before it was.
    #[inline(always)]
    fn refused<E: Drop>(self, refusal: Tracked<E>) -> ParseResult<F, E>
    where
        F: Drop,
        ensures { result ≡ refused_as self.committed refusal }
    {
        refused_after(self.committed, refusal)
    }
}

/// What is kept of the turns before the one that runs.
#[derive(Drop)]
pub enum Earlier<F> {
    /// No turn is over, and nothing is gathered.
    Nothing,
    /// These turns are over.
    Gathered(TurnProgress<F>),
}

/// What a repetition keeps while more input is needed: the turns so far, and the state of the one that runs.
#[derive(Drop)]
pub struct TurnsState<F, S> {
    earlier: Earlier<F>,
    running: S,
}

impl<F, S: Default> Default for TurnsState<F, S> {
    ghost is_default = { fresh_turns S.is_default };

    #[inline]
    fn default() -> Self {
        TurnsState {
            earlier: Earlier::Nothing,
            running: S::default(),
        }
    }
}

impl<F: Drop, S: Default + Drop> TurnsState<F, S> {
    /// Takes the turns that are kept, if the call resumes and there are any; else those of the start. A call that begins afresh runs its first turn from a default state.
    #[inline(always)]
    fn begin(&mut self, first: bool, start: TurnProgress<F>) -> TurnProgress<F>
        ensures turns { result ≡ (if first then start else kept_or start self.old.earlier) }
        ensures resumed { first ≡ false → self.new.running ≡ self.old.running }
        ensures afresh { first ≡ true → S.is_default self.new.running }
        ensures left { self.new.earlier ≡ Earlier.Nothing }
    {
        let earlier = mem::replace(&mut self.earlier, Earlier::Nothing);
        if first {
            self.running = S::default();
            return start;
        }
        match earlier {
            Earlier::Gathered(turns) => turns,
            Earlier::Nothing => start,
        }
    }
}

/// What a turn did.
pub enum TurnStep<F, E> {
    /// It is a block, and the next one runs.
    Goes(TurnProgress<F>),
    /// The turns stop.
    Stops(TurnStop<F, E>),
}

/// Why no further turn runs.
pub enum TurnStop<F, E> {
    /// The turns end, accepted.
    Over(TurnProgress<F>),
    /// A turn that is missing is refused peeked.
    Refused(TurnProgress<F>, Tracked<E>),
    /// The turn needs more.
    More(TurnProgress<F>, E),
    /// The turn is refused committed, takes nothing, or met a fault.
    Failed(E),
}

/// Parses a turn, which begins afresh or goes on from its state.
///
/// One that begins afresh has a state of its own, which is stored on need of more alone.
#[inline(always)]
fn parse_turn<Input: Stream, P: TurnParser<Input>, M: ParseMode>(
    parser: &mut P,
    later: bool,
    mode: M,
    input: &mut Input,
    state: &mut P::Running,
) -> ParseResult<P::Value, Input::Error>
    requires lawful { P.lawful parser.old }
    requires valid { P.valid state.old }
    requires fresh { M.first mode ≡ true → P.Running.is_default state.old }
    ensures lawful { P.lawful parser.new }
    ensures valid { P.valid state.new }
    ensures same { TurnsSame (P.meaning parser.old) (P.again parser.old) (P.meaning parser.new) (P.again parser.new) }
    ensures passes { Passes (Input.marks input.old) (Input.marks input.new) (Input.failures input.old) (Input.failures input.new) }
    ensures answers { AnswersCall Input.StreamOnce Input.Error.observers P.Running.is_default (called (P.meaning parser.old) (P.again parser.old) later) (M.first mode) state.old state.new input.old input.new result }
    ensures refuses { ReasonedCall Input.Error.observers (called (P.meaning parser.old) (P.again parser.old) later) (M.first mode) state.old (Input.view input.old) (Input.view input.new) result }
{
    if !mode.is_first() {
        return parser.parse_turn(later, mode, input, state);
    }
    let mut own = P::Running::default();
    let answer = parser.parse_turn(later, FirstMode, input, &mut own);
    if asks_for_more(input, &answer) {
        *state = own;
    }
    answer
}

/// Makes the error of a refusal of that kind that says how many turns are missing.
#[inline]
fn too_few<Input: Stream>(
    input: &Input,
    position: Input::Position,
    why: Kind,
    missing: usize,
) -> Input::Error
    ensures { HasItems Input.Error.observers why position (Only (Message (Count missing))) result }
{
    let mut error = input.new_error(why, position);
    error.add_message(&Info::More(missing));
    error
}

/// Gathers what the turn gave, and goes on to the next one.
#[inline(always)]
fn gather_turn<A, G: Gather<A>>(
    turns: TurnProgress<G::Collection>,
    value: A,
    next: TurnIndex,
) -> Result<TurnProgress<G::Collection>, AllocError>
    requires { G.able value }
    ensures { MatchResult result (λ n. IsGathered G.held G.more turns value next n) (λ _. G.heapless → ⊥) }
{
    let TurnProgress {
        into,
        committed,
        index: _,
    } = turns;
    Ok(TurnProgress {
        into: G::gather(into, value)?,
        committed,
        index: next,
    })
}

/// Judges a turn that is refused peeked, the stream having stood at that checkpoint and position where it began.
#[inline(always)]
fn judge_refusal<G: Gather<P::Value>, Input: Stream, P: TurnParser<Input>, B: TurnBounds>(
    bounds: B,
    turns: TurnProgress<G::Collection>,
    since: Input::Checkpoint,
    position: Input::Position,
    refusal: Tracked<Input::Error>,
    input: &mut Input,
) -> TurnStop<G::Collection, Input::Error>
    ensures passes { Passes (Input.marks input.old) (Input.marks input.new) (Input.failures input.old) (Input.failures input.new) }
    ensures halted { (p : P) (later : Bool) → HaltsCall Input.StreamOnce Input.Error.observers P.Running.is_default (B.bounds bounds) P.ending (gathered G.held G.none G.more G.heapless) (called (P.meaning p) (P.again p) later) (Input.stands input.old since) input.old input.new refusal turns result }
    ensures refuses { (p : P) (later : Bool) → JudgesRefusal Input.step Input.Error.observers (B.bounds bounds) P.ending (called (P.meaning p) (P.again p) later) turns position refusal.error (Input.view input.old) (Input.view input.new) result }
{
    match bounds.lacks(turns.index) {
        Lack::Nothing => {
            if let Err(kind) = input.reset(since) {
                return TurnStop::Failed(input.new_error(kind, position));
            }
            TurnStop::Over(turns)
        }
        Lack::First => TurnStop::Refused(turns, refusal),
        Lack::Turns(missing) => {
            let error = too_few(input, position, refusal.error.kind(), missing);
            if error.kind() == Kind::Memory {
                return TurnStop::Failed(error);
            }
            TurnStop::Refused(turns, Tracked::from(error))
        }
    }
}

/// Runs one turn, and gathers its value where it is a block.
#[inline(always)]
fn one_turn<G: Gather<P::Value>, Input: Stream, P: TurnParser<Input>, B: TurnBounds, M: ParseMode>(
    parser: &mut P,
    bounds: B,
    later: bool,
    mode: M,
    turns: TurnProgress<G::Collection>,
    input: &mut Input,
    running: &mut P::Running,
) -> TurnStep<G::Collection, Input::Error>
    requires able { (a : P.Value) → P.gives a → G.able a }
    requires lawful { P.lawful parser.old }
    requires valid { P.valid running.old }
    requires fresh { M.first mode ≡ true → P.Running.is_default running.old }
    ensures lawful { P.lawful parser.new }
    ensures valid { P.valid running.new }
    ensures same { TurnsSame (P.meaning parser.old) (P.again parser.old) (P.meaning parser.new) (P.again parser.new) }
    ensures passes { Passes (Input.marks input.old) (Input.marks input.new) (Input.failures input.old) (Input.failures input.new) }
    ensures turned { OneTurnCall Input.StreamOnce Input.Error.observers P.Running.is_default (B.bounds bounds) P.ending (gathered G.held G.none G.more G.heapless) (called (P.meaning parser.old) (P.again parser.old) later) (M.first mode) running.old running.new input.old input.new turns result }
    ensures refuses { TurnStepRefuses Input.step Input.Error.observers (B.bounds bounds) P.ending (started (called (P.meaning parser.old) (P.again parser.old) later) (M.first mode) running.old) (Input.view input.old) (Input.view input.new) turns result }
{
    let since = input.checkpoint();
    let position = input.position();
    let (value, committed) = match parse_turn(parser, later, mode, input, running) {
        ParseResult::CommitOk(value) => (value, true),
        ParseResult::PeekOk(value) => (value, false),
        ParseResult::PeekErr(refusal) => {
            return TurnStep::Stops(judge_refusal::<G, Input, P, B>(
                bounds, turns, since, position, refusal, input,
            ));
        }
        ParseResult::CommitErr(error) => {
            if needs_more(input, &error) {
                return TurnStep::Stops(TurnStop::More(turns.cut(since, input), error));
            }
            return TurnStep::Stops(TurnStop::Failed(error));
        }
    };
    if P::is_last(&value) {
        return TurnStep::Stops(TurnStop::Over(turns.or_committed(committed)));
    }
    let Some(next) = bounds.next(turns.index, committed, since, input) else {
        let error = refusal_saying(input, position, "repetition takes nothing");
        return TurnStep::Stops(TurnStop::Failed(error));
    };
    match gather_turn::<P::Value, G>(turns.or_committed(committed), value, next) {
        Ok(turns) => TurnStep::Goes(turns),
        Err(_refused) => TurnStep::Stops(TurnStop::Failed(input.new_error(Kind::Memory, position))),
    }
}

/// Returns the result of turns that stopped for this reason. If they need more, they are kept in `state`.
#[inline(always)]
fn stopped<F: Drop, S: Drop, E: Drop>(
    why: TurnStop<F, E>,
    state: &mut TurnsState<F, S>,
) -> ParseResult<F, E>
    ensures answer { result ≡ stopped_answer why }
    ensures state { state.new ≡ stopped_state why state.old }
{
    match why {
        TurnStop::Over(turns) => turns.end(),
        TurnStop::Refused(turns, refusal) => turns.refused(refusal),
        TurnStop::More(turns, error) => {
            state.earlier = Earlier::Gathered(turns);
            ParseResult::CommitErr(error)
        }
        TurnStop::Failed(error) => ParseResult::CommitErr(error),
    }
}

/// Makes one call of turns, which go on from what is kept, or else begin from `start`.
#[inline(always)]
pub fn take_turns<
    G: Gather<P::Value>,
    Input: Stream,
    P: TurnParser<Input>,
    M: ParseMode,
    B: TurnBounds,
>(
    parser: &mut P,
    bounds: B,
    start: TurnProgress<G::Collection>,
    mode: M,
    input: &mut Input,
    state: &mut TurnsState<G::Collection, P::Running>,
) -> ParseResult<G::Collection, Input::Error>
    requires able { (a : P.Value) → P.gives a → G.able a }
    requires sound { kept_sound (λ k i. G.sound k (G.held i)) state.old × sound_at (λ k i. G.sound k (G.held i)) start }
    requires lawful { P.lawful parser.old }
    requires valid { P.valid (running_turn state.old) }
    ensures lawful { P.lawful parser.new }
    ensures valid { P.valid (running_turn state.new) }
    ensures sound { LeavesSound (B.bounds bounds) P.ending (λ k i. G.sound k (G.held i)) state.new result }
    ensures same { TurnsSame (P.meaning parser.old) (P.again parser.old) (P.meaning parser.new) (P.again parser.new) }
    ensures passes { Passes (Input.marks input.old) (Input.marks input.new) (Input.failures input.old) (Input.failures input.new) }
    ensures answers { TurnsCall Input.StreamOnce Input.Error.observers P.Running.is_default (B.bounds bounds) P.ending (gathered G.held G.none G.more G.heapless) (so_far G.held start) (P.meaning parser.old) (P.again parser.old) (M.first mode) state.old state.new input.old input.new result }
    ensures refuses { ReasonedCall Input.Error.observers (turns_from Input.step Input.Error.observers (B.bounds bounds) P.ending (gathered G.held G.none G.more G.heapless) (so_far G.held start) (P.meaning parser.old) (P.again parser.old)) (M.first mode) state.old (Input.view input.old) (Input.view input.new) result }
{
    let mut turns = state.begin(mode.is_first(), start);
    let mut later = false;
    if !mode.is_first() {
        if bounds.is_full(turns.index) {
            state.running = P::Running::default();
            return turns.end();
        }
        match one_turn::<G, Input, P, B, M>(
            parser,
            bounds,
            false,
            mode,
            turns,
            input,
            &mut state.running,
        ) {
            TurnStep::Stops(why) => return stopped(why, state),
            TurnStep::Goes(next) => {
                turns = next;
                later = true;
            }
        }
    }
    'turns: loop {
        if bounds.is_full(turns.index) {
            return turns.end();
        }
        match one_turn::<G, Input, P, B, FirstMode>(
            parser,
            bounds,
            later,
            FirstMode,
            turns,
            input,
            &mut state.running,
        ) {
            TurnStep::Stops(why) => return stopped(why, state),
            TurnStep::Goes(next) => {
                turns = next;
                later = true;
            }
        }
    }
}
