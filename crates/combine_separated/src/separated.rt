//! What runs in each turn: a part, and later a separator and the part.
ghost use Rattle.std.specs.Prelude.{◌≡◌, false, true};
ghost use Rattle.combine_base.specs.Parser.GivenValues.{GivesOnly};
ghost use Rattle.combine_base.specs.Parser.Meaning.{MeansSame};
ghost use Rattle.combine_base.specs.Stream.Calls.{Passes};
ghost use Rattle.combine_separated.specs.Pair.{LedBy, led_is_meaning, led_means_one, led_valid, pair, pair_begins, pair_is_meaning, pair_means_one, pair_valid};
ghost use Rattle.combine_separated.specs.Separators.{separated_gives};
ghost use Rattle.combine_separated.specs.PartCalls.{RanCall, RanLaterCall};
ghost use Rattle.combine_separated.specs.Separated.{first_element, first_then, later_kept, later_turn, lead_good, part_of, runs_turn, separated_default, separated_fresh, separated_valid, separator_of, then_element, then_is_turn, then_once, turn_place};

use crate::pair::{PairState, PairStateOf, parse_pair};
use combine_base::error::{ParseResult, Tracked};
use combine_base::parser::{ParseMode, Parser};
use combine_base::stream::{Stream, needs_more};
use combine_repeat::turns::TurnParser;
use std::marker::PhantomData;
use std::mem;

/// The value of a turn.
#[derive(Drop)]
pub enum Element<O, V> {
    /// The first element.
    First(V),
    /// What a separator gave, and the element after it.
    Then(O, V),
}

/// What stands before a part.
#[derive(Drop)]
pub enum Lead<O> {
    /// Nothing stands before the first part.
    Nothing,
    /// What the separator before a later part gave, and whether that was committed.
    Separator(O, bool),
}

/// What is kept of a running turn: the state of a later separator, or of a part, with what stands before it.
///
/// It holds the state of a part in one place, so that parts within parts make it grow by as much at each level.
#[derive(Drop)]
pub enum SeparatedState<O, W, U> {
    /// A later separator runs, from that state.
    Separator(W),
    /// A part runs, from that state, with what stands before it.
    Part(Lead<O>, U),
}

/// Which turn runs: the first part, or a later separator and part.
#[derive(Drop)]
pub enum TurnPlace<U, Z> {
    /// The first part, with its state.
    First(U),
    /// A later separator and part, with what is kept of them.
    Later(Z),
}

impl<O, W, U: Default> Default for SeparatedState<O, W, U> {
    ghost is_default = { separated_fresh U.is_default };

    #[inline]
    fn default() -> Self {
        SeparatedState::Part(Lead::Nothing, U::default())
    }
}

impl<O, W, U> SeparatedState<O, W, U> {
    /// Returns which turn runs, with what is kept of it.
    #[inline(always)]
    pub fn into_place(self) -> TurnPlace<U, PairState<O, W, U>>
        ensures { result ≡ turn_place self }
    {
        match self {
            SeparatedState::Separator(kept) => TurnPlace::Later(PairState::Separator(kept)),
            SeparatedState::Part(lead, kept) => match lead {
                Lead::Nothing => TurnPlace::First(kept),
                Lead::Separator(value, committed) => {
                    TurnPlace::Later(PairState::Part(value, committed, kept))
                }
            },
        }
    }

    /// Makes what is kept of a later separator and part.
    #[inline(always)]
    pub fn later(pair: PairState<O, W, U>) -> Self
        ensures { result ≡ later_kept pair }
    {
        match pair {
            PairState::Separator(kept) => SeparatedState::Separator(kept),
            PairState::Part(value, committed, kept) => {
                SeparatedState::Part(Lead::Separator(value, committed), kept)
            }
        }
    }
}

/// An operator of a chain, which makes one operand of two: a closure, a function, or a type of one's own, perhaps an enum. Our own.
///
/// A type of one's own writes `fold_two`; it can then be called on any two operands, and nothing is known of what it returns. By `callable` and `answers` it says more.
///
/// It stands apart so that what shows its bound stands in a declaration of its own, as with `Function` of `combine_base`.
pub trait Folds<V> {
    /// The functions that can be called on any two operands.
    ghost callable: { Self → Type 0 } = { λ _. Unit {0} };

    /// What it may return.
    ghost answers: { Self → V → V → V → Type 0 } = { λ _ _ _ _. Unit {0} };

    /// Makes one operand of two.
    fn fold_two(self, left: V, right: V) -> V
        requires { callable self }
        ensures { answers self left right result };
}

impl<V, F: FnOnce(V, V) -> V> Folds<V> for F {
    ghost callable = { λ f. F.IsAlwaysCallable f };

    ghost answers = { λ f x y r. F.post f x y r };

    #[inline(always)]
    fn fold_two(self, left: V, right: V) -> V {
        self(left, right)
    }
}

/// What is asked of each value that a separator gives, between values of this type.
pub trait Leads<O, V> {
    ghost good: { O → Type 0 };
}

/// Nothing is asked of it.
#[derive(Drop)]
pub struct Anything;

impl<O, V> Leads<O, V> for Anything {
    ghost good = { λ _. Unit {0} };
}

/// It is a function that can be called on any two operands.
#[derive(Drop)]
pub struct ChainOperator;

impl<O: Folds<V> + Drop, V: Drop> Leads<O, V> for ChainOperator {
    ghost good = { λ f. O.callable f };
}

/// A part, and later a separator and the part, where the separator gives what `L` asks for.
#[derive(Drop)]
#[derive_where(Clone, Copy; P, S)]
pub struct Separated<P, S, L> {
    /// The parser of a part.
    pub parser: P,
    /// The parser of a separator.
    pub separator: S,
    /// What is asked of each value that the separator gives.
    pub asks: PhantomData<L>,
}

/// Returns which turn a call runs, with the state that it runs from: a turn that begins, or the one that is kept.
#[inline(always)]
pub fn begin_turn<O: Drop, W: Default + Drop, U: Default + Drop, M: ParseMode>(
    later: bool,
    mode: M,
    kept: SeparatedState<O, W, U>,
) -> TurnPlace<U, PairState<O, W, U>>
    ensures { runs_turn U.is_default (pair_begins W.is_default) later (M.first mode) kept result }
{
    if !mode.is_first() {
        return kept.into_place();
    }
    if later {
        return TurnPlace::Later(PairState::default());
    }
    TurnPlace::First(U::default())
}

/// Runs the first part, from what is kept of it.
#[inline(always)]
fn run_first<Input: Stream, P: Parser<Input>, O: Drop, W: Drop, M: ParseMode>(
    parser: &mut P,
    mode: M,
    kept: P::PartialState,
    input: &mut Input,
    state: &mut SeparatedState<O, W, P::PartialState>,
) -> ParseResult<Element<O, P::Output>, Input::Error>
    requires lawful { P.lawful parser.old }
    requires valid { P.valid kept }
    requires starts { M.first mode ≡ true → P.PartialState.is_default kept }
    ensures lawful { P.lawful parser.new }
    ensures same { MeansSame (P.meaning parser.old) (P.meaning parser.new) }
    ensures passes { Passes (Input.marks input.old) (Input.marks input.new) (Input.failures input.old) (Input.failures input.new) }
    ensures ran { RanCall Input.StreamOnce Input.Error.observers P.PartialState.is_default (P.meaning parser.old) P.valid first_element (λ s. SeparatedState.Part Lead.Nothing s) kept state.old state.new input.old input.new result }
{
    let mut kept = kept;
    match parser.parse_mode(mode, input, &mut kept) {
        ParseResult::CommitOk(value) => ParseResult::CommitOk(Element::First(value)),
        ParseResult::PeekOk(value) => ParseResult::PeekOk(Element::First(value)),
        ParseResult::CommitErr(error) => {
            if needs_more(input, &error) {
                *state = SeparatedState::Part(Lead::Nothing, kept);
                return ParseResult::CommitErr(error);
            }
            ParseResult::CommitErr(error)
        }
        ParseResult::PeekErr(refusal) => ParseResult::PeekErr(refusal),
    }
}

/// Runs a separator and a part, from what is kept of them.
#[inline(always)]
fn run_later<Input: Stream, P: Parser<Input>, S: Parser<Input>, M: ParseMode>(
    separator: &mut S,
    parser: &mut P,
    mode: M,
    kept: PairStateOf<Input, S, P>,
    input: &mut Input,
    state: &mut SeparatedState<S::Output, S::PartialState, P::PartialState>,
) -> ParseResult<Element<S::Output, P::Output>, Input::Error>
    requires lawful { S.lawful separator.old × P.lawful parser.old }
    requires valid { pair_valid S.valid P.valid kept }
    requires starts { M.first mode ≡ true → pair_begins S.PartialState.is_default kept }
    ensures lawful { S.lawful separator.new × P.lawful parser.new }
    ensures parts { MeansSame (S.meaning separator.old) (S.meaning separator.new) × MeansSame (P.meaning parser.old) (P.meaning parser.new) }
    ensures same { MeansSame (pair Input.step Input.Error.observers (S.meaning separator.old) (P.meaning parser.old)) (pair Input.step Input.Error.observers (S.meaning separator.new) (P.meaning parser.new)) }
    ensures passes { Passes (Input.marks input.old) (Input.marks input.new) (Input.failures input.old) (Input.failures input.new) }
    ensures ran { RanLaterCall Input.StreamOnce Input.Error.observers S.PartialState.is_default (S.meaning separator.old) (P.meaning parser.old) (λ z. LedBy (S.meaning separator.old) kept z × pair_valid S.valid P.valid z) then_element kept state.old state.new input.old input.new result }
{
    let mut left = PairState::default();
    match parse_pair(separator, parser, mode, input, kept, &mut left) {
        ParseResult::CommitOk(pair) => {
            let (separator, value) = pair;
            ParseResult::CommitOk(Element::Then(separator, value))
        }
        ParseResult::PeekOk(pair) => {
            let (separator, value) = pair;
            ParseResult::PeekOk(Element::Then(separator, value))
        }
        ParseResult::CommitErr(error) => {
            if needs_more(input, &error) {
                *state = SeparatedState::later(left);
                return ParseResult::CommitErr(error);
            }
            ParseResult::CommitErr(error)
        }
        ParseResult::PeekErr(refusal) => ParseResult::PeekErr(refusal),
    }
}

impl<Input: Stream, P: Parser<Input>, S: Parser<Input>, L: Leads<S::Output, P::Output>> TurnParser<
    Input,
> for Separated<P, S, L> {
    type Value = Element<S::Output, P::Output>;

    type Running = SeparatedState<S::Output, S::PartialState, P::PartialState>;

    ghost lawful = { λ p. GivesOnly S.valid (S.meaning (separator_of p)) L.good × S.lawful (separator_of p) × P.lawful (part_of p) };

    ghost determined = { λ p. S.determined (separator_of p) × P.determined (part_of p) };

    ghost valid = { separated_valid P.valid (led_valid L.good S.valid P.valid) };

    ghost meaning = { λ p. first_then first_element then_element (P.meaning (part_of p)) (pair Input.step Input.Error.observers (S.meaning (separator_of p)) (P.meaning (part_of p))) };

    ghost again = { λ p. later_turn then_element (pair Input.step Input.Error.observers (S.meaning (separator_of p)) (P.meaning (part_of p))) };

    ghost ending = { λ _. false };

    ghost gives = { lead_good L.good };

    #[inline(always)]
    fn parse_turn<M: ParseMode>(
        &mut self,
        later: bool,
        mode: M,
        input: &mut Input,
        state: &mut Self::Running,
    ) -> ParseResult<Self::Value, Input::Error> {
        let place = begin_turn(later, mode, mem::take(state));
        match place {
            TurnPlace::First(kept) => run_first(&mut self.parser, mode, kept, input, state),
            TurnPlace::Later(kept) => run_later(
                &mut self.separator,
                &mut self.parser,
                mode,
                kept,
                input,
                state,
            ),
        }
    }

    fn add_error(&mut self, error: &mut Tracked<Input::Error>) {
        self.parser.add_error(error);
    }

    #[inline(always)]
    fn is_last(value: &Self::Value) -> bool {
        false
    }

    ghost default_valid = { λ s d. separated_default P.PartialState.is_default P.valid (led_valid L.good S.valid P.valid) P.default_valid s d };

    ghost laws = { λ p l. then_is_turn first_element then_element (P.laws (part_of p) l.2) (led_is_meaning L.good S.valid P.valid (pair_is_meaning Input.step Input.Error.observers (S.laws (separator_of p) l.1) (P.laws (part_of p) l.2))) };

    ghost single = { λ p l d. then_once first_element then_element (P.single (part_of p) l.2 d.1) (led_means_one L.good S.valid P.valid (pair_means_one Input.step Input.Error.observers (S.single (separator_of p) l.1 d.0) (P.single (part_of p) l.2 d.1))) };

    ghost gives_only = { λ p l. separated_gives Input.step Input.Error.observers P.valid (P.meaning (part_of p)) l.0 };
}
