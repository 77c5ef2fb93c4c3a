//! Choices: the first alternative that isn't refused peeked gives the result.
ghost use Rattle.std.specs.Prelude.{◌≡◌};
ghost use Rattle.combine_choices.specs.ChoiceParsers.{choice_parser};

use combine_base::error::{ErrorOffset, ParseResult, Tracked};
use combine_base::parser::{FirstMode, ParseMode, Parser, PartialMode};
use combine_base::stream::Stream;

pub mod laws;
mod single;
pub mod slice;
mod tuples;
pub mod types;

pub use combine_choice::or::{OrState, optional, or, or_is_associative};
pub use slice::{Slice, SliceState};
use types::Choice;

/// The value that a choice of these alternatives gives over a stream, as [`Outputs`](combine_base::parser::Outputs) has it for a parser.
pub trait ChoiceOutputs<Input> {
    /// The value of an acceptance.
    type Output: Drop;
}

/// Alternatives of which the first, in order, that isn't refused peeked gives the result.
///
/// # Errors
///
/// If all are refused peeked so is the choice, and their errors are merged in order. A committed refusal of an alternative ends the choice, and so does a fault.
///
/// # Partial input
///
/// On need of more the running alternative is kept. If it is then refused peeked, the later ones are still tried.
///
/// # Differences from combine
///
/// The crate's choice stays with the alternative that took tokens before the cut.
pub trait ChoiceParser<Input: Stream>: ChoiceOutputs<Input> {
    ghost use Rattle.std.specs.Prelude.{true, false};
    ghost use Rattle.combine_base.specs.Parser.Meaning.{Meaning, IsMeaning, MeansOne, MeansSame};
    ghost use Rattle.combine_base.specs.Parser.AnswersCalls.{AnswersCall};
    ghost use Rattle.combine_base.specs.Parser.Reasons.{ReasonedCall};
    ghost use Rattle.combine_base.specs.Error.Errors.{AddsItems};
    ghost use Rattle.combine_base.specs.Stream.Calls.{Passes};

    /// What is kept while more input is needed: the running alternative and its state.
    type PartialState: Default + Drop;

    /// What a call needs of the alternatives.
    ghost lawful: { Self → Type 0 };

    /// What the caller's functions owe so that there is one outcome.
    ghost determined: { Self → Type 0 };

    /// The states that a call may be given.
    ghost valid: { Self.PartialState → Type 0 };

    /// Which outcomes the choice has on a view, from the start and from a state, and which errors its refusals have.
    ghost meaning: { Self → Meaning Input.Position Input.Token Input.Range Input.Error Self.Output Self.PartialState };

    /// Chooses, afresh or from the kept state, as `parse_mode` of a parser parses.
    fn parse_mode_choice<M: ParseMode>(
        &mut self,
        mode: M,
        input: &mut Input,
        state: &mut Self::PartialState,
    ) -> ParseResult<Self::Output, Input::Error>
        requires lawful { lawful self.old }
        requires valid { valid state.old }
        ensures lawful { lawful self.new }
        ensures valid { valid state.new }
        ensures same { MeansSame (meaning self.old) (meaning self.new) }
        ensures passes { Passes (Input.marks input.old) (Input.marks input.new) (Input.failures input.old) (Input.failures input.new) }
        ensures answers { AnswersCall Input.StreamOnce Input.Error.observers Self.PartialState.is_default (meaning self.old) (M.first mode) state.old state.new input.old input.new result }
        ensures refuses { ReasonedCall Input.Error.observers (meaning self.old) (M.first mode) state.old (Input.view input.old) (Input.view input.new) result };

    /// Adds to an error what each alternative adds, in order.
    fn add_error_choice(&mut self, error: &mut Tracked<Input::Error>)
        requires { lawful self.old }
        ensures lawful { lawful self.new }
        ensures same { MeansSame (meaning self.old) (meaning self.new) }
        ensures says { AddsItems Input.Error.observers (meaning self.old).heapless (meaning self.old).adds error.old.error error.new.error };

    /// Chooses as from a default state, whatever the state held.
    final fn parse_first(
        &mut self,
        input: &mut Input,
        state: &mut Self::PartialState,
    ) -> ParseResult<Self::Output, Input::Error>
        requires lawful { lawful self.old }
        requires valid { valid state.old }
        ensures lawful { lawful self.new }
        ensures valid { valid state.new }
        ensures same { MeansSame (meaning self.old) (meaning self.new) }
        ensures passes { Passes (Input.marks input.old) (Input.marks input.new) (Input.failures input.old) (Input.failures input.new) }
        ensures answers { AnswersCall Input.StreamOnce Input.Error.observers Self.PartialState.is_default (meaning self.old) true state.old state.new input.old input.new result }
        ensures refuses { ReasonedCall Input.Error.observers (meaning self.old) true state.old (Input.view input.old) (Input.view input.new) result }
    {
        self.parse_mode_choice(FirstMode, input, state)
    }

    /// Goes on from the kept state.
    final fn parse_partial(
        &mut self,
        input: &mut Input,
        state: &mut Self::PartialState,
    ) -> ParseResult<Self::Output, Input::Error>
        requires lawful { lawful self.old }
        requires valid { valid state.old }
        ensures lawful { lawful self.new }
        ensures valid { valid state.new }
        ensures same { MeansSame (meaning self.old) (meaning self.new) }
        ensures passes { Passes (Input.marks input.old) (Input.marks input.new) (Input.failures input.old) (Input.failures input.new) }
        ensures answers { AnswersCall Input.StreamOnce Input.Error.observers Self.PartialState.is_default (meaning self.old) false state.old state.new input.old input.new result }
        ensures refuses { ReasonedCall Input.Error.observers (meaning self.old) false state.old (Input.view input.old) (Input.view input.new) result }
    {
        self.parse_mode_choice(PartialMode::default(), input, state)
    }

    ghost default_valid: { (s : Self.PartialState) → Self.PartialState.is_default s → valid s };

    ghost laws: { (p : Self) → lawful p → IsMeaning Self.PartialState.is_default valid (meaning p) };

    ghost single: { (p : Self) → lawful p → determined p → MeansOne valid (meaning p) };
}

impl<'a, Input, P: ChoiceOutputs<Input>> ChoiceOutputs<Input> for &'a mut P {
    type Output = P::Output;
}

/// A reference to alternatives chooses as they do.
impl<'a, Input: Stream, P: ChoiceParser<Input>> ChoiceParser<Input> for &'a mut P {
    type PartialState = P::PartialState;

    ghost lawful = { λ p. P.lawful p.now };

    ghost determined = { λ p. P.determined p.now };

    ghost valid = { P.valid };

    ghost meaning = { λ p. P.meaning p.now };

    ghost default_valid = { P.default_valid };

    ghost laws = { λ p l. P.laws p.now l };

    ghost single = { λ p l d. P.single p.now l d };

    #[inline(always)]
    fn parse_mode_choice<M: ParseMode>(
        &mut self,
        mode: M,
        input: &mut Input,
        state: &mut P::PartialState,
    ) -> ParseResult<P::Output, Input::Error> {
        (**self).parse_mode_choice(mode, input, state)
    }

    #[inline]
    fn add_error_choice(&mut self, error: &mut Tracked<Input::Error>) {
        P::add_error_choice(&mut **self, error)
    }
}

/// Parses as the first of several alternatives that isn't refused peeked.
///
/// The alternatives stand in a tuple of 1 to 8 parsers, an array, or a [`Slice`]. Each begins where the choice did, with a state of its own.
///
/// # Errors
///
/// - If all are refused peeked so is the choice, and their errors are merged in order.
/// - A committed refusal ends the choice, and so does a fault.
/// - A choice of an empty array or slice is refused peeked, with the message `parser choice is empty`, also where more input may come.
/// - Two faults are the choice's own: `Reset`, if the stream can't be put back, and `Memory`, if an item of an error finds none.
///
/// # Partial input
///
/// On need of more the running alternative is kept. If it is then refused peeked, the later ones are still tried.
///
/// # Differences from combine
///
/// The crate's choice stays with the alternative that took tokens before the cut. In it the alternatives of an array or a slice share one state. A tuple has up to twenty-five alternatives there, and an array up to 32.
///
/// # Examples
///
/// ```
/// fn word(input: &str) -> Result<(&'static str, &str), UnexpectedParse> {
///     choice([string("one"), string("two"), string("three")]).parse(input)
/// }
/// ```
///
/// `"one"` is accepted; `"three"` is refused committed, since `two` took its first letter and no `attempt` stands round it.
#[inline]
pub fn choice<P>(alternatives: P) -> Choice<P>
    ensures { result ≡ choice_parser alternatives }
{
    Choice(alternatives)
}
