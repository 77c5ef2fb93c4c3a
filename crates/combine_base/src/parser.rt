//! The protocol of parsers, and the calls that run one.
ghost use Rattle.std.specs.Prelude.{◌≡◌, ℕ, ◌+◌, ◌<◌, ◌≤◌, List, [], ◌∷◌, ◌++◌, Bool, true, false, IsTrue, length, drop};

use crate::error::{ErrorOffset, ParseResult, Tracked};
use crate::refusal::{add_unexpected_token, peeked, token_at};
use crate::stream::{Kind, Stream};

mod answer;
mod calls;
mod references;

pub use answer::{Answer, judge};
pub use calls::Calls;

/// How a call begins: afresh, or from a kept state.
pub trait ParseMode: Copy {
    /// The modes that begin afresh.
    ghost first: { Self → Bool };

    /// Returns whether the call begins afresh.
    fn is_first(self) -> bool
        ensures { result ≡ first self };

    /// Makes it the mode of a call that begins afresh.
    fn set_first(&mut self)
        ensures { first self.new ≡ true };
}

/// A call that begins afresh, whatever the state holds.
#[derive(Clone, Copy)]
pub struct FirstMode;

impl ParseMode for FirstMode {
    ghost first = { λ _. true };

    fn is_first(self) -> bool {
        true
    }

    fn set_first(&mut self) {}
}

/// A call that goes on from the kept state, until `first` is set.
#[derive(Clone, Copy, Default)]
pub struct PartialMode {
    /// Set if the call begins afresh after all.
    pub first: bool,
}

impl ParseMode for PartialMode {
    ghost first = { λ m. m.first };

    fn is_first(self) -> bool {
        self.first
    }

    fn set_first(&mut self) {
        self.first = true;
    }
}

/// The value that a parser gives over a stream, apart from how it parses.
///
/// It stands apart from [`Parser`] so that the compiler finds the value of a nested parser without going through all of its bounds; an implementation names a part once at most.
pub trait Outputs<Input> {
    /// The value of an acceptance.
    type Output: Drop;
}

/// A parser over a stream.
///
/// An implementation writes `parse_mode`, `add_error` and `parser_count`; the other calls have bodies over them.
/// It gives its meaning, the laws of that meaning, and what its calls need.
///
/// # Differences from combine
///
/// - `Output` is that of [`Outputs`], a trait of its own.
/// - An implementation writes `parser_count` too. The crate's `parse_mode_impl` and `parse_committed_mode` aren't there.
/// - The method forms of the constructors stand in `ParserExt`.
pub trait Parser<Input: Stream>: Outputs<Input> {
    ghost use Rattle.std.specs.Prelude.{◌≡◌, ℕ, true, false, Bool, Option, Some, None};
    ghost use Rattle.combine_base.specs.Stream.View.{View};
    ghost use Rattle.combine_base.specs.Parser.Meaning.{Meaning, IsMeaning, IsSingle, MeansOne, MeansSame, begun_refuses};
    ghost use Rattle.combine_base.specs.Parser.Answer.{world};
    ghost use Rattle.combine_base.specs.Parser.AnswersCalls.{AnswersCall, ParsesCall, ResultsCall};
    ghost use Rattle.combine_base.specs.Error.Errors.{AddsItems};
    ghost use Rattle.combine_base.specs.Parser.Drivers.{Explains, Explained, Starts};
    ghost use Rattle.combine_base.specs.Parser.Reasons.{Reasoned, ReasonedCall};
    ghost use Rattle.combine_base.specs.Stream.Calls.{Passes};
    ghost use Rattle.combine_base.specs.declared.stream.Failures.{Failures};

    /// What is kept while more input is needed.
    type PartialState: Default + Drop;

    /// What a call needs of a caller's functions and types.
    ghost lawful: { Self → Type 0 } = { λ _. Unit {0} };

    /// What a caller's functions owe so that there is one outcome, by its shape.
    ///
    /// No call needs it.
    ///
    /// Those on whose value an outcome depends, as that of `then`, answer from what their arguments hold.
    ghost determined: { Self → Type 0 } = { λ _. Unit {0} };

    /// The states that a call may be given: a parser that a state holds is lawful.
    ghost valid: { Self.PartialState → Type 0 } = { λ _. Unit {0} };

    /// Which outcomes the parser has on a view, from the start and from a state, and which errors its refusals have.
    ghost meaning: { Self → Meaning Input.Position Input.Token Input.Range Input.Error Self.Output Self.PartialState };

    /// How many parsers are run one after another, at most 255.
    ghost parts: { Self → ℕ } = { λ _. 1 };

    /// Parses, afresh or from the kept state.
    ///
    /// An acceptance has taken exactly its tokens. After every result but need of more the state is a default one.
    ///
    /// # Errors
    ///
    /// A refusal is `PeekErr`, or `CommitErr` if it is committed, and leaves an end of the unread tokens. A fault is `CommitErr`.
    ///
    /// # Partial input
    ///
    /// Need of more is `CommitErr` of kind `End` on an open stream. The state then keeps what the next call goes on with.
    fn parse_mode<M: ParseMode>(
        &mut self,
        mode: M,
        input: &mut Input,
        state: &mut Self::PartialState,
    ) -> ParseResult<Self::Output, Input::Error>
        requires lawful { lawful self.old }
        requires valid { valid state.old }
        ensures lawful { lawful self.new }
        ensures valid { valid state.new }
        ensures same { MeansSame (meaning self.old) (meaning self.new) }
        ensures passes { Passes (Input.marks input.old) (Input.marks input.new) (Input.failures input.old) (Input.failures input.new) }
        ensures answers { AnswersCall Input.StreamOnce Input.Error.observers Self.PartialState.is_default (meaning self.old) (M.first mode) state.old state.new input.old input.new result }
        ensures refuses { ReasonedCall Input.Error.observers (meaning self.old) (M.first mode) state.old (Input.view input.old) (Input.view input.new) result };

    /// Adds what this parser expected to an error, which is its own or that of a parser round it.
    ///
    /// An item that finds no memory makes it an error of kind `Memory`.
    fn add_error(&mut self, error: &mut Tracked<Input::Error>)
        requires { lawful self.old }
        ensures lawful { lawful self.new }
        ensures same { MeansSame (meaning self.old) (meaning self.new) }
        ensures says { AddsItems Input.Error.observers (meaning self.old).heapless (meaning self.old).adds error.old.error error.new.error };

    /// Returns how many parsers are run one after another, at most 255.
    fn parser_count(&self) -> ErrorOffset
        ensures { result.0 ≡ parts self.now };

    /// Puts the stream back to where this parser was refused peeked, and adds to the error which token stands there and what was expected.
    ///
    /// # Errors
    ///
    /// The kind of a reset or of a read that failed.
    final fn explain(
        &mut self,
        start: Input::Checkpoint,
        input: &mut Input,
        error: &mut Tracked<Input::Error>,
    ) -> Result<(), Kind>
        requires { lawful self.old }
        ensures lawful { lawful self.new }
        ensures same { MeansSame (meaning self.old) (meaning self.new) }
        ensures passes { Passes (Input.marks input.old) (Input.marks input.new) (Input.failures input.old) (Input.failures input.new) }
        ensures explains { Explains Input.counts_failures Input.step (Input.stands input.old start) (Input.view input.old) (Input.view input.new) (Input.failures input.old) (Input.failures input.new) Input.Error.observers (meaning self.old).heapless (meaning self.old).adds error.old.error error.new.error result }
    {
        match token_at(start, input)? {
            Some(token) => {
                add_unexpected_token(&mut error.error, token);
                self.add_error(error);
            }
            None => self.add_error(error),
        }
        Ok(())
    }

    /// Parses as `parse_mode` does, and puts a peeked refusal back and explains it.
    ///
    /// # Errors
    ///
    /// A reset or a read that fails meanwhile is a committed fault.
    #[inline(always)]
    final fn parse_explained<M: ParseMode>(
        &mut self,
        mode: M,
        input: &mut Input,
        state: &mut Self::PartialState,
    ) -> ParseResult<Self::Output, Input::Error>
        requires lawful { lawful self.old }
        requires valid { valid state.old }
        ensures lawful { lawful self.new }
        ensures valid { valid state.new }
        ensures same { MeansSame (meaning self.old) (meaning self.new) }
        ensures passes { Passes (Input.marks input.old) (Input.marks input.new) (Input.failures input.old) (Input.failures input.new) }
        ensures answers { AnswersCall Input.StreamOnce Input.Error.observers Self.PartialState.is_default (meaning self.old) (M.first mode) state.old state.new input.old input.new result }
        ensures explained { Explained Input.Error.observers (meaning self.old) (begun_refuses (meaning self.old) (M.first mode) state.old) (Input.view input.old) (Input.view input.new) result }
    {
        let start = input.checkpoint();
        let position = input.position();
        match self.parse_mode(mode, input, state) {
            ParseResult::PeekErr(refusal) => {
                let mut refusal = refusal;
                match self.explain(start, input, &mut refusal) {
                    Ok(()) => peeked(refusal),
                    Err(kind) => ParseResult::CommitErr(input.new_error(kind, position)),
                }
            }
            answer => answer,
        }
    }

    /// Parses from the start, whatever the state holds.
    final fn parse_first(
        &mut self,
        input: &mut Input,
        state: &mut Self::PartialState,
    ) -> ParseResult<Self::Output, Input::Error>
        requires lawful { lawful self.old }
        requires valid { valid state.old }
        ensures lawful { lawful self.new }
        ensures valid { valid state.new }
        ensures same { MeansSame (meaning self.old) (meaning self.new) }
        ensures passes { Passes (Input.marks input.old) (Input.marks input.new) (Input.failures input.old) (Input.failures input.new) }
        ensures answers { AnswersCall Input.StreamOnce Input.Error.observers Self.PartialState.is_default (meaning self.old) true state.old state.new input.old input.new result }
        ensures refuses { ReasonedCall Input.Error.observers (meaning self.old) true state.old (Input.view input.old) (Input.view input.new) result }
    {
        self.parse_mode(FirstMode, input, state)
    }

    /// Goes on from the kept state; a default one begins.
    final fn parse_partial(
        &mut self,
        input: &mut Input,
        state: &mut Self::PartialState,
    ) -> ParseResult<Self::Output, Input::Error>
        requires lawful { lawful self.old }
        requires valid { valid state.old }
        ensures lawful { lawful self.new }
        ensures valid { valid state.new }
        ensures same { MeansSame (meaning self.old) (meaning self.new) }
        ensures passes { Passes (Input.marks input.old) (Input.marks input.new) (Input.failures input.old) (Input.failures input.new) }
        ensures answers { AnswersCall Input.StreamOnce Input.Error.observers Self.PartialState.is_default (meaning self.old) false state.old state.new input.old input.new result }
        ensures refuses { ReasonedCall Input.Error.observers (meaning self.old) false state.old (Input.view input.old) (Input.view input.new) result }
    {
        self.parse_mode(PartialMode::default(), input, state)
    }

    /// Parses from the start, and leaves a refusal as it is.
    ///
    /// # Partial input
    ///
    /// Need of more is a committed error of kind `End`. What was kept is dropped.
    final fn parse_lazy(&mut self, input: &mut Input) -> ParseResult<Self::Output, Input::Error>
        requires { lawful self.old }
        ensures lawful { lawful self.new }
        ensures same { MeansSame (meaning self.old) (meaning self.new) }
        ensures passes { Passes (Input.marks input.old) (Input.marks input.new) (Input.failures input.old) (Input.failures input.new) }
        ensures answers { Starts (world Input.step Input.Error.observers Input.counts_failures Self.PartialState.is_default)
            (meaning self.old) (Input.view input.old) (Input.view input.new) (Input.failures input.old) (Input.failures input.new) result }
        ensures refuses { Reasoned Input.Error.observers.kind (Input.view input.new).is_open ((meaning self.old).refuses (Input.view input.old) (Input.view input.new)) result }
    {
        let mut state = Self::PartialState::default();
        self.parse_mode(FirstMode, input, &mut state)
    }

    /// Parses from the start, and explains a peeked refusal.
    ///
    /// # Errors
    ///
    /// On a peeked refusal the stream is put back, and the error says which token stands there and what was expected.
    ///
    /// # Partial input
    ///
    /// Need of more is a committed error of kind `End`. What was kept is dropped.
    final fn parse_stream(&mut self, input: &mut Input) -> ParseResult<Self::Output, Input::Error>
        requires { lawful self.old }
        ensures lawful { lawful self.new }
        ensures same { MeansSame (meaning self.old) (meaning self.new) }
        ensures passes { Passes (Input.marks input.old) (Input.marks input.new) (Input.failures input.old) (Input.failures input.new) }
        ensures answers { Starts (world Input.step Input.Error.observers Input.counts_failures Self.PartialState.is_default)
            (meaning self.old) (Input.view input.old) (Input.view input.new) (Input.failures input.old) (Input.failures input.new) result }
        ensures explained { Explained Input.Error.observers (meaning self.old) (meaning self.old).refuses (Input.view input.old) (Input.view input.new) result }
    {
        let mut state = Self::PartialState::default();
        self.parse_explained(FirstMode, input, &mut state)
    }

    /// Goes on from the kept state, where a default one begins, and returns the value or the error.
    ///
    /// # Errors
    ///
    /// The error of a refusal, which `parse_stream` would return, or that of a fault.
    ///
    /// # Partial input
    ///
    /// Need of more is an error of kind `End` on an open stream. The state then keeps what the next call goes on with.
    final fn parse_with_state(
        &mut self,
        input: &mut Input,
        state: &mut Self::PartialState,
    ) -> Result<Self::Output, Input::Error>
        requires lawful { lawful self.old }
        requires valid { valid state.old }
        ensures lawful { lawful self.new }
        ensures valid { valid state.new }
        ensures same { MeansSame (meaning self.old) (meaning self.new) }
        ensures passes { Passes (Input.marks input.old) (Input.marks input.new) (Input.failures input.old) (Input.failures input.new) }
        ensures results { ResultsCall Input.StreamOnce Input.Error.observers Self.PartialState.is_default (meaning self.old) state.old state.new input.old input.new result }
    {
        self.parse_explained(PartialMode::default(), input, state)
            .without_commit()
    }

    /// Parses from the start, and returns the value and the input that is left.
    ///
    /// Where the caller's functions answer from their arguments alone (`determined`), the outcome is the only one by its shape: its kind, its commitment and how many tokens it takes. Its value is any that the meaning allows.
    ///
    /// # Errors
    ///
    /// The error of a refusal, which `parse_stream` would return, or that of a fault.
    ///
    /// # Partial input
    ///
    /// Over an open stream need of more is an error of kind `End`. `parse_with_state` and a [`Session`] go on.
    ///
    /// # Examples
    ///
    /// ```
    /// fn pair(input: &[u8]) -> Result<((u8, u8), &[u8]), UnexpectedParse> {
    ///     (token(b'a'), token(b'b')).parse(input)
    /// }
    /// ```
    ///
    /// On `b"abc"` it returns `((b'a', b'b'), b"c")`.
    final fn parse(&mut self, input: Input) -> Result<(Self::Output, Input), Input::Error>
        requires { lawful self.old }
        ensures lawful { lawful self.new }
        ensures same { MeansSame (meaning self.old) (meaning self.new) }
        ensures single { determined self.old → IsSingle (meaning self.old).whole }
        ensures results { ParsesCall Input.StreamOnce Input.Error.observers Self.PartialState.is_default (meaning self.old) input result }
    {
        let mut input = input;
        let mut state = Self::PartialState::default();
        match self
            .parse_explained(FirstMode, &mut input, &mut state)
            .without_commit()
        {
            Ok(value) => Ok((value, input)),
            Err(error) => Err(error),
        }
    }

    /// Adds nothing.
    final fn add_committed_expected_error(&mut self, error: &mut Tracked<Input::Error>)
        requires { lawful self.old }
        ensures lawful { lawful self.new }
        ensures same { MeansSame (meaning self.old) (meaning self.new) }
        ensures nothing { error.new ≡ error.old }
    {}

    /// A default state is valid.
    ghost default_valid: { (s : Self.PartialState) → Self.PartialState.is_default s → valid s };

    /// The meaning of a lawful parser keeps the laws of meanings (`IsMeaning`).
    ghost laws: { (p : Self) → lawful p → IsMeaning Self.PartialState.is_default valid (meaning p) };

    /// Where `determined` holds too, there is one outcome, by its shape.
    ghost single: { (p : Self) → lawful p → determined p → MeansOne valid (meaning p) };
}
