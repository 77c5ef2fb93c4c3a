//! The parsers that the functions of `function` return.
ghost use Rattle.std.specs.Prelude.{◌≡◌, IfOk, IfErr};
ghost use Rattle.combine_base.specs.Error.Results.{from_standard};
ghost use Rattle.combine_base.specs.Parser.Meaning.{IsSingle};
ghost use Rattle.combine_function.specs.Functions.{AnswersAt, AnswersWith, FunctionReading, IsFunction, NeedsNoMemory, as_function, as_function_is_meaning, as_function_means_one, call_of};

use combine_base::error::{ErrorOffset, ParseResult, StdParseResult, Tracked};
use combine_base::function::MutFunction;
use combine_base::parser::{Outputs, ParseMode, Parser};
use combine_base::stream::{Kind, Positioned, ResetStream, Stream, StreamOnce, needs_more};
use std::marker::PhantomData;

/// What is called as a parser. Our own.
pub trait Call<Input: Stream> {
    ghost use Rattle.std.specs.Prelude.{◌≡◌, IfErr, IfOk};
    ghost use Rattle.combine_base.specs.declared.error.result.ParseResult.{ParseResult};

    /// The value of an acceptance.
    type Value: Drop;

    ghost callable: { Self → Type 0 };

    /// What a call may return for a stream, which it then leaves so.
    ghost answers: { Self → Input → ParseResult Self.Value Input.Error → Input → Type 0 };

    /// No call finds no memory for what the function is given.
    ghost infallible: { Self → Type 0 };

    /// Calls it, or returns that what it is to be given found no memory, and the stream is as it was.
    fn call(&self, input: &mut Input) -> Result<ParseResult<Self::Value, Input::Error>, NoMemory>
        requires { callable self.now }
        ensures answers { IfOk result (λ answer. answers self.now input.old answer input.new) }
        ensures memory { IfErr result (λ _. (infallible self.now → ⊥) × (input.new ≡ input.old)) };
}

/// What a function is to be given found no memory.
#[derive(Clone, Copy, Drop)]
pub struct NoMemory;

/// A function of the stream.
#[derive(Clone, Copy, Drop)]
pub struct WithoutEnv<F>(pub(super) F);

/// A function of what it needs, and of the stream.
#[derive(Clone, Copy, Drop)]
pub struct WithEnv<E, F> {
    pub(super) env: E,
    pub(super) function: F,
}

impl<Input: Stream, O: Drop, F: MutFunction<(), Input, Output = StdParseResult<O, Input>>> Call<
    Input,
> for WithoutEnv<F> {
    type Value = O;

    ghost callable = { λ f. (i : Input) → F.callable f.0 tt i };

    ghost answers = { λ f. AnswersAt (F.returns f.0 tt) from_standard };

    ghost infallible = { λ f. Unit {0} };

    #[inline(always)]
    fn call(&self, input: &mut Input) -> Result<ParseResult<O, Input::Error>, NoMemory> {
        Ok(ParseResult::from(self.0.call_mut((), input)))
    }
}

impl<
    Input: Stream,
    O: Drop,
    E: Clone,
    F: MutFunction<(E,), Input, Output = StdParseResult<O, Input>>,
> Call<Input> for WithEnv<E, F> {
    type Value = O;

    ghost callable = { λ f. (e : E) (i : Input) → F.callable f.function (record { 0 = e }) i };

    ghost answers = { λ f. AnswersWith (E.is_clone f.env) (λ e. F.returns f.function (record { 0 = e })) from_standard };

    ghost infallible = { λ f. E.is_infallible f.env };

    #[inline(always)]
    fn call(&self, input: &mut Input) -> Result<ParseResult<O, Input::Error>, NoMemory> {
        match self.env.clone() {
            Ok(env) => Ok(ParseResult::from(self.function.call_mut((env,), input))),
            Err(_refused) => Err(NoMemory),
        }
    }
}

/// The parser that calls a function.
///
/// It keeps no state: on need of more the stream is put back, and the next call begins again.
#[derive(Drop)]
#[derive_where(Clone, Copy; C)]
pub struct Called<Input, C> {
    pub(super) call: C,
    pub(super) reads: PhantomData<Input>,
}

/// The parser of [`parser`](crate::function::parser).
pub type FnParser<Input, F> = Called<Input, WithoutEnv<F>>;

/// The parser of [`env_parser`](crate::function::env_parser), with the type of the function as `F`, where the crate has that of the value.
pub type EnvParser<E, Input, F> = Called<Input, WithEnv<E, F>>;

impl<Input: Stream, C: Call<Input>> Outputs<Input> for Called<Input, C> {
    type Output = C::Value;
}

impl<Input: Stream, C: Call<Input>> Parser<Input> for Called<Input, C> {
    type PartialState = ();

    ghost lawful = { λ p. C.callable (call_of p) × IsFunction Input.step Input.Error.observers.kind Input.view (C.answers (call_of p)) Input.marks Input.failures Input.counts_failures };

    ghost determined = { λ p. IsSingle (FunctionReading Input.step Input.Error.observers.kind Input.view (C.answers (call_of p))) };

    ghost meaning = { λ p. as_function Input.step Input.Error.observers.kind Input.view (C.answers (call_of p)) (C.infallible (call_of p) × NeedsNoMemory Input.step Input.Error.observers.kind Input.view (C.answers (call_of p))) };

    #[inline(always)]
    fn parse_mode<M: ParseMode>(
        &mut self,
        mode: M,
        input: &mut Input,
        state: &mut (),
    ) -> ParseResult<C::Value, Input::Error> {
        let start = input.checkpoint();
        let position = input.position();
        let Ok(answer) = self.call.call(input) else {
            return ParseResult::CommitErr(input.new_error(Kind::Memory, position));
        };
        match answer {
            ParseResult::CommitOk(value) => ParseResult::CommitOk(value),
            ParseResult::PeekOk(value) => ParseResult::PeekOk(value),
            ParseResult::PeekErr(refusal) => ParseResult::PeekErr(refusal),
            ParseResult::CommitErr(error) => {
                if needs_more(input, &error) {
                    return match input.reset(start) {
                        Ok(()) => ParseResult::CommitErr(error),
                        Err(kind) => ParseResult::CommitErr(input.new_error(kind, position)),
                    };
                }
                ParseResult::CommitErr(error)
            }
        }
    }

    /// Adds nothing.
    #[inline]
    fn add_error(&mut self, error: &mut Tracked<Input::Error>) {}

    #[inline]
    fn parser_count(&self) -> ErrorOffset {
        ErrorOffset(1)
    }

    ghost default_valid = { λ s d. tt };

    ghost laws = { λ p l. as_function_is_meaning Input.step Input.Error.observers.kind Input.view (C.answers (call_of p)) _ _ _ };

    ghost single = { λ p l d. as_function_means_one Input.step Input.Error.observers.kind Input.view (C.answers (call_of p)) _ _ d };
}
