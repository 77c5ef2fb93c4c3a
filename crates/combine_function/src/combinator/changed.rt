//! A parser whose value is changed, or refused.
ghost use Rattle.std.specs.Prelude.{◌≡◌};
ghost use Rattle.combine_base.specs.Parser.GivenValues.{GivesOnly};
ghost use Rattle.combine_function.specs.Changes.{ChangesOne, changed_meaning, changed_is_meaning, changed_means_one, spares};
ghost use Rattle.combine_function.specs.ChangeParsers.{changed_of, changed_part, change_part};

use combine_base::error::{ErrorOffset, ParseResult, Tracked};
use combine_base::parser::{Outputs, ParseMode, Parser};
use combine_base::refusal::peeked;
use combine_base::stream::{Positioned, Stream, StreamOnce};
use std::marker::PhantomData;

/// How a value is changed, or refused. Our own.
///
/// The crate writes each of its parsers by itself.
pub trait ValueChange<Input: Stream, A> {
    ghost use Rattle.std.specs.Prelude.{◌≡◌, ℕ};
    ghost use Rattle.combine_base.specs.Stream.Calls.{Passes};
    ghost use Rattle.combine_function.specs.Changes.{Changes};

    /// What the value is changed into.
    type Output: Drop;

    /// What a call with that value needs.
    ghost callable: { Self → A → Type 0 };

    /// What a value may be changed into, where the parser left the stream at that position.
    ghost gives: { Self → Input.Position → A → Self.Output → Type 0 };

    /// The value may be refused.
    ghost denies: { Self → A → Type 0 };

    /// The value may find no memory.
    ghost starves: { Self → A → Type 0 };

    /// What error a refusal of the value may have, where the parser began at that position.
    ghost says: { Self → Input.Position → A → Input.Error → Type 0 };

    /// How many parsers a parser that makes this change counts as, by the count of its part.
    ghost counted: { ℕ → ℕ };

    /// Returns the value changed, or the error of a refusal or of a fault; the stream is left in place.
    ///
    /// The parser began at that position.
    fn change(
        &self,
        value: A,
        began: Input::Position,
        input: &mut Input,
    ) -> Result<Self::Output, Input::Error>
        requires { callable self.now value }
        ensures passes { Passes (Input.marks input.old) (Input.marks input.new) (Input.failures input.old) (Input.failures input.new) }
        ensures view { Input.view input.new ≡ Input.view input.old }
        ensures failures { Input.failures input.new ≡ Input.failures input.old }
        ensures changes { Changes Input.Error.observers (gives self.now (Input.view input.old).position value) (denies self.now value) (starves self.now value) (says self.now began value) result };

    /// Returns how many parsers a parser that makes this change counts as, by the count of its part.
    fn count(part: ErrorOffset) -> ErrorOffset
        ensures { result.0 ≡ counted part.0 };
}

/// As its part, the value changed into a `B`, or refused; the state is that of the part.
#[derive(Drop)]
#[derive_where(Clone, Copy; P, C)]
pub struct Changed<P, C, B> {
    part: P,
    change: C,
    gives: PhantomData<B>,
}

impl<P, C, B> Changed<P, C, B> {
    /// Returns the parser of this part and this change.
    #[inline]
    pub fn new(part: P, change: C) -> Self
        ensures { result ≡ changed_of part change }
    {
        Changed {
            part,
            change,
            gives: PhantomData,
        }
    }
}

impl<Input, P, C, B: Drop> Outputs<Input> for Changed<P, C, B> {
    type Output = B;
}

impl<Input: Stream, P: Parser<Input>, B: Drop, C: ValueChange<Input, P::Output, Output = B>> Parser<
    Input,
> for Changed<P, C, B> {
    type PartialState = P::PartialState;

    ghost lawful = { λ p. P.lawful (changed_part p) × GivesOnly P.valid (P.meaning (changed_part p)) (C.callable (change_part p)) };

    ghost determined = { λ p. P.determined (changed_part p) × ChangesOne Input.step P.valid (P.meaning (changed_part p)) (C.gives (change_part p)) (C.denies (change_part p)) };

    ghost valid = { P.valid };

    ghost meaning = { λ p. changed_meaning Input.step (C.gives (change_part p)) (C.denies (change_part p)) (C.says (change_part p)) (GivesOnly P.valid (P.meaning (changed_part p)) (spares (C.starves (change_part p)))) (P.meaning (changed_part p)) };

    ghost parts = { λ p. C.counted (P.parts (changed_part p)) };

    ghost default_valid = { P.default_valid };

    ghost laws = { λ p l. changed_is_meaning Input.step (C.gives (change_part p)) (C.denies (change_part p)) (C.says (change_part p)) (GivesOnly P.valid (P.meaning (changed_part p)) (spares (C.starves (change_part p)))) (P.laws (changed_part p) l.0) };

    ghost single = { λ p l d. changed_means_one Input.step (C.gives (change_part p)) (C.denies (change_part p)) (C.says (change_part p)) (GivesOnly P.valid (P.meaning (changed_part p)) (spares (C.starves (change_part p)))) (P.single (changed_part p) l.0 d.0) d.1 };

    #[inline(always)]
    fn parse_mode<M: ParseMode>(
        &mut self,
        mode: M,
        input: &mut Input,
        state: &mut Self::PartialState,
    ) -> ParseResult<B, Input::Error> {
        let began = input.position();
        match self.part.parse_mode(mode, input, state) {
            ParseResult::CommitOk(value) => match self.change.change(value, began, input) {
                Ok(value) => ParseResult::CommitOk(value),
                Err(error) => ParseResult::CommitErr(error),
            },
            ParseResult::PeekOk(value) => match self.change.change(value, began, input) {
                Ok(value) => ParseResult::PeekOk(value),
                Err(error) => peeked(Tracked::from(error)),
            },
            ParseResult::CommitErr(error) => ParseResult::CommitErr(error),
            ParseResult::PeekErr(refusal) => ParseResult::PeekErr(refusal),
        }
    }

    /// Adds what the parser adds whose value is changed.
    #[inline]
    fn add_error(&mut self, error: &mut Tracked<Input::Error>) {
        self.part.add_error(error);
    }

    #[inline]
    fn parser_count(&self) -> ErrorOffset {
        C::count(self.part.parser_count())
    }
}
