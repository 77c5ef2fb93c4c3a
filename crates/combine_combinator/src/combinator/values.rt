//! Parsers that keep a part of another parser's value.
ghost use Rattle.std.specs.Prelude.{◌≡◌, ℕ};
ghost use Rattle.combine_base.specs.Parser.ValueMap.{mapped, mapped_is_meaning, mapped_means_one};
ghost use Rattle.combine_combinator.specs.CombinatorParsers.{picked_of, picked_part};
ghost use Rattle.combine_combinator.specs.ValueParts.{Picks};

use combine_base::error::{ErrorOffset, ParseResult, Tracked};
use combine_base::parser::{Outputs, ParseMode, Parser};
use combine_base::stream::Stream;
use std::marker::PhantomData;

/// What is kept of a value.
pub trait Pick<A> {
    /// What is kept.
    type Output: Drop;

    /// What is kept of that value.
    ghost picked: { A → Self.Output };

    /// How many parsers a parser that keeps this counts as, by the count of its part.
    ghost counted: { ℕ → ℕ };

    /// Returns what is kept of the value.
    fn pick(value: A) -> Self::Output
        ensures { result ≡ picked value };

    /// Returns how many parsers a parser that keeps this counts as, by the count of its part.
    fn count(inside: ErrorOffset) -> ErrorOffset
        ensures { result.0 ≡ counted inside.0 };
}

/// A parser of whose part's value `W` says what is kept, a `B`; the state is that of the part.
#[derive(Drop)]
#[derive_where(Clone, Copy; P)]
pub struct Picked<P, W, B> {
    part: P,
    pick: PhantomData<W>,
    gives: PhantomData<B>,
}

impl<P, W, B> Picked<P, W, B> {
    /// Makes the parser of this part.
    #[inline]
    pub fn new(part: P) -> Self
        ensures { result ≡ picked_of part }
    {
        Picked {
            part,
            pick: PhantomData,
            gives: PhantomData,
        }
    }
}

/// Nothing is kept of a value.
#[derive(Clone, Copy, Drop)]
pub struct Nothing;

/// The parser of [`ignore`](crate::combinator::ignore).
pub type Ignore<P> = Picked<P, Nothing, ()>;

impl<A: Drop> Pick<A> for Nothing {
    type Output = ();

    ghost picked = { λ _. tt };

    ghost counted = { λ n. n };

    #[inline(always)]
    fn pick(value: A) {
        drop(value);
    }

    #[inline]
    fn count(inside: ErrorOffset) -> ErrorOffset {
        inside
    }
}

impl<Input, P, W, B: Drop> Outputs<Input> for Picked<P, W, B> {
    type Output = B;
}

impl<Input: Stream, P: Parser<Input>, B: Drop, W: Pick<P::Output, Output = B>> Parser<Input>
    for Picked<P, W, B> {
    type PartialState = P::PartialState;

    ghost lawful = { λ p. P.lawful (picked_part p) };

    ghost determined = { λ p. P.determined (picked_part p) };

    ghost valid = { P.valid };

    ghost meaning = { λ p. mapped (P.meaning (picked_part p)) (Picks W.picked) };

    ghost parts = { λ p. W.counted (P.parts (picked_part p)) };

    ghost default_valid = { P.default_valid };

    ghost laws = { λ p l. mapped_is_meaning P.PartialState.is_default P.valid (P.meaning (picked_part p)) (Picks W.picked) (P.laws (picked_part p) l) };

    ghost single = { λ p l d. mapped_means_one P.valid (P.meaning (picked_part p)) (Picks W.picked) (P.single (picked_part p) l d) };

    #[inline(always)]
    fn parse_mode<M: ParseMode>(
        &mut self,
        mode: M,
        input: &mut Input,
        state: &mut Self::PartialState,
    ) -> ParseResult<B, Input::Error> {
        match self.part.parse_mode(mode, input, state) {
            ParseResult::CommitOk(value) => ParseResult::CommitOk(W::pick(value)),
            ParseResult::PeekOk(value) => ParseResult::PeekOk(W::pick(value)),
            ParseResult::CommitErr(error) => ParseResult::CommitErr(error),
            ParseResult::PeekErr(refusal) => ParseResult::PeekErr(refusal),
        }
    }

    /// Adds what the parser adds of whose value a part is kept.
    #[inline]
    fn add_error(&mut self, error: &mut Tracked<Input::Error>) {
        self.part.add_error(error);
    }

    #[inline]
    fn parser_count(&self) -> ErrorOffset {
        W::count(self.part.parser_count())
    }
}
