//! The parsers that the functions of this module return.
ghost use Rattle.std.specs.Prelude.{◌≡◌};
ghost use Rattle.combine_base.specs.Error.Errors.{AddsNothing};
ghost use Rattle.combine_base.specs.Parser.KeptParsers.{KeptOf};
ghost use Rattle.combine_base.specs.Stream.View.{View};
ghost use Rattle.combine_combinator.specs.MadeParsers.{Adds, MadeBySome, MakerLeavesStream, MadeAt, MakesOne, at_any, at_any_lasts, by_factory, factory_maker, is_unmade_valid, lazy_maker, made_meaning, made_at_lasts, made_is_meaning, made_means_one, valid_made};

pub use super::made::{Made, MadeState};
use super::made::{make_and_run, resume_made, run_made};
use combine_base::error::{ErrorOffset, ParseResult, Tracked};
use combine_base::function::{Maker, MutFunction};
use combine_base::parser::{Outputs, ParseMode, Parser};
use combine_base::sequence::take_state;
use combine_base::stream::Stream;

/// The parser of [`lazy`](crate::lazy::lazy).
#[derive(Clone, Copy, Drop)]
pub struct Lazy<F>(pub(super) F);

impl<Input, F: Maker> Outputs<Input> for Lazy<F>
where
    F::Output: Outputs<Input>,
{
    type Output = <F::Output as Outputs<Input>>::Output;
}

impl<Input: Stream, N: Parser<Input> + Drop, F: Maker<Output = N>> Parser<Input> for Lazy<F> {
    type PartialState = MadeState<N, N::PartialState>;

    ghost lawful = { λ p. F.callable (lazy_maker p) × ((n : N) → F.returns (lazy_maker p) n → N.lawful n) };

    ghost determined = { λ p. ((n : N) → MadeBySome F.callable F.returns N.lawful n → N.determined n) × MakesOne (at_any (F.returns (lazy_maker p))) (λ n. (N.meaning n).whole) };

    ghost valid = { valid_made (KeptOf N.lawful N.meaning (MadeBySome F.callable F.returns N.lawful)) N.valid };

    ghost meaning = { λ p. made_meaning (at_any (F.returns (lazy_maker p))) (MadeBySome F.callable F.returns N.lawful) N.meaning (Adds (F.returns (lazy_maker p)) N.meaning) };

    ghost default_valid = { is_unmade_valid (KeptOf N.lawful N.meaning (MadeBySome F.callable F.returns N.lawful)) N.valid };

    ghost laws = { λ p l. made_is_meaning _ (MadeBySome F.callable F.returns N.lawful) N.meaning _ N.lawful (at_any_lasts (F.returns (lazy_maker p))) N.laws (λ v. l.1) };

    ghost single = { λ p l d. made_means_one _ (MadeBySome F.callable F.returns N.lawful) N.meaning _ N.lawful (λ n i. N.single n (i.all n i.made) (d.0 n i)) d.1 };

    #[inline(always)]
    fn parse_mode<M: ParseMode>(
        &mut self,
        mode: M,
        input: &mut Input,
        state: &mut Self::PartialState,
    ) -> ParseResult<N::Output, Input::Error> {
        if let MadeState::Kept(made) = take_state(mode, state) {
            return resume_made(mode, input, made, state);
        }
        let parser = self.0.make();
        let made = Made {
            parser,
            state: N::PartialState::default(),
        };
        run_made(mode, input, made, state)
    }

    /// Adds what a parser of the maker adds.
    #[inline]
    fn add_error(&mut self, error: &mut Tracked<Input::Error>) {
        let mut parser = self.0.make();
        parser.add_error(error);
    }

    /// Counts as one parser, whatever the parser of the maker counts.
    #[inline]
    fn parser_count(&self) -> ErrorOffset {
        ErrorOffset(1)
    }
}

/// The parser of [`factory`](crate::lazy::factory).
#[derive(Clone, Copy, Drop)]
pub struct Factory<F>(pub(crate) F);

impl<Input, F: MutFunction<(), Input>> Outputs<Input> for Factory<F>
where
    F::Output: Outputs<Input>,
{
    type Output = <F::Output as Outputs<Input>>::Output;
}

impl<Input: Stream, N: Parser<Input> + Drop, F: MutFunction<(), Input, Output = N>> Parser<Input>
    for Factory<F> {
    type PartialState = MadeState<N, N::PartialState>;

    ghost lawful = { λ p. ((i : Input) → F.callable (factory_maker p) tt i) × MakerLeavesStream Input.view Input.marks Input.failures (F.returns (factory_maker p) tt) × ((v : View Input.Position Input.Token) (n : N) → MadeAt Input.view (F.returns (factory_maker p) tt) v n → N.lawful n) };

    ghost determined = { λ p. ((n : N) → by_factory Input.view Input.marks Input.failures F.callable F.returns N.lawful n → N.determined n) × MakesOne (MadeAt Input.view (F.returns (factory_maker p) tt)) (λ n. (N.meaning n).whole) };

    ghost valid = { valid_made (KeptOf N.lawful N.meaning (by_factory Input.view Input.marks Input.failures F.callable F.returns N.lawful)) N.valid };

    ghost meaning = { λ p. made_meaning (MadeAt Input.view (F.returns (factory_maker p) tt)) (by_factory Input.view Input.marks Input.failures F.callable F.returns N.lawful) N.meaning AddsNothing };

    ghost default_valid = { is_unmade_valid (KeptOf N.lawful N.meaning (by_factory Input.view Input.marks Input.failures F.callable F.returns N.lawful)) N.valid };

    ghost laws = { λ p l. made_is_meaning _ (by_factory Input.view Input.marks Input.failures F.callable F.returns N.lawful) N.meaning _ N.lawful (made_at_lasts Input.view (F.returns (factory_maker p) tt)) N.laws l.2 };

    ghost single = { λ p l d. made_means_one _ (by_factory Input.view Input.marks Input.failures F.callable F.returns N.lawful) N.meaning _ N.lawful (λ n i. N.single n (i.all n i.made) (d.0 n i)) d.1 };

    #[inline(always)]
    fn parse_mode<M: ParseMode>(
        &mut self,
        mode: M,
        input: &mut Input,
        state: &mut Self::PartialState,
    ) -> ParseResult<N::Output, Input::Error> {
        if let MadeState::Kept(kept) = take_state(mode, state) {
            return resume_made(mode, input, kept, state);
        }
        make_and_run(&self.0, mode, input, state)
    }

    /// Adds nothing.
    #[inline]
    fn add_error(&mut self, error: &mut Tracked<Input::Error>) {}

    /// Counts as one parser, whatever the parser of the maker counts.
    #[inline]
    fn parser_count(&self) -> ErrorOffset {
        ErrorOffset(1)
    }
}
