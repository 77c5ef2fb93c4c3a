//! Repetitions whose last separator may stand alone: a parser, and then turns of the separator and the parser. A separator after which the parser is refused peeked ends the turns, and stays taken.
//!
//! The values are collected in any `F: Append<P::Output>`, for which the constructors take an allocator first; the crate takes `F: Extend + Default`, and no allocator. What a separator gives is dropped.
//!
//! The first element may take nothing. A later turn that takes nothing is refused, committed, with the message `repetition takes nothing`, at the position where it began, unless it ends the turns; in the crate such a parser may hang. A turn that took its tokens in an earlier piece counts as one that takes them.
//!
//! Faults are as for `many`. On need of more the state keeps what is collected, whether an element was parsed, whether one committed, and the turn that runs. What is added to an error is as for the parser of the elements.
//!
//! Which error a refusal has is exact, as for `sep_by`: after a separator a peeked refusal of the element is none.
ghost use Rattle.std.specs.Prelude.{◌≡◌};
ghost use Rattle.combine_separated.specs.Pair.{pair_valid};
ghost use Rattle.combine_separated.specs.Separated.{separated_default, separated_fresh, separated_valid};
ghost use Rattle.combine_separated.specs.SepEnd.{sep_end, sep_end_is_meaning, sep_end_means_one};
ghost use Rattle.combine_separated.specs.SepEndParsers.{ended_by_part, ended_by_separator, sep_end_bounds, sep_end_by_of, sep_end_by1_of, sep_end_repeat_of};
ghost use Rattle.combine_repeat.specs.Turns.Bounds.{fresh_turns_valid, running_turn};
ghost use Rattle.combine_repeat.specs.Repeat.Repeated.{appended};

pub mod laws;
pub mod types;

use crate::ended::{EachSome, Ended};
use crate::separated::SeparatedState;
use combine_base::error::{ErrorOffset, ParseResult, Tracked};
use combine_base::parser::{Outputs, ParseMode, Parser};
use combine_base::repeat::Append;
use combine_base::stream::Stream;
use combine_choice::or::optional;
use combine_repeat::bounds::{FirstThenMore, TurnBounds};
use combine_repeat::turns::{TurnProgress, TurnsState, take_turns};
use std::alloc::Global;
use std::marker::PhantomData;
use types::{SepEndBy, SepEndBy1};

/// Elements with a separator between two of them and perhaps after the last, collected. `B` bounds their number.
#[derive(Drop)]
#[derive_where(Clone, Copy; P, S, B)]
pub struct SepEndRepeat<F, P, S, B> {
    alloc: Global,
    bounds: B,
    turn: Ended<P, S>,
    collects: PhantomData<F>,
}

impl<F, P, S, B> SepEndRepeat<F, P, S, B> {
    /// Returns the parser of these elements.
    #[inline(always)]
    fn new(alloc: Global, bounds: B, parser: P, separator: S) -> SepEndRepeat<F, P, S, B>
        ensures { result ≡ sep_end_repeat_of alloc bounds parser separator }
    {
        SepEndRepeat {
            alloc,
            bounds,
            turn: Ended {
                part: optional(parser),
                separator,
            },
            collects: PhantomData,
        }
    }
}

impl<Input, F: Drop, P, S, B> Outputs<Input> for SepEndRepeat<F, P, S, B> {
    type Output = F;
}

impl<Input: Stream, P: Parser<Input>, S: Parser<Input>, F: Append<P::Output>, B: TurnBounds> Parser<
    Input,
> for SepEndRepeat<F, P, S, B> {
    type PartialState = TurnsState<F, SeparatedState<S::Output, S::PartialState, P::PartialState>>;

    ghost lawful = { λ p. S.lawful (ended_by_separator p) × P.lawful (ended_by_part p) };

    ghost determined = { λ p. S.determined (ended_by_separator p) × P.determined (ended_by_part p) };

    ghost valid = { λ s. separated_valid P.valid (pair_valid S.valid P.valid) (running_turn s) };

    ghost meaning = { λ p. sep_end Input.step Input.Error.observers (B.bounds (sep_end_bounds p)) (appended F.held F.none F.more F.heapless) (P.meaning (ended_by_part p)) (S.meaning (ended_by_separator p)) };

    ghost default_valid = { fresh_turns_valid (separated_fresh P.PartialState.is_default) (separated_valid P.valid (pair_valid S.valid P.valid)) (separated_default P.PartialState.is_default P.valid (pair_valid S.valid P.valid) P.default_valid) };

    ghost laws = { λ p l. sep_end_is_meaning Input.step Input.Error.observers (B.bounds (sep_end_bounds p)) (appended F.held F.none F.more F.heapless) _ _ _ _ _ _ (P.laws (ended_by_part p) l.1) (S.laws (ended_by_separator p) l.0) };

    ghost single = { λ p l d. sep_end_means_one Input.step Input.Error.observers (B.bounds (sep_end_bounds p)) (appended F.held F.none F.more F.heapless) P.valid S.valid (P.meaning (ended_by_part p)) (S.meaning (ended_by_separator p)) (P.single (ended_by_part p) l.1 d.1) (S.single (ended_by_separator p) l.0 d.0) };

    #[inline(always)]
    fn parse_mode<M: ParseMode>(
        &mut self,
        mode: M,
        input: &mut Input,
        state: &mut Self::PartialState,
    ) -> ParseResult<F, Input::Error> {
        let start = TurnProgress::none_yet(F::empty(self.alloc));
        take_turns::<EachSome<F>, Input, Ended<P, S>, M, B>(
            &mut self.turn,
            self.bounds,
            start,
            mode,
            input,
            state,
        )
    }

    /// Adds what the parser of the elements adds.
    #[inline]
    fn add_error(&mut self, error: &mut Tracked<Input::Error>) {
        self.turn.part.0.add_error(error);
    }

    /// Counts as one parser.
    #[inline]
    fn parser_count(&self) -> ErrorOffset {
        ErrorOffset(1)
    }
}

/// Takes elements as `sep_end_by1` does, or none.
///
/// If the first is refused peeked, it is put back, and the result is the empty collection, accepted peeked.
///
/// # Examples
///
/// ```
/// fn commands(alloc: Global, input: &[u8]) -> Result<(Vec<u8>, &[u8]), UnexpectedParse> {
///     let letter = satisfy(|byte: u8| byte.is_ascii_lowercase());
///     sep_end_by::<Vec<u8>, _, _>(alloc, letter, token(b';')).parse(input)
/// }
/// ```
///
/// On `b"a;b;"` it returns `(b"ab", b"")`, and so it does on `b"a;b"`.
#[inline]
pub fn sep_end_by<F, P, S>(alloc: Global, parser: P, separator: S) -> SepEndBy<F, P, S>
    ensures { result ≡ sep_end_by_of alloc parser separator }
{
    SepEndRepeat::new(alloc, FirstThenMore::<0>, parser, separator)
}

/// Takes at least one element, which are `parser`'s, with what `separator` takes between two of them and perhaps after the last.
///
/// A peeked refusal of a later separator is put back and ends the turns, accepted. So does one of the parser after a separator, whose tokens stay taken. An acceptance is committed exactly if a turn was, or the separator that ended them.
///
/// # Errors
///
/// - The refusal of the first element is the result, and so is a committed refusal of a later element or separator.
/// - A later turn that takes nothing is refused, committed, with the message `repetition takes nothing`, unless it ends the turns.
/// - Faults are as for `many`.
///
/// # Partial input
///
/// On need of more the state keeps what is collected, whether an element was parsed, whether one committed, and the turn that runs.
///
/// # Differences from combine
///
/// If a turn takes nothing the crate goes round for ever.
#[inline]
pub fn sep_end_by1<F, P, S>(alloc: Global, parser: P, separator: S) -> SepEndBy1<F, P, S>
    ensures { result ≡ sep_end_by1_of alloc parser separator }
{
    SepEndRepeat::new(alloc, FirstThenMore::<1>, parser, separator)
}
