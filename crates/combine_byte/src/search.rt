//! Searches for a place in what is unread, and the parser of what stands before it.
ghost use Rattle.std.specs.Prelude.{◌≡◌, List};
ghost use Rattle.combine_base.specs.Error.Errors.{AddsNothing};
ghost use Rattle.combine_range.specs.KeptDistance.{kept, kept_is_meaning, kept_means_one};
ghost use Rattle.combine_byte.specs.Search.SearchReasons.{RefusesSearch};
ghost use Rattle.combine_byte.specs.Search.Searches.{IsOneSearch, IsSearch, Search, Searched, searching, searching_is_reading, searching_is_single};

use crate::absence::{is_nothing, may_grow, not_found, pass_up_to};
use combine_base::error::{ErrorOffset, ParseResult, Tracked};
use combine_base::function::Function;
use combine_base::parser::{Outputs, ParseMode, Parser};
use combine_base::stream::{Positioned, ResetStream, Stream, StreamOnce};
use combine_range::distance::Distance;
use combine_range::kept_distance::{
    begin, hand_out, keep_distance, no_range, not_passed, pass_items,
};
use combine_stream::range::{Range, RangeStream};
use std::marker::PhantomData;

/// What a search finds, in items from where it began.
#[derive(Debug, Drop, PartialEq)]
pub enum TakeRange {
    /// The place.
    Found(usize),
    /// There is none; whatever follows, that many items need not be searched again.
    NotFound(usize),
}

impl From<Option<usize>> for TakeRange {
    ghost use Rattle.combine_byte.specs.Search.TakeFn.{found_place};

    ghost from_gives = { λ place answer. answer ≡ found_place place };

    /// Turns `None` into what says nothing of what need not be searched again.
    #[inline]
    fn from(place: Option<usize>) -> TakeRange {
        match place {
            Some(items) => TakeRange::Found(items),
            None => TakeRange::NotFound(0),
        }
    }
}

/// What searches a range of a stream. Our own: a function, or a search for bytes.
pub trait Searcher<Input: RangeStream>
where
    Input::Range: Range,
{
    /// It may be asked.
    ghost callable: { Self → Type 0 };

    /// What it finds in tokens.
    ghost search: { Self → Search Input.Token };

    /// It answers from the tokens alone.
    ghost settled: { Self → Type 0 };

    /// Searches a range.
    fn look(&self, range: Input::Range) -> TakeRange
        requires { callable self.now }
        ensures { (us : List Input.Token) → Input.RangeStream.spells range us → Searched Input.RangeStream.size (search self.now) us result };

    /// What is found stays found.
    ghost stays: { (s : Self) → IsSearch (search s) };

    /// There is one answer.
    ghost one: { (s : Self) → settled s → IsOneSearch (search s) };
}

/// What stands before the place that a search finds.
///
/// The state is the distance that need not be searched again.
#[derive(Drop)]
#[derive_where(Clone; S)]
pub struct Searching<Input, S> {
    pub(crate) searcher: S,
    pub(crate) reads: PhantomData<Input>,
}

impl<Input: StreamOnce, S> Outputs<Input> for Searching<Input, S> {
    type Output = Input::Range;
}

impl<Input: RangeStream, S: Searcher<Input>> Parser<Input> for Searching<Input, S>
where
    Input::Range: Range,
{
    type PartialState = Distance;

    ghost lawful = { λ p. S.callable p.searcher };

    ghost determined = { λ p. S.settled p.searcher };

    ghost meaning = { λ p. kept Input.size (searching Input.size Input.spells (S.search p.searcher)) AddsNothing (RefusesSearch Input.Error.observers Input.step Input.size Input.spells (S.search p.searcher)) };

    #[inline(always)]
    fn parse_mode<M: ParseMode>(
        &mut self,
        mode: M,
        input: &mut Input,
        state: &mut Distance,
    ) -> ParseResult<Input::Range, Input::Error> {
        let start = input.checkpoint();
        let position = input.position();
        let distance = begin(mode.is_first(), state);
        if let Err(kind) = pass_items(input, distance) {
            return not_passed(input, kind, position);
        }
        let unread = input.range();
        match self.searcher.look(unread) {
            TakeRange::Found(items) => match input.uncons_range(items) {
                Ok(range) => {
                    if distance > 0 {
                        return hand_out(start, position, input);
                    }
                    if items > 0 {
                        return ParseResult::CommitOk(range);
                    }
                    ParseResult::PeekOk(range)
                }
                Err(kind) => {
                    if may_grow(input, kind) {
                        return keep_distance(start, position, input, state);
                    }
                    no_range(input, kind, position)
                }
            },
            TakeRange::NotFound(hint) => {
                if !input.is_partial() {
                    return not_found(input, is_nothing(distance, &unread), position);
                }
                match pass_up_to(input, hint) {
                    Ok(()) => keep_distance(start, position, input, state),
                    Err(kind) => ParseResult::CommitErr(input.new_error(kind, position)),
                }
            }
        }
    }

    /// Adds nothing.
    #[inline]
    fn add_error(&mut self, error: &mut Tracked<Input::Error>) {}

    #[inline]
    fn parser_count(&self) -> ErrorOffset {
        ErrorOffset(1)
    }

    ghost default_valid = { λ s d. tt };

    ghost laws = { λ p l. kept_is_meaning _ _ _ _ _ (searching_is_reading _ _ _ Input.filled (S.stays p.searcher)) };

    ghost single = { λ p l d. kept_means_one _ _ _ _ _ (searching_is_single _ _ _ Input.filled (S.one p.searcher d)) };
}

/// The search by a function of ranges.
#[derive(Clone, Drop)]
pub struct FindByFn<F>(pub(crate) F);

impl<Input: RangeStream, T: Into<TakeRange>, F: Function<Input::Range, Output = T>> Searcher<Input>
    for FindByFn<F>
where
    Input::Range: Range,
{
    ghost use Rattle.combine_byte.specs.Search.TakeFn.{asking, asking_is_search, answers_as};

    ghost callable = { λ s. (range : _) → F.callable s.0 range };

    ghost search = { λ s. asking Input.size Input.spells (answers_as (F.returns s.0) T.converts) };

    /// However the function is asked, the answers agree.
    ghost settled = { λ s. IsOneSearch (asking Input.size Input.spells (answers_as (F.returns s.0) T.converts)) };

    #[inline(always)]
    fn look(&self, range: Input::Range) -> TakeRange {
        self.0.call(range).into()
    }

    ghost stays = { λ s. asking_is_search Input.size Input.spells (answers_as (F.returns s.0) T.converts) };

    ghost one = { λ s d. d };
}
