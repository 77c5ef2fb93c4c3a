//! Ranges of a given length.
ghost use Rattle.std.specs.Prelude.{◌≡◌};
ghost use Rattle.combine_base.specs.Error.Errors.{AddsNothing, Only};
ghost use Rattle.combine_base.specs.Error.Items.{Expected, OfRange};
ghost use Rattle.combine_token.specs.Token.Stateless.{stateless, stateless_is_meaning, stateless_means_one};
ghost use Rattle.combine_range.specs.Range.Lengths.{matching_range, matching_range_is_reading, matching_range_is_single, taking, taking_is_reading, taking_is_single};
ghost use Rattle.combine_range.specs.RangeReasons.{RefusesDiffering, RefusesLength};
ghost use Rattle.combine_range.specs.WantedRanges.{Fair, equal_range};

use crate::kept_distance::no_range;
use combine_base::error::{ErrorOffset, Info, ParseError, ParseResult, Tracked};
use combine_base::parser::{Outputs, ParseMode, Parser};
use combine_base::stream::{Kind, Positioned, ResetStream, Stream, StreamOnce};
use combine_stream::range::{Range as _, RangeStream};
use std::marker::PhantomData;

/// The parser of [`take`](crate::range::take).
#[derive(Drop)]
pub struct Take<Input> {
    pub(super) count: usize,
    pub(super) reads: PhantomData<Input>,
}

/// The parser of [`range`](crate::range::range), with the stream's ranges as `R`.
///
/// The crate's has no such parameter.
#[derive(Drop)]
pub struct Range<Input, R> {
    pub(super) wanted: R,
    pub(super) reads: PhantomData<Input>,
}

impl<Input: StreamOnce> Outputs<Input> for Take<Input> {
    type Output = Input::Range;
}

impl<Input: RangeStream> Parser<Input> for Take<Input>
where
    Input::Range: combine_stream::range::Range,
{
    type PartialState = ();

    ghost meaning = { λ p. stateless (taking Input.size Input.spells p.count) ⊥ (Unit {0}) AddsNothing (RefusesLength Input.Error.observers Input.size Input.spells p.count) };

    #[inline(always)]
    fn parse_mode<M: ParseMode>(
        &mut self,
        mode: M,
        input: &mut Input,
        state: &mut (),
    ) -> ParseResult<Input::Range, Input::Error> {
        let position = input.position();
        match input.uncons_range(self.count) {
            Ok(range) => {
                if self.count > 0 {
                    ParseResult::CommitOk(range)
                } else {
                    ParseResult::PeekOk(range)
                }
            }
            Err(kind) => no_range(input, kind, position),
        }
    }

    /// Adds nothing.
    #[inline]
    fn add_error(&mut self, error: &mut Tracked<Input::Error>) {}

    #[inline]
    fn parser_count(&self) -> ErrorOffset {
        ErrorOffset(1)
    }

    ghost default_valid = { λ s d. tt };

    ghost laws = { λ p l. stateless_is_meaning _ _ _ _ _ _ _ (taking_is_reading _ _ Input.filled _) };

    ghost single = { λ p l d. stateless_means_one _ _ _ _ _ _ (taking_is_single _ _ Input.filled _) };
}

impl<Input, R: Drop> Outputs<Input> for Range<Input, R> {
    type Output = R;
}

impl<Input: RangeStream> Parser<Input> for Range<Input, Input::Range>
where
    Input::Range: combine_stream::range::Range + PartialEq,
{
    type PartialState = ();

    /// Ranges of the same tokens are the same to `==`.
    ghost determined = { λ p. Fair Input.spells (λ r. Input.Range.eq r p.wanted) };

    ghost meaning = { λ p. stateless (matching_range Input.size Input.spells (equal_range Input.Range.count Input.Range.eq p.wanted)) ⊥ (Unit {0}) (Only (Expected (OfRange p.wanted)))
        (RefusesDiffering Input.Error.observers Input.size Input.spells (equal_range Input.Range.count Input.Range.eq p.wanted)) };

    #[inline(always)]
    fn parse_mode<M: ParseMode>(
        &mut self,
        mode: M,
        input: &mut Input,
        state: &mut (),
    ) -> ParseResult<Input::Range, Input::Error> {
        let start = input.checkpoint();
        let position = input.position();
        match input.uncons_range(self.wanted.len()) {
            Ok(range) => {
                if range == self.wanted {
                    return ParseResult::CommitOk(range);
                }
                match input.reset(start) {
                    Ok(()) => ParseResult::PeekErr(Tracked::from(input.new_error(
                        Kind::Refused,
                        position,
                    ))),
                    Err(kind) => ParseResult::CommitErr(input.new_error(kind, position)),
                }
            }
            Err(kind) => no_range(input, kind, position),
        }
    }

    /// Adds that the range was expected.
    #[inline]
    fn add_error(&mut self, error: &mut Tracked<Input::Error>) {
        error.error.add_expected(&Info::Range(self.wanted));
    }

    #[inline]
    fn parser_count(&self) -> ErrorOffset {
        ErrorOffset(1)
    }

    ghost default_valid = { λ s d. tt };

    ghost laws = { λ p l. stateless_is_meaning _ _ _ _ _ _ _ (matching_range_is_reading _ _ Input.filled _) };

    ghost single = { λ p l d. stateless_means_one _ _ _ _ _ _ (matching_range_is_single _ _ Input.filled _ d) };
}
