//! What stands before the first occurrence of a range.
ghost use Rattle.std.specs.Prelude.{◌≡◌};
ghost use Rattle.combine_base.specs.Error.Errors.{AddsNothing};
ghost use Rattle.combine_range.specs.KeptDistance.{kept, kept_is_meaning, kept_means_one};
ghost use Rattle.combine_range.specs.RangeReasons.{RefusesKept, RefusesMissing};
ghost use Rattle.combine_range.specs.Range.UntilRange.{until_range_is_reading, until_range_is_single, until_range};
ghost use Rattle.combine_range.specs.WantedRanges.{Fair, equal_range};

use crate::distance::Distance;
use crate::kept_distance::{begin, hand_out, keep_distance, not_passed, pass_items};
use crate::places::seek;
use combine_base::error::{ErrorOffset, ParseResult, Tracked};
use combine_base::parser::{Outputs, ParseMode, Parser};
use combine_base::refusal::no_token;
use combine_base::stream::{Kind, Positioned, ResetStream, StreamOnce};
use combine_stream::range::{Range, RangeStream};
use std::marker::PhantomData;

/// The parser of [`take_until_range`](crate::range::take_until_range), with the stream's ranges as `R`; its state is the distance that was searched.
///
/// The crate's has no parameter `R`.
#[derive(Drop)]
pub struct TakeUntilRange<Input, R> {
    pub(super) wanted: R,
    pub(super) reads: PhantomData<Input>,
}

impl<Input, R: Drop> Outputs<Input> for TakeUntilRange<Input, R> {
    type Output = R;
}

impl<Input: RangeStream> Parser<Input> for TakeUntilRange<Input, Input::Range>
where
    Input::Range: Range + PartialEq,
{
    type PartialState = Distance;

    /// Ranges of the same tokens are the same to `==`.
    ghost determined = { λ p. Fair Input.spells (λ r. Input.Range.eq r p.wanted) };

    ghost meaning = { λ p. kept Input.size (until_range Input.size Input.spells (equal_range Input.Range.count Input.Range.eq p.wanted)) AddsNothing
        (RefusesKept Input.Error.observers Input.size (RefusesMissing Input.Error.observers Input.size Input.spells (equal_range Input.Range.count Input.Range.eq p.wanted))) };

    #[inline(always)]
    fn parse_mode<M: ParseMode>(
        &mut self,
        mode: M,
        input: &mut Input,
        state: &mut Distance,
    ) -> ParseResult<Input::Range, Input::Error> {
        let start = input.checkpoint();
        let position = input.position();
        let distance = begin(mode.is_first(), state);
        if let Err(kind) = pass_items(input, distance) {
            return not_passed(input, kind, position);
        }
        match seek(input, self.wanted) {
            Ok(found) => {
                if found {
                    return hand_out(start, position, input);
                }
                if input.is_partial() {
                    return keep_distance(start, position, input, state);
                }
                no_token(input, Kind::End, position)
            }
            Err(kind) => ParseResult::CommitErr(input.new_error(kind, position)),
        }
    }

    /// Adds nothing.
    #[inline]
    fn add_error(&mut self, error: &mut Tracked<Input::Error>) {}

    #[inline]
    fn parser_count(&self) -> ErrorOffset {
        ErrorOffset(1)
    }

    ghost default_valid = { λ s d. tt };

    ghost laws = { λ p l. kept_is_meaning _ _ _ _ _ (until_range_is_reading _ _ _ Input.filled) };

    ghost single = { λ p l d. kept_means_one _ _ _ _ _ (until_range_is_single _ _ _ Input.filled d) };
}
