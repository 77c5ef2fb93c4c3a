//! What counted repetitions mean, and what beside one another. The functions do nothing: their contracts are the laws.
ghost use Rattle.combine_base.specs.Parser.Meaning.{MeansSame};
ghost use Rattle.combine_repeat.specs.Repeat.Counts.{CountOrSkip, count_min_max, skip_count_min_max};
ghost use Rattle.combine_repeat.specs.Repeat.Repeated.{appended};
ghost use Rattle.combine_repeat.specs.Repeat.RepeatParsers.{repeat_min, repeat_max, repeated_by};

use crate::counts::types::{CountMinMax, SkipCountMinMax};
use combine_base::parser::Parser;
use combine_base::repeat::Append;
use combine_base::stream::Stream;

/// The law that `skip_count_min_max(min, max, p)` has the count and kind of `count_min_max(min, max, p)`.
///
/// With `min` 0 that is said of `skip_count` and `count`.
pub fn skip_count_min_max_is_count_min_max_dropped<F, Input: Stream, P: Parser<Input>>(
    min: usize,
    max: usize,
    parser: &P,
)
where
    F: Append<P::Output>,
    ensures { CountOrSkip Input.step Input.Error.observers (appended F.held F.none F.more F.heapless) (P.meaning parser.now) min max }
{}

/// The law that the parser of `count_min_max` means at least `min` and at most `max` turns, and that of `count` at least none.
pub fn count_min_max_is_turns<F, Input: Stream, P: Parser<Input>>(parser: &CountMinMax<F, P>)
where
    F: Append<P::Output>,
    ensures { MeansSame (⟦<CountMinMax<F, P> as Parser<Input>>⟧.meaning parser.now) (count_min_max Input.step Input.Error.observers (appended F.held F.none F.more F.heapless) (repeat_min parser.now) (repeat_max parser.now) (P.meaning (repeated_by parser.now))) }
{}

/// The law that the parser of `skip_count_min_max` means the same turns, their values dropped; so does that of `skip_count`.
pub fn skip_count_min_max_is_turns<Input: Stream, P: Parser<Input>>(parser: &SkipCountMinMax<P>)
    ensures { MeansSame (⟦<SkipCountMinMax<P> as Parser<Input>>⟧.meaning parser.now) (skip_count_min_max Input.step Input.Error.observers (repeat_min parser.now) (repeat_max parser.now) (P.meaning (repeated_by parser.now))) }
{}
