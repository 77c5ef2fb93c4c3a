//! What separated repetitions mean, and what in the words of others. The functions do nothing: their contracts are the laws.
ghost use Rattle.std.specs.Prelude.{Some};
ghost use Rattle.combine_base.specs.Parser.Meaning.{MeansSame};
ghost use Rattle.combine_separated.specs.Elements.{SepBy1IsOneThenTurns, sep_by, sep_by1, sep_count_min_max};
ghost use Rattle.combine_separated.specs.SeparatedParsers.{sep_min, sep_max, sep_part, sep_separator};
ghost use Rattle.combine_repeat.specs.Repeat.Repeated.{appended};

use crate::sep_by::types::{SepBy, SepBy1, SepCountMinMax};
use combine_base::parser::Parser;
use combine_base::repeat::Append;
use combine_base::stream::Stream;

/// The law that `sep_by1(p, s)` is an element, and then turns of the separator and an element under the rule of `many`: each takes a token, and a peeked refusal ends them.
pub fn sep_by1_is_one_then_turns<F, Input: Stream, P: Parser<Input>, S: Parser<Input>>(
    parser: &P,
    separator: &S,
)
where
    F: Append<P::Output>,
    ensures { SepBy1IsOneThenTurns Input.step Input.Error.observers (appended F.held F.none F.more F.heapless) (P.meaning parser.now) (S.meaning separator.now) }
{}

/// The law that the parser of `sep_count_min_max` means at least `min` and at most `max` elements, with separators between them.
pub fn sep_count_min_max_is_turns<F, Input: Stream, P: Parser<Input>, S: Parser<Input>>(
    parser: &SepCountMinMax<F, P, S>,
)
where
    F: Append<P::Output>,
    ensures { MeansSame (⟦<SepCountMinMax<F, P, S> as Parser<Input>>⟧.meaning parser.now) (sep_count_min_max Input.step Input.Error.observers (appended F.held F.none F.more F.heapless) (sep_min parser.now) (Some (sep_max parser.now)) (P.meaning (sep_part parser.now)) (S.meaning (sep_separator parser.now))) }
{}

/// The law that the parser of `sep_by` means any number of elements.
pub fn sep_by_is_turns<F, Input: Stream, P: Parser<Input>, S: Parser<Input>>(
    parser: &SepBy<F, P, S>,
)
where
    F: Append<P::Output>,
    ensures { MeansSame (⟦<SepBy<F, P, S> as Parser<Input>>⟧.meaning parser.now) (sep_by Input.step Input.Error.observers (appended F.held F.none F.more F.heapless) (P.meaning (sep_part parser.now)) (S.meaning (sep_separator parser.now))) }
{}

/// The law that the parser of `sep_by1` means at least one element.
pub fn sep_by1_is_turns<F, Input: Stream, P: Parser<Input>, S: Parser<Input>>(
    parser: &SepBy1<F, P, S>,
)
where
    F: Append<P::Output>,
    ensures { MeansSame (⟦<SepBy1<F, P, S> as Parser<Input>>⟧.meaning parser.now) (sep_by1 Input.step Input.Error.observers (appended F.held F.none F.more F.heapless) (P.meaning (sep_part parser.now)) (S.meaning (sep_separator parser.now))) }
{}
