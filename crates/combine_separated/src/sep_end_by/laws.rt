//! What the repetitions mean. The functions do nothing: their contracts are the laws.
ghost use Rattle.combine_base.specs.Parser.Meaning.{MeansSame};
ghost use Rattle.combine_separated.specs.SepEnd.{sep_end_by, sep_end_by1};
ghost use Rattle.combine_separated.specs.SepEndParsers.{ended_by_part, ended_by_separator};
ghost use Rattle.combine_repeat.specs.Repeat.Repeated.{appended};

use crate::sep_end_by::types::{SepEndBy, SepEndBy1};
use combine_base::parser::Parser;
use combine_base::repeat::Append;
use combine_base::stream::Stream;

/// The law that the parser of `sep_end_by` means any number of elements, and a separator that may stand after the last.
pub fn sep_end_by_is_turns<F, Input: Stream, P: Parser<Input>, S: Parser<Input>>(
    parser: &SepEndBy<F, P, S>,
)
where
    F: Append<P::Output>,
    ensures { MeansSame (⟦<SepEndBy<F, P, S> as Parser<Input>>⟧.meaning parser.now) (sep_end_by Input.step Input.Error.observers (appended F.held F.none F.more F.heapless) (P.meaning (ended_by_part parser.now)) (S.meaning (ended_by_separator parser.now))) }
{}

/// The law that the parser of `sep_end_by1` means at least one element, and a separator that may stand after the last.
pub fn sep_end_by1_is_turns<F, Input: Stream, P: Parser<Input>, S: Parser<Input>>(
    parser: &SepEndBy1<F, P, S>,
)
where
    F: Append<P::Output>,
    ensures { MeansSame (⟦<SepEndBy1<F, P, S> as Parser<Input>>⟧.meaning parser.now) (sep_end_by1 Input.step Input.Error.observers (appended F.held F.none F.more F.heapless) (P.meaning (ended_by_part parser.now)) (S.meaning (ended_by_separator parser.now))) }
{}
