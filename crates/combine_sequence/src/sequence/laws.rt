//! What the parsers of `sequence` mean, stated by functions that do nothing: of parsers with values of one type, so that another value would be of the right type too.
ghost use Rattle.combine_base.specs.Parser.Meaning.{MeansSame};
ghost use Rattle.combine_combinator.specs.CombinatorParsers.{picked_of};
ghost use Rattle.combine_sequence.specs.Values.{first_value, middle_value, second_value};

use crate::sequence::types::{Between, Skip, With};
use combine_base::parser::Parser;
use combine_base::stream::Stream;

/// The law that `with` is the pair, with its second value.
#[inline]
pub fn with_has_the_second_value<
    Input: Stream,
    P: Parser<Input>,
    Q: Parser<Input, Output = P::Output>,
>(p: &P, q: &Q)
    ensures { MeansSame (⟦<With<P, Q, P::Output> as Parser<Input>>⟧.meaning (picked_of (p.now, q.now))) (second_value Input.step Input.Error.observers (P.meaning p.now) (Q.meaning q.now)) }
{}

/// The law that `skip` is the pair, with its first value.
#[inline]
pub fn skip_has_the_first_value<
    Input: Stream,
    P: Parser<Input>,
    Q: Parser<Input, Output = P::Output>,
>(p: &P, q: &Q)
    ensures { MeansSame (⟦<Skip<P, Q, P::Output> as Parser<Input>>⟧.meaning (picked_of (p.now, q.now))) (first_value Input.step Input.Error.observers (P.meaning p.now) (Q.meaning q.now)) }
{}

/// The law that `between` is the triple of the left, the inner and the right parser, with its second value.
#[inline]
pub fn between_has_the_inner_value<
    Input: Stream,
    L: Parser<Input>,
    R: Parser<Input, Output = L::Output>,
    P: Parser<Input, Output = L::Output>,
>(l: &L, r: &R, p: &P)
    ensures { MeansSame (⟦<Between<L, R, P, L::Output> as Parser<Input>>⟧.meaning (picked_of (l.now, p.now, r.now))) (middle_value Input.step Input.Error.observers (L.meaning l.now) (P.meaning p.now) (R.meaning r.now)) }
{}
