//! Laws of the parsers of `combinator`, each stated by a function that does nothing.
ghost use Rattle.combine_base.specs.Parser.Meaning.{MeansSame};
ghost use Rattle.combine_combinator.specs.CombinatorLaws.{AcceptedWhereRefused, IsComposition, SameFromTheStart};
ghost use Rattle.combine_combinator.specs.CombinatorParsers.{attempt_of, map_of, not_followed_by_of};

use crate::combinator::types::{Map, NotFollowedBy, Try};
use combine_base::parser::Parser;
use combine_base::stream::Stream;

/// The law that `attempt` twice is `attempt` once: from the start both have the same outcomes on every view.
#[inline]
pub fn attempt_twice_is_once<Input: Stream, P: Parser<Input>>(parser: &P)
    ensures { SameFromTheStart (⟦<Try<Try<P>> as Parser<Input>>⟧.meaning (attempt_of (attempt_of parser.now))) (⟦<Try<P> as Parser<Input>>⟧.meaning (attempt_of parser.now)) }
{}

/// The law that `not_followed_by` is accepted, with nothing taken, exactly where its parser is refused.
#[inline]
pub fn not_followed_by_is_accepted_where_refused<Input: Stream, P: Parser<Input>>(parser: &P)
    ensures { AcceptedWhereRefused (⟦<NotFollowedBy<P> as Parser<Input>>⟧.meaning (not_followed_by_of parser.now)) (P.meaning parser.now) }
{}

/// The law that mapping twice is mapping by the composition: from the start and from each state both have the same outcomes, and both say the same.
#[inline]
pub fn map_twice_is_map_of_the_composition<
    Input: Stream,
    P: Parser<Input>,
    B: Drop,
    C: Drop,
    F: Fn(P::Output) -> B,
    G: Fn(B) -> C,
    H: Fn(P::Output) -> C,
>(parser: &P, first: &F, second: &G, both: &H)
    ensures { IsComposition (F.post first.now) (G.post second.now) (H.post both.now) → MeansSame (⟦<Map<Map<P, F, B>, G, C> as Parser<Input>>⟧.meaning (map_of (map_of parser.now first.now) second.now)) (⟦<Map<P, H, C> as Parser<Input>>⟧.meaning (map_of parser.now both.now)) }
{}
