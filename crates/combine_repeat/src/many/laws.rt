//! What the repetitions mean, and what beside one another. The functions do nothing: their contracts are the laws.
ghost use Rattle.combine_repeat.specs.Repetition.{Many1OrSkip, ManyOrSkip, OnceThenTurns, many, many1, skip_many, skip_many1};
ghost use Rattle.combine_base.specs.Parser.Meaning.{MeansSame};
ghost use Rattle.combine_repeat.specs.Repeat.RepeatParsers.{repeated_by};
ghost use Rattle.combine_repeat.specs.Repeat.Repeated.{appended};

use crate::many::types::{Many, Many1, SkipMany, SkipMany1};
use combine_base::parser::Parser;
use combine_base::repeat::Append;
use combine_base::stream::Stream;

/// The law that `many1(p)` is `p` and then, by the rule of sequences, turns of `p`, their values collected after its own: it has no other outcomes, and all of these.
pub fn many1_is_once_then_turns<F, Input: Stream, P: Parser<Input>>(parser: &P)
where
    F: Append<P::Output>,
    ensures { OnceThenTurns Input.step Input.Error.observers (appended F.held F.none F.more F.heapless) (P.meaning parser.now) }
{}

/// The law that `skip_many(p)` has the count and kind of `many(p)`.
pub fn skip_many_is_many_dropped<F, Input: Stream, P: Parser<Input>>(parser: &P)
where
    F: Append<P::Output>,
    ensures { ManyOrSkip Input.step Input.Error.observers (appended F.held F.none F.more F.heapless) (P.meaning parser.now) }
{}

/// The law that `skip_many1(p)` has the count and kind of `many1(p)`.
pub fn skip_many1_is_many1_dropped<F, Input: Stream, P: Parser<Input>>(parser: &P)
where
    F: Append<P::Output>,
    ensures { Many1OrSkip Input.step Input.Error.observers (appended F.held F.none F.more F.heapless) (P.meaning parser.now) }
{}

/// The law that the parser of `many` means turns, of which there need be none.
pub fn many_is_turns<F, Input: Stream, P: Parser<Input>>(parser: &Many<F, P>)
where
    F: Append<P::Output>,
    ensures { MeansSame (⟦<Many<F, P> as Parser<Input>>⟧.meaning parser.now) (many Input.step Input.Error.observers (appended F.held F.none F.more F.heapless) (P.meaning (repeated_by parser.now))) }
{}

/// The law that the parser of `many1` means turns, of which the first is asked for.
pub fn many1_is_turns<F, Input: Stream, P: Parser<Input>>(parser: &Many1<F, P>)
where
    F: Append<P::Output>,
    ensures { MeansSame (⟦<Many1<F, P> as Parser<Input>>⟧.meaning parser.now) (many1 Input.step Input.Error.observers (appended F.held F.none F.more F.heapless) (P.meaning (repeated_by parser.now))) }
{}

/// The law that the parser of `skip_many` means the turns of `many`, their values dropped.
pub fn skip_many_is_turns<Input: Stream, P: Parser<Input>>(parser: &SkipMany<P>)
    ensures { MeansSame (⟦<SkipMany<P> as Parser<Input>>⟧.meaning parser.now) (skip_many Input.step Input.Error.observers (P.meaning (repeated_by parser.now))) }
{}

/// The law that the parser of `skip_many1` means the turns of `many1`, their values dropped.
pub fn skip_many1_is_turns<Input: Stream, P: Parser<Input>>(parser: &SkipMany1<P>)
    ensures { MeansSame (⟦<SkipMany1<P> as Parser<Input>>⟧.meaning parser.now) (skip_many1 Input.step Input.Error.observers (P.meaning (repeated_by parser.now))) }
{}
