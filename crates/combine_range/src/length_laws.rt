//! What `length_prefix` means, stated by functions that do nothing.
ghost use Rattle.std.specs.Prelude.{◌↔◌};
ghost use Rattle.combine_base.specs.Parser.Meaning.{SameReasons};
ghost use Rattle.combine_base.specs.Parser.Outcome.{Outcome};
ghost use Rattle.combine_base.specs.Stream.View.{View};
ghost use Rattle.combine_range.specs.LengthParsers.{length_prefix_of};
ghost use Rattle.combine_range.specs.Prefixes.{OneLength, RefusesPrefixed, prefixed};

use crate::length_prefix::types::LengthPrefix;
use combine_base::parser::Parser;
use combine_stream::range::{Range, RangeStream};

/// The law that a length is read, and then that many items, which are the value.
#[inline]
pub fn length_prefix_is_a_length_and_its_items<Input: RangeStream, P: Parser<Input>>(p: &P)
where
    Input::Range: Range,
    P::Output: TryInto<usize>,
    <P::Output as TryInto<usize>>::Error: Drop,
    ensures { (v : View Input.Position Input.Token) (o : Outcome Input.Range) → (⟦<LengthPrefix<Input, P, Input::Range> as Parser<Input>>⟧.meaning (length_prefix_of p.now)).whole v o ↔ prefixed Input.step Input.size Input.spells P.Output.try_into_gives (P.meaning p.now).whole v o }
{}

/// The law that it has one outcome where the part has one, and the values that the part may have at one place are the same length.
#[inline]
pub fn length_prefix_has_one_outcome<Input: RangeStream, P: Parser<Input>>(p: &P)
where
    Input::Range: Range,
    P::Output: TryInto<usize>,
    <P::Output as TryInto<usize>>::Error: Drop,
    requires determined { P.determined p.now }
    requires whole { OneLength P.Output.try_into_gives (P.meaning p.now).whole }
    requires rest { (s : P.PartialState) → P.valid s → OneLength P.Output.try_into_gives ((P.meaning p.now).rest s) }
    ensures { ⟦<LengthPrefix<Input, P, Input::Range> as Parser<Input>>⟧.determined (length_prefix_of p.now) }
{}

/// The law of its refusals.
///
/// If no length was read, the error of a refusal is the part's, or that of a value that is no length, made where the call began. After a length it is that of too few items, or of an end inside a token, made there and explained there.
#[inline]
pub fn length_prefix_refuses<Input: RangeStream, P: Parser<Input>>(p: &P)
where
    Input::Range: Range,
    P::Output: TryInto<usize>,
    <P::Output as TryInto<usize>>::Error: Drop,
    ensures { SameReasons (⟦<LengthPrefix<Input, P, Input::Range> as Parser<Input>>⟧.meaning (length_prefix_of p.now)).refuses (RefusesPrefixed Input.step Input.Error.observers Input.size Input.spells P.Output.try_into_gives (P.meaning p.now).whole (P.meaning p.now).refuses) }
{}
