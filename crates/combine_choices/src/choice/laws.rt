//! Laws of choices, each the contract of a function that does nothing.
ghost use Rattle.std.specs.Prelude.{◌≡◌, [], ◌∷◌};
ghost use Rattle.combine_base.specs.Parser.Meaning.{MeansSame};
ghost use Rattle.combine_choice.specs.Choice.Or.{StartsSame};

use super::{ChoiceParser, Slice};
use combine_base::parser::Parser;
use combine_base::stream::Stream;

/// The law that a choice over a slice means what that over an array of the same parsers means, also from each kept state.
pub fn slice_is_array<'a, Input: Stream, P: Parser<Input>, const N: usize>(
    slice: &Slice<'a, P>,
    array: &[P; N],
)
    requires { slice.now.0.now ≡ array.now }
    ensures { MeansSame
        (⟦<Slice<'a, P> as ChoiceParser<Input>>⟧.meaning slice.now)
        (⟦<[P; N] as ChoiceParser<Input>>⟧.meaning array.now) }
{}

/// The law that a choice over a tuple of two means what that over an array of the same parsers means.
///
/// They have the same outcomes from the start, leave tokens unread and ask for memory alike, and add the same items to an error.
pub fn tuple_2_is_array<Input: Stream, P: Parser<Input>>(a: &P, b: &P)
    ensures { StartsSame
        (⟦<(P, P) as ChoiceParser<Input>>⟧.meaning (a.now, b.now))
        (⟦<[P; 2] as ChoiceParser<Input>>⟧.meaning (a.now ∷ b.now ∷ [])) }
{}

/// The law that a choice over a tuple of three means what that over an array of the same parsers means, as in `tuple_2_is_array`.
pub fn tuple_3_is_array<Input: Stream, P: Parser<Input>>(a: &P, b: &P, c: &P)
    ensures { StartsSame
        (⟦<(P, P, P) as ChoiceParser<Input>>⟧.meaning (a.now, b.now, c.now))
        (⟦<[P; 3] as ChoiceParser<Input>>⟧.meaning (a.now ∷ b.now ∷ c.now ∷ [])) }
{}

/// The law that a choice over a tuple of four means what that over an array of the same parsers means, as in `tuple_2_is_array`.
pub fn tuple_4_is_array<Input: Stream, P: Parser<Input>>(a: &P, b: &P, c: &P, d: &P)
    ensures { StartsSame
        (⟦<(P, P, P, P) as ChoiceParser<Input>>⟧.meaning (a.now, b.now, c.now, d.now))
        (⟦<[P; 4] as ChoiceParser<Input>>⟧.meaning (a.now ∷ b.now ∷ c.now ∷ d.now ∷ [])) }
{}

/// The law that a choice over a tuple of five means what that over an array of the same parsers means, as in `tuple_2_is_array`.
pub fn tuple_5_is_array<Input: Stream, P: Parser<Input>>(a: &P, b: &P, c: &P, d: &P, e: &P)
    ensures { StartsSame
        (⟦<(P, P, P, P, P) as ChoiceParser<Input>>⟧.meaning (a.now, b.now, c.now, d.now, e.now))
        (⟦<[P; 5] as ChoiceParser<Input>>⟧.meaning (a.now ∷ b.now ∷ c.now ∷ d.now ∷ e.now ∷ [])) }
{}

/// The law that a choice over a tuple of six means what that over an array of the same parsers means, as in `tuple_2_is_array`.
pub fn tuple_6_is_array<Input: Stream, P: Parser<Input>>(a: &P, b: &P, c: &P, d: &P, e: &P, f: &P)
    ensures { StartsSame
        (⟦<(P, P, P, P, P, P) as ChoiceParser<Input>>⟧.meaning (a.now, b.now, c.now, d.now, e.now, f.now))
        (⟦<[P; 6] as ChoiceParser<Input>>⟧.meaning (a.now ∷ b.now ∷ c.now ∷ d.now ∷ e.now ∷ f.now ∷ [])) }
{}

/// The law that a choice over a tuple of seven means what that over an array of the same parsers means, as in `tuple_2_is_array`.
pub fn tuple_7_is_array<Input: Stream, P: Parser<Input>>(
    a: &P,
    b: &P,
    c: &P,
    d: &P,
    e: &P,
    f: &P,
    g: &P,
)
    ensures { StartsSame
        (⟦<(P, P, P, P, P, P, P) as ChoiceParser<Input>>⟧.meaning (a.now, b.now, c.now, d.now, e.now, f.now, g.now))
        (⟦<[P; 7] as ChoiceParser<Input>>⟧.meaning (a.now ∷ b.now ∷ c.now ∷ d.now ∷ e.now ∷ f.now ∷ g.now ∷ [])) }
{}

/// The law that a choice over a tuple of eight means what that over an array of the same parsers means, as in `tuple_2_is_array`.
pub fn tuple_8_is_array<Input: Stream, P: Parser<Input>>(
    a: &P,
    b: &P,
    c: &P,
    d: &P,
    e: &P,
    f: &P,
    g: &P,
    h: &P,
)
    ensures { StartsSame
        (⟦<(P, P, P, P, P, P, P, P) as ChoiceParser<Input>>⟧.meaning (a.now, b.now, c.now, d.now, e.now, f.now, g.now, h.now))
        (⟦<[P; 8] as ChoiceParser<Input>>⟧.meaning (a.now ∷ b.now ∷ c.now ∷ d.now ∷ e.now ∷ f.now ∷ g.now ∷ h.now ∷ [])) }
{}
