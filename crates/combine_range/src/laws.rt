//! What `recognize` gives, that what `take_until_range` tests is what stands there, and that slices and texts are compared by their tokens alone. Each law is stated by a function that does nothing.
ghost use Rattle.std.specs.Prelude.{◌≡◌, ℕ, ◌↔◌, ◌≤◌, ◌++◌, Bool, List, drop, length};
ghost use Rattle.std.specs.Char.{len_utf8};
ghost use Rattle.std.specs.Str.{chars};
ghost use Rattle.combine_base.specs.Parser.Outcome.{Accepted};
ghost use Rattle.combine_base.specs.Stream.View.{View};
ghost use Rattle.combine_range.specs.Range.RecognizedRange.{TakesExactly};
ghost use Rattle.combine_range.specs.WantedRanges.{begins_equal, BeginsWithWanted, Fair, IsFirstPlace, BeginsNowhere, equal_range};
ghost use Rattle.combine_range.specs.Range.RangeParsers.{recognize_of};
ghost use Rattle.combine_range.specs.RangeTests.{FailsTest, FirstTested, NoneTested};
ghost use Rattle.combine_stream.specs.Range.Ranges.{size_of};

use crate::range::types::Recognize;
use combine_base::parser::Parser;
use combine_stream::range::{Range, RangeStream};

/// The law that `recognize` gives exactly the tokens that its parser took, committed exactly if there are some.
pub fn recognize_gives_what_was_taken<Input: RangeStream, P: Parser<Input>>(parser: &P)
where
    Input::Range: Range,
    ensures { (v : View Input.Position Input.Token) (range : Input.Range) (n : ℕ) (committed : Bool) → (⟦<Recognize<P> as Parser<Input>>⟧.meaning (recognize_of parser.now)).whole v (Accepted range n committed) ↔ TakesExactly Input.spells (P.meaning parser.now).whole v range n committed }
{}

/// The law that where ranges of the same tokens compare alike, the first place at which `take_until_range` sees the range is the first one where it stands; and where it sees it at none, it stands nowhere.
pub fn tested_is_first<Input: RangeStream>(wanted: Input::Range)
where
    Input::Range: Range + PartialEq,
    requires { Fair Input.spells (λ r. Input.Range.eq r wanted) }
    ensures first { (b : ℕ) (us : List Input.Token) (k : ℕ) → FirstTested Input.size Input.spells (equal_range Input.Range.count Input.Range.eq wanted) b us k → IsFirstPlace Input.size Input.spells (equal_range Input.Range.count Input.Range.eq wanted) b us k }
    ensures none { (b : ℕ) (us : List Input.Token) → NoneTested Input.size Input.spells (equal_range Input.Range.count Input.Range.eq wanted) b us → BeginsNowhere Input.size Input.spells (equal_range Input.Range.count Input.Range.eq wanted) b us }
{}

/// The law that slices of the same tokens compare alike.
pub fn slices_are_fair<'a, T: Copy + PartialEq>(wanted: &'a [T])
    ensures { Fair ⟦<&'a [T] as RangeStream>⟧.spells (λ r. ⟦<&'a [T] as PartialEq>⟧.eq r wanted.entry) }
{}

/// The law that texts of the same characters compare alike.
pub fn texts_are_fair<'a>(wanted: &'a str)
    ensures { Fair ⟦<&'a str as RangeStream>⟧.spells (λ r. ⟦<&'a str as PartialEq>⟧.eq r wanted.entry) }
{}

/// The law that tokens begin with a slice exactly if the first ones equal its own, pair by pair.
pub fn slices_begin<'a, T: Copy + PartialEq>(wanted: &'a [T])
    ensures { (us : List T) → BeginsWithWanted ⟦<&'a [T] as RangeStream>⟧.size ⟦<&'a [T] as RangeStream>⟧.spells (equal_range ⟦<&'a [T] as Range>⟧.count ⟦<&'a [T] as PartialEq>⟧.eq wanted.entry) us ↔ begins_equal T.eq wanted.now us }
{}

/// The law that characters begin with a text exactly if the first ones are its own.
pub fn texts_begin<'a>(wanted: &'a str)
    ensures { (cs : List ℕ) → BeginsWithWanted ⟦<&'a str as RangeStream>⟧.size ⟦<&'a str as RangeStream>⟧.spells (equal_range ⟦<&'a str as Range>⟧.count ⟦<&'a str as PartialEq>⟧.eq wanted.entry) cs ↔ cs ≡ chars wanted.now ++ drop (length (chars wanted.now)) cs }
{}

/// The law that another slice is seen at tokens exactly if they are enough and the first ones don't equal its own.
pub fn slices_fail<'a, T: Copy + PartialEq>(wanted: &'a [T])
    ensures { (us : List T) → FailsTest ⟦<&'a [T] as RangeStream>⟧.size ⟦<&'a [T] as RangeStream>⟧.spells (equal_range ⟦<&'a [T] as Range>⟧.count ⟦<&'a [T] as PartialEq>⟧.eq wanted.entry) us ↔ ((length wanted.now ≤ length us) × (begins_equal T.eq wanted.now us → ⊥)) }
{}

/// The law that another text is seen at characters exactly if they are enough bytes and the first ones aren't its own.
pub fn texts_fail<'a>(wanted: &'a str)
    ensures { (cs : List ℕ) → FailsTest ⟦<&'a str as RangeStream>⟧.size ⟦<&'a str as RangeStream>⟧.spells (equal_range ⟦<&'a str as Range>⟧.count ⟦<&'a str as PartialEq>⟧.eq wanted.entry) cs ↔ ((length wanted.now ≤ size_of len_utf8 cs) × (cs ≡ chars wanted.now ++ drop (length (chars wanted.now)) cs → ⊥)) }
{}
