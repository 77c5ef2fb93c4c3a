//! Streams that hand out ranges of their tokens.
ghost use Rattle.std.specs.Prelude.{◌≡◌, ℕ, ◌<◌, List, length, take};
ghost use Rattle.combine_base.specs.Stream.View.{View, Ahead};
ghost use Rattle.combine_base.specs.Stream.Calls.{Passes};
ghost use Rattle.combine_stream.specs.Range.Ranges.{size_of, UnconsRange, UnconsWhile};

use combine_base::function::Function;
use combine_base::stream::{Kind, ResetStream, Stream, StreamOnce};

pub(crate) mod slices;
pub(crate) mod texts;

/// A part of an input, measured in items: tokens of a slice, or bytes of a text.
///
/// It is `Copy`, where the crate asks `Clone`.
pub trait Range: Copy {
    ghost count: { Self → ℕ };

    /// Returns the number of items.
    fn len(&self) -> usize
        ensures { result ≡ count self.now };
}

/// A range whose items are bytes. Our own: the crate asks `AsRef<[u8]>`.
pub trait ByteRange: Range {
    ghost bytes: { Self → List ℕ };

    /// Returns the bytes.
    fn as_bytes(&self) -> &[u8]
        ensures { result.now ≡ bytes self.now };

    /// Each item is a byte.
    ghost counts: { (r : Self) → Self.Range.count r ≡ length (bytes r) };
}

/// A stream that hands out ranges.
pub trait RangeStream: Stream
where
    Self::Range: Range,
{
    /// The number of items of a token.
    ghost size: { Self.Token → ℕ };

    /// The range holds these tokens.
    ghost spells: { Self.Range → List Self.Token → Type 0 };

    /// Takes the first n items.
    ///
    /// # Errors
    ///
    /// - `End` if fewer are unread, and `Refused` if the n-th is inside a token; nothing has changed.
    /// - `Read` if the read fails; its count rises, and an end of the unread tokens is left.
    fn uncons_range(&mut self, n: usize) -> Result<Self::Range, Kind>
        ensures read { UnconsRange Self.counts_failures Self.step size spells (Self.view self.old) (Self.view self.new) (Self.failures self.old) (Self.failures self.new) n result }
        ensures passes { Passes (Self.marks self.old) (Self.marks self.new) (Self.failures self.old) (Self.failures self.new) };

    /// Takes the longest beginning whose tokens pass the test; it may be empty.
    ///
    /// # Errors
    ///
    /// `Read` as for `uncons_range`.
    fn uncons_while<F: Function<Self::Token, Output = bool>>(
        &mut self,
        f: &F,
    ) -> Result<Self::Range, Kind>
        requires { (t : Self.Token) → F.callable f.now t }
        ensures read { UnconsWhile Self.counts_failures Self.step size spells (Self.view self.old) (Self.view self.new) (Self.failures self.old) (Self.failures self.new) (F.returns f.now) result }
        ensures passes { Passes (Self.marks self.old) (Self.marks self.new) (Self.failures self.old) (Self.failures self.new) };

    /// Returns the number of items that were taken since the checkpoint was made.
    fn distance(&self, since: &Self::Checkpoint) -> usize
        ensures { (v : View Self.Position Self.Token) (k : ℕ) → Self.stands self.now since.now v → Ahead Self.step k v (Self.view self.now) → result ≡ size_of size (take k v.unread) };

    /// Returns all that is unread.
    fn range(&self) -> Self::Range
        ensures { spells result (Self.view self.now).unread };

    /// Each token is some items.
    ghost filled: { (t : Self.Token) → 0 < size t };

    /// A range has as many items as its tokens.
    ghost measured: { (r : Self.Range) (ts : List Self.Token) → spells r ts → Self.Range.count r ≡ size_of size ts };
}
