//! Streams of bytes, and searches for bytes.
ghost use Rattle.std.specs.Prelude.{◌≡◌, ℕ, List, length};
ghost use Rattle.combine_range.specs.WantedRanges.{Wanted};
ghost use Rattle.combine_byte.specs.Bytes.ByteSearch.{FindsBytes, encoded_bytes, in_bytes, in_bytes_is_one, in_bytes_is_search};

use crate::find::{ByteTest, find_byte, find_bytes};
use crate::search::{Searcher, TakeRange};
use combine_error::easy;
use combine_error::span::{self, SpannedError};
use combine_stream::position::{SliceStream, TextStream};
use combine_stream::range::{ByteRange, Range, RangeStream};
use combine_stream::{Faulty, MaybePartialStream, Unfailing};

/// A stream whose ranges are bytes, some for each token. Our own: the crate asks for bytes of ranges alone.
pub trait ByteStream: RangeStream
where
    Self::Range: ByteRange,
{
    /// The bytes of a token.
    ghost encoded: { Self.Token → List ℕ };

    /// Its items are its bytes.
    ghost sized: { (t : Self.Token) → Self.RangeStream.size t ≡ length (encoded t) };

    /// The bytes of a range are those of its tokens.
    ghost spelled: { (r : Self.Range) (ts : List Self.Token) → Self.RangeStream.spells r ts → Self.Range.bytes r ≡ encoded_bytes encoded ts };
}

impl<'a> ByteStream for &'a [u8] {
    ghost use Rattle.std.specs.Prelude.{refl, [], ◌∷◌};
    ghost use Rattle.combine_byte.specs.Bytes.Encoding.{one_byte, bytes_of_bytes};

    ghost encoded = { one_byte };

    ghost sized = { λ t. refl };

    ghost spelled = { λ r ts e. bytes_of_bytes r.now ts e };
}

impl<'a> ByteStream for SliceStream<'a, u8> {
    ghost use Rattle.std.specs.Prelude.{refl};
    ghost use Rattle.combine_byte.specs.Bytes.Encoding.{one_byte, bytes_of_bytes};

    ghost encoded = { one_byte };

    ghost sized = { λ t. refl };

    ghost spelled = { λ r ts e. bytes_of_bytes r.now ts e };
}

impl<'a> ByteStream for &'a str {
    ghost use Rattle.std.proofs.Math.Utf8.{encode};
    ghost use Rattle.combine_byte.specs.Bytes.Encoding.{sized_encode, bytes_of_chars};

    ghost encoded = { encode };

    ghost sized = { sized_encode };

    ghost spelled = { λ r ts e. bytes_of_chars r.now ts e };
}

impl<'a> ByteStream for TextStream<'a> {
    ghost use Rattle.std.proofs.Math.Utf8.{encode};
    ghost use Rattle.combine_byte.specs.Bytes.Encoding.{sized_encode, bytes_of_chars};

    ghost encoded = { encode };

    ghost sized = { sized_encode };

    ghost spelled = { λ r ts e. bytes_of_chars r.now ts e };
}

impl<S: ByteStream> ByteStream for MaybePartialStream<S>
where
    S::Range: ByteRange,
{
    ghost encoded = { S.encoded };

    ghost sized = { S.sized };

    ghost spelled = { S.spelled };
}

impl<S: ByteStream> ByteStream for easy::Stream<S>
where
    S::Token: PartialEq,
    S::Range: ByteRange + PartialEq,
{
    ghost encoded = { S.encoded };

    ghost sized = { S.sized };

    ghost spelled = { S.spelled };
}

impl<S: ByteStream> ByteStream for span::Stream<S>
where
    S::Range: ByteRange,
    S::Error: SpannedError<S::Token, S::Range, S::Position>,
{
    ghost encoded = { S.encoded };

    ghost sized = { S.sized };

    ghost spelled = { S.spelled };
}

impl<S: Unfailing + ByteStream> ByteStream for Faulty<S>
where
    S::Range: ByteRange,
{
    ghost encoded = { S.encoded };

    ghost sized = { S.sized };

    ghost spelled = { S.spelled };
}

/// What a search for bytes looks for.
pub trait Pattern {
    /// So many bytes, and a test of them.
    ghost wanted: { Self → Wanted (List ℕ) };

    /// Returns the first place where they stand.
    fn find(&self, bytes: &[u8]) -> Option<usize>
        ensures { FindsBytes (wanted self.now) bytes.now result };

    /// Returns how many bytes they are.
    fn len(&self) -> usize
        ensures { result ≡ (wanted self.now).items };
}

/// A byte that passes a test.
#[derive(Clone, Drop)]
pub struct ByteOf<T>(pub(crate) T);

impl<T: ByteTest> Pattern for ByteOf<T> {
    ghost use Rattle.combine_byte.specs.Bytes.ByteSearch.{a_byte};

    ghost wanted = { λ p. a_byte (T.passes p.0) };

    #[inline(always)]
    fn find(&self, bytes: &[u8]) -> Option<usize> {
        find_byte(bytes, &self.0)
    }

    #[inline(always)]
    fn len(&self) -> usize {
        1
    }
}

/// Bytes in a row.
#[derive(Clone, Copy)]
pub struct Needle<'a>(pub(crate) &'a [u8]);

impl<'a> Pattern for Needle<'a> {
    ghost use Rattle.combine_byte.specs.Bytes.ByteSearch.{these_bytes};

    ghost wanted = { λ p. these_bytes p.0.now };

    #[inline(always)]
    fn find(&self, bytes: &[u8]) -> Option<usize> {
        find_bytes(bytes, self.0)
    }

    #[inline(always)]
    fn len(&self) -> usize {
        self.0.len()
    }
}

/// The search for a pattern in the bytes of a range.
#[derive(Clone, Drop)]
pub struct FindBytes<W>(pub(crate) W);

impl<Input: ByteStream, W: Pattern> Searcher<Input> for FindBytes<W>
where
    Input::Range: ByteRange,
{
    ghost callable = { λ s. Unit {0} };

    ghost search = { λ s. in_bytes Input.encoded (W.wanted s.0) };

    ghost settled = { λ s. Unit {0} };

    #[inline(always)]
    fn look(&self, range: Input::Range) -> TakeRange {
        let bytes = range.as_bytes();
        match self.0.find(bytes) {
            Some(place) => TakeRange::Found(place),
            None => TakeRange::NotFound(bytes.len().saturating_sub(self.0.len().saturating_sub(1))),
        }
    }

    ghost stays = { λ s. in_bytes_is_search _ _ };

    ghost one = { λ s d. in_bytes_is_one _ _ };
}
