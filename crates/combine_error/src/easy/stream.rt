//! Streams whose errors keep items.
ghost use Rattle.std.specs.Prelude.{◌≡◌};
ghost use Rattle.combine_error.specs.Easy.{inner_stream};

use crate::easy::Errors;
use combine_base::function::Function;
use combine_base::stream::{self, Failures, Kind, Positioned, ResetStream, StreamOnce};
use combine_stream::range::{Range, RangeStream};
use combine_stream::{Unfailing, position};
use std::alloc::Global;

/// A stream whose parsers are refused with errors that keep items.
///
/// An error as the stream makes it has no items and takes no memory.
///
/// # Differences from combine
///
/// In the crate it is `Stream(pub S)`. This one keeps an allocator, from which items that are added take their memory.
#[derive(Drop)]
pub struct Stream<S> {
    inner: S,
    alloc: Global,
}

/// A text whose errors keep items and stand at lines and columns.
pub type TextStream<'a> = Stream<position::TextStream<'a>>;

/// A slice whose errors keep items and stand at indexes.
pub type SliceStream<'a, T> = Stream<position::SliceStream<'a, T>>;

impl<S> Stream<S> {
    /// Makes the stream, with errors whose items take their memory from there.
    #[inline]
    pub fn new(alloc: Global, inner: S) -> Self
        ensures { inner_stream result ≡ inner }
    {
        Stream { inner, alloc }
    }

    /// Returns the stream inside.
    #[inline]
    pub fn into_inner(self) -> S
        ensures { result ≡ inner_stream self }
    {
        let Stream { inner, alloc: _ } = self;
        inner
    }
}

impl<S: StreamOnce> StreamOnce for Stream<S>
where
    S::Token: PartialEq,
    S::Range: PartialEq,
{
    type Token = S::Token;

    type Range = S::Range;

    type Position = S::Position;

    type Error = Errors<S::Token, S::Range, S::Position>;

    ghost Mark = { S.Mark };

    ghost view = { λ s. S.view s.inner };

    ghost step = { S.step };

    ghost marks = { λ s. S.marks s.inner };

    ghost failures = { λ s. S.failures s.inner };

    ghost counts_failures = { S.counts_failures };

    ghost moves = { λ s n h k. S.moves s.inner n h k };

    #[inline(always)]
    fn uncons(&mut self) -> Result<S::Token, Kind> {
        self.inner.uncons()
    }

    #[inline(always)]
    fn advance_by(&mut self, count: u64) -> Result<(), Kind> {
        self.inner.advance_by(count)
    }

    #[inline(always)]
    fn is_partial(&self) -> bool {
        self.inner.is_partial()
    }

    #[inline]
    fn new_error(
        &self,
        why: Kind,
        position: S::Position,
    ) -> Errors<S::Token, S::Range, S::Position> {
        Errors {
            position,
            errors: Vec::new(self.alloc),
            kind: why,
        }
    }
}

impl<S: ResetStream> ResetStream for Stream<S>
where
    S::Token: PartialEq,
    S::Range: PartialEq,
{
    type Checkpoint = S::Checkpoint;

    ghost stands = { λ s. S.stands s.inner };

    ghost lasts = { λ s t c v h k. S.lasts s.inner t.inner c v h k };

    #[inline(always)]
    fn checkpoint(&self) -> S::Checkpoint {
        self.inner.checkpoint()
    }

    #[inline(always)]
    fn reset(&mut self, checkpoint: S::Checkpoint) -> Result<(), Kind> {
        self.inner.reset(checkpoint)
    }

    #[inline(always)]
    fn has_moved(&self, since: S::Checkpoint) -> bool {
        self.inner.has_moved(since)
    }

    #[inline(always)]
    fn count_since(&self, since: S::Checkpoint) -> u64 {
        self.inner.count_since(since)
    }

    #[inline(always)]
    fn failures(&self) -> Failures {
        self.inner.failures()
    }
}

impl<S: Positioned> Positioned for Stream<S>
where
    S::Token: PartialEq,
    S::Range: PartialEq,
{
    #[inline(always)]
    fn position(&self) -> S::Position {
        self.inner.position()
    }
}

impl<S: stream::Stream> stream::Stream for Stream<S>
where
    S::Token: PartialEq,
    S::Range: PartialEq,
{}

impl<S: Unfailing> Unfailing for Stream<S>
where
    S::Token: PartialEq,
    S::Range: PartialEq,
{
    ghost never_fails = { λ s t. S.never_fails s.inner t.inner };
}

/// The ranges are those of the stream inside.
impl<S: RangeStream> RangeStream for Stream<S>
where
    S::Token: PartialEq,
    S::Range: Range + PartialEq,
{
    ghost size = { S.size };

    ghost spells = { S.spells };

    ghost filled = { S.filled };

    ghost measured = { S.measured };

    #[inline(always)]
    fn uncons_range(&mut self, n: usize) -> Result<S::Range, Kind> {
        self.inner.uncons_range(n)
    }

    #[inline(always)]
    fn uncons_while<F: Function<S::Token, Output = bool>>(
        &mut self,
        f: &F,
    ) -> Result<S::Range, Kind> {
        self.inner.uncons_while(f)
    }

    #[inline(always)]
    fn distance(&self, since: &S::Checkpoint) -> usize {
        self.inner.distance(since)
    }

    #[inline(always)]
    fn range(&self) -> S::Range {
        self.inner.range()
    }
}
