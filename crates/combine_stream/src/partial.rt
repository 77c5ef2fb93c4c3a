//! A stream that may go on.
ghost use Rattle.std.specs.Prelude.{◌≡◌};

use crate::range::{Range, RangeStream};
use combine_base::function::Function;
use combine_base::stream::{Failures, Kind, Positioned, ResetStream, Stream, StreamOnce};

/// A stream that is open if the mark is `true`, and else ended, whatever the stream inside says.
#[derive(Drop)]
pub struct MaybePartialStream<S>(pub S, pub bool);

impl<S: StreamOnce> StreamOnce for MaybePartialStream<S> {
    ghost use Rattle.std.specs.Prelude.{Option};
    ghost use Rattle.combine_stream.specs.MaybePartial.{marked, or_mark};

    type Token = S::Token;

    type Range = S::Range;

    type Position = S::Position;

    type Error = S::Error;

    ghost Mark = { Option S.Mark };

    ghost view = { λ s. marked s.1 (S.view s.0) };

    ghost step = { S.step };

    /// The places of the stream inside, and one that says whether it is open.
    ghost marks = { λ s. or_mark s.1 (S.marks s.0) };

    ghost failures = { λ s. S.failures s.0 };

    ghost counts_failures = { S.counts_failures };

    ghost moves = { λ s n h k. S.moves s.0 n h k };

    #[inline(always)]
    fn uncons(&mut self) -> Result<S::Token, Kind> {
        self.0.uncons()
    }

    #[inline(always)]
    fn advance_by(&mut self, count: u64) -> Result<(), Kind> {
        self.0.advance_by(count)
    }

    #[inline(always)]
    fn is_partial(&self) -> bool {
        self.1
    }

    #[inline(always)]
    fn new_error(&self, why: Kind, position: S::Position) -> S::Error {
        self.0.new_error(why, position)
    }
}

impl<S: ResetStream> ResetStream for MaybePartialStream<S> {
    ghost use Rattle.combine_stream.specs.MaybePartial.{marked, with_mark, mark_lasts};

    type Checkpoint = S::Checkpoint;

    ghost stands = { λ s c. with_mark s.1 (S.stands s.0 c) };

    ghost lasts = { λ s t c v h k. mark_lasts s.1 t.1 (S.marks s.0) (S.marks t.0) (S.stands s.0 c) (S.stands t.0 c) (λ u g. S.lasts s.0 t.0 c u g) v h k };

    #[inline(always)]
    fn checkpoint(&self) -> S::Checkpoint {
        self.0.checkpoint()
    }

    #[inline(always)]
    fn reset(&mut self, checkpoint: S::Checkpoint) -> Result<(), Kind> {
        self.0.reset(checkpoint)
    }

    #[inline(always)]
    fn has_moved(&self, since: S::Checkpoint) -> bool {
        self.0.has_moved(since)
    }

    #[inline(always)]
    fn count_since(&self, since: S::Checkpoint) -> u64 {
        self.0.count_since(since)
    }

    #[inline(always)]
    fn failures(&self) -> Failures {
        self.0.failures()
    }
}

impl<S: Positioned> Positioned for MaybePartialStream<S> {
    #[inline(always)]
    fn position(&self) -> S::Position {
        self.0.position()
    }
}

impl<S: Stream> Stream for MaybePartialStream<S> {}

impl<S: RangeStream> RangeStream for MaybePartialStream<S>
where
    S::Range: Range,
{
    ghost size = { S.size };

    ghost spells = { S.spells };

    ghost filled = { S.filled };

    ghost measured = { S.measured };

    #[inline(always)]
    fn uncons_range(&mut self, n: usize) -> Result<S::Range, Kind> {
        self.0.uncons_range(n)
    }

    #[inline(always)]
    fn uncons_while<F: Function<S::Token, Output = bool>>(
        &mut self,
        f: &F,
    ) -> Result<S::Range, Kind> {
        self.0.uncons_while(f)
    }

    #[inline(always)]
    fn distance(&self, since: &S::Checkpoint) -> usize {
        self.0.distance(since)
    }

    #[inline(always)]
    fn range(&self) -> S::Range {
        self.0.range()
    }
}
