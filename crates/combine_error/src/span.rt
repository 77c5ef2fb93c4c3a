//! Streams whose positions are spans.
ghost use Rattle.combine_base.specs.Error.NoItems.{no_items};
ghost use Rattle.combine_error.specs.Easy.{listed_errors};
ghost use Rattle.combine_error.specs.Spans.{AtSpan};

use crate::easy::Errors;
use combine_base::error::{DetailedError, ParseError, UnexpectedParse};
use combine_base::function::Function;
use combine_base::stream::{self, Failures, Kind, Positioned, ResetStream, StreamOnce};
use combine_stream::Unfailing;
use combine_stream::range::{Range, RangeStream};

/// A part of the input, from a position to another.
///
/// The order is that of `start`, and then that of `end`.
#[derive(Clone, Copy, Debug, PartialEq, Eq, PartialOrd, Ord)]
pub struct Span<P> {
    /// Where it begins.
    pub start: P,
    /// Where it ends.
    pub end: P,
}

/// The errors that can stand at a span.
///
/// In the crate they are those that turn into an error at any other position.
pub trait SpannedError<T, R, P: Ord + Copy>: ParseError<T, R, P> {
    /// The error at a span.
    type Spanned: DetailedError<T, R, Span<P>>;

    /// Makes the same error, at that span.
    ///
    /// The kind and the items stay.
    fn at_span(self, span: Span<P>) -> Self::Spanned
        ensures { AtSpan Self.observers Self.Spanned.observers span self result };
}

impl<T: Copy, R: Copy, P: Ord + Copy> SpannedError<T, R, P> for UnexpectedParse {
    type Spanned = UnexpectedParse;

    #[inline]
    fn at_span(self, span: Span<P>) -> UnexpectedParse
        ensures { AtSpan (no_items {T = T} {R = R} {P = P}) no_items span self result }
    {
        self
    }
}

impl<T: Copy + PartialEq, R: Copy + PartialEq, P: Ord + Copy> SpannedError<T, R, P>
    for Errors<T, R, P> {
    type Spanned = Errors<T, R, Span<P>>;

    #[inline]
    fn at_span(self, span: Span<P>) -> Errors<T, R, Span<P>>
        ensures { AtSpan (listed_errors T.eq R.eq) (listed_errors T.eq R.eq) span self result }
    {
        let Errors {
            position: _,
            errors,
            kind,
        } = self;
        Errors {
            position: span,
            errors,
            kind,
        }
    }
}

/// A stream whose position is the span that begins and ends where the stream inside stands.
///
/// Its errors are those of the stream inside, at spans.
#[derive(Drop)]
pub struct Stream<S>(pub S);

impl<S: StreamOnce> StreamOnce for Stream<S>
where
    S::Error: SpannedError<S::Token, S::Range, S::Position>,
{
    ghost use Rattle.combine_error.specs.Spans.{span_marks, span_moves, span_step, spanned_view};

    type Token = S::Token;

    type Range = S::Range;

    type Position = Span<S::Position>;

    type Error = <S::Error as SpannedError<S::Token, S::Range, S::Position>>::Spanned;

    ghost Mark = { S.Mark };

    ghost view = { λ s. spanned_view (S.view s.0) };

    ghost step = { span_step S.step };

    ghost marks = { λ s. span_marks (S.marks s.0) };

    ghost failures = { λ s. S.failures s.0 };

    ghost counts_failures = { S.counts_failures };

    ghost moves = { λ s n h k. span_moves S.step S.Position.cmp (S.view s.0) n (S.moves s.0 n h k) };

    #[inline(always)]
    fn uncons(&mut self) -> Result<S::Token, Kind> {
        self.0.uncons()
    }

    #[inline(always)]
    fn advance_by(&mut self, count: u64) -> Result<(), Kind> {
        self.0.advance_by(count)
    }

    #[inline(always)]
    fn is_partial(&self) -> bool {
        self.0.is_partial()
    }

    #[inline]
    fn new_error(&self, why: Kind, position: Span<S::Position>) -> Self::Error {
        self.0.new_error(why, position.start).at_span(position)
    }
}

impl<S: ResetStream> ResetStream for Stream<S>
where
    S::Error: SpannedError<S::Token, S::Range, S::Position>,
{
    ghost use Rattle.combine_error.specs.Spans.{IsSpannedView, span_lasts};

    type Checkpoint = S::Checkpoint;

    ghost stands = { λ s c. IsSpannedView (S.stands s.0 c) };

    ghost lasts = { λ s t c v h k. span_lasts (S.marks s.0) (S.marks t.0) (S.stands s.0 c) (S.stands t.0 c) (λ u g. S.lasts s.0 t.0 c u g) v h k };

    #[inline(always)]
    fn checkpoint(&self) -> S::Checkpoint {
        self.0.checkpoint()
    }

    #[inline(always)]
    fn reset(&mut self, checkpoint: S::Checkpoint) -> Result<(), Kind> {
        self.0.reset(checkpoint)
    }

    #[inline(always)]
    fn has_moved(&self, since: S::Checkpoint) -> bool {
        self.0.has_moved(since)
    }

    #[inline(always)]
    fn count_since(&self, since: S::Checkpoint) -> u64 {
        self.0.count_since(since)
    }

    #[inline(always)]
    fn failures(&self) -> Failures {
        self.0.failures()
    }
}

impl<S: Positioned> Positioned for Stream<S>
where
    S::Error: SpannedError<S::Token, S::Range, S::Position>,
{
    #[inline(always)]
    fn position(&self) -> Span<S::Position> {
        let position = self.0.position();
        Span {
            start: position,
            end: position,
        }
    }
}

impl<S: stream::Stream> stream::Stream for Stream<S>
where
    S::Error: SpannedError<S::Token, S::Range, S::Position>,
{}

impl<S: Unfailing> Unfailing for Stream<S>
where
    S::Error: SpannedError<S::Token, S::Range, S::Position>,
{
    ghost never_fails = { λ s t. S.never_fails s.0 t.0 };
}

/// The ranges are those of the stream inside.
impl<S: RangeStream> RangeStream for Stream<S>
where
    S::Range: Range,
    S::Error: SpannedError<S::Token, S::Range, S::Position>,
{
    ghost size = { S.size };

    ghost spells = { S.spells };

    ghost filled = { S.filled };

    ghost measured = { S.measured };

    #[inline(always)]
    fn uncons_range(&mut self, n: usize) -> Result<S::Range, Kind> {
        self.0.uncons_range(n)
    }

    #[inline(always)]
    fn uncons_while<F: Function<S::Token, Output = bool>>(
        &mut self,
        f: &F,
    ) -> Result<S::Range, Kind> {
        self.0.uncons_while(f)
    }

    #[inline(always)]
    fn distance(&self, since: &S::Checkpoint) -> usize {
        self.0.distance(since)
    }

    #[inline(always)]
    fn range(&self) -> S::Range {
        self.0.range()
    }
}
