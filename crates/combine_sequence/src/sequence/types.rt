//! The parsers that the functions of `sequence` return.

pub use super::answered::next_parser::{ByMut, ByRef, ByValue, Join, NextParser};
pub use super::answered::state::{AnsweredProgress, AnsweredState};
pub use super::answered::{Answered, Then, ThenPartial, ThenRef};
use combine_base::error::ErrorOffset;
use combine_combinator::combinator::types::{Pick, Picked};

/// The first of two values.
#[derive(Clone, Copy, Drop)]
pub struct First;

/// The second of two values.
#[derive(Clone, Copy, Drop)]
pub struct Second;

/// The middle one of three values, as one parser.
#[derive(Clone, Copy, Drop)]
pub struct Middle;

/// The parser of [`with`](crate::sequence::with).
pub type With<P, Q, B> = Picked<(P, Q), Second, B>;

/// The parser of [`skip`](crate::sequence::skip).
pub type Skip<P, Q, B> = Picked<(P, Q), First, B>;

/// The parser of [`between`](crate::sequence::between).
pub type Between<L, R, P, B> = Picked<(L, P, R), Middle, B>;

impl<A: Drop, B: Drop> Pick<(A, B)> for First {
    type Output = A;

    ghost picked = { λ values. values.0 };

    ghost counted = { λ n. n };

    #[inline(always)]
    fn pick(values: (A, B)) -> A {
        let (first, _) = values;
        first
    }

    #[inline]
    fn count(inside: ErrorOffset) -> ErrorOffset {
        inside
    }
}

impl<A: Drop, B: Drop> Pick<(A, B)> for Second {
    type Output = B;

    ghost picked = { λ values. values.1 };

    ghost counted = { λ n. n };

    #[inline(always)]
    fn pick(values: (A, B)) -> B {
        let (_, second) = values;
        second
    }

    #[inline]
    fn count(inside: ErrorOffset) -> ErrorOffset {
        inside
    }
}

impl<A: Drop, B: Drop, C: Drop> Pick<(A, B, C)> for Middle {
    type Output = B;

    ghost picked = { λ values. values.1 };

    ghost counted = { λ _. 1 };

    #[inline(always)]
    fn pick(values: (A, B, C)) -> B {
        let (_, middle, _) = values;
        middle
    }

    #[inline]
    fn count(_inside: ErrorOffset) -> ErrorOffset {
        ErrorOffset(1)
    }
}
