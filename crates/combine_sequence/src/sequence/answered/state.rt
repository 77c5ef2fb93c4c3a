//! What `then` and its kin keep while more input is needed.

/// What is kept while the parser that was asked for runs.
///
/// That is what is kept of the value that it was asked for with, the parser, whether something was committed to before, and its own state.
#[derive(Drop)]
pub struct AnsweredProgress<V, N, U> {
    pub(super) value: V,
    pub(super) parser: N,
    pub(super) committed: bool,
    pub(super) state: U,
}

/// The kept state of `then` and its kin: that of the first parser, or what is kept of the second.
#[derive(Drop)]
pub enum AnsweredState<S, V, N, U> {
    /// The first parser runs.
    First(S),
    /// The parser that was asked for runs.
    Second(AnsweredProgress<V, N, U>),
}

impl<S: Default, V, N, U> Default for AnsweredState<S, V, N, U> {
    ghost use Rattle.combine_sequence.specs.Then.{starts_first};

    ghost is_default = { starts_first S.is_default };

    #[inline]
    fn default() -> Self {
        AnsweredState::First(S::default())
    }
}
