//! A value, and whether it is committed.
ghost use Rattle.std.specs.Prelude.{◌≡◌};
ghost use Rattle.combine_base.specs.Error.Results.{inner, peeked, merged, combined};

use crate::error::{ParseResult, Tracked};

/// A value, and whether something was committed to, a token taken or not.
#[derive(Clone, Copy, Debug, PartialEq, Eq)]
pub enum Commit<T> {
    /// Something was committed to.
    Commit(T),
    /// Nothing was.
    Peek(T),
}

impl<T> Commit<T> {
    /// Returns whether nothing was committed to.
    pub fn is_peek(&self) -> bool
        ensures { result ≡ peeked self.now }
    {
        match self {
            Commit::Commit(_) => false,
            Commit::Peek(_) => true,
        }
    }

    /// Returns the value, whether committed or not.
    pub fn into_inner(self) -> T
        ensures { result ≡ inner self }
    {
        match self {
            Commit::Commit(value) => value,
            Commit::Peek(value) => value,
        }
    }

    /// Changes the value, and keeps the commitment.
    pub fn map<U, F: FnOnce(T) -> U>(self, f: F) -> Commit<U>
        requires { F.pre f (inner self) }
        ensures value { F.post f (inner self) (inner result) }
        ensures same { peeked result ≡ peeked self }
    {
        match self {
            Commit::Commit(value) => Commit::Commit(f(value)),
            Commit::Peek(value) => Commit::Peek(f(value)),
        }
    }

    /// Returns the value of `other`, committed if either is.
    pub fn merge<U>(&self, other: Commit<U>) -> Commit<U>
        ensures { result ≡ merged self.now other }
    {
        match self {
            Commit::Commit(_) => Commit::Commit(other.into_inner()),
            Commit::Peek(_) => other,
        }
    }

    /// Calls the function on the value, and returns its result, made committed if this is.
    pub fn combine_commit<U, E, F: FnOnce(T) -> ParseResult<U, E>>(self, f: F) -> ParseResult<U, E>
        requires { F.pre f (inner self) }
        ensures { (r : ParseResult U E) × F.post f (inner self) r × (result ≡ combined self r) }
    {
        match self {
            Commit::Commit(value) => match f(value) {
                ParseResult::CommitOk(answer) => ParseResult::CommitOk(answer),
                ParseResult::PeekOk(answer) => ParseResult::CommitOk(answer),
                ParseResult::CommitErr(error) => ParseResult::CommitErr(error),
                ParseResult::PeekErr(Tracked { error, offset: _ }) => ParseResult::CommitErr(error),
            },
            Commit::Peek(value) => f(value),
        }
    }
}
