//! The results of parsers.
ghost use Rattle.std.specs.Prelude.{◌≡◌, false, Ok, Err, IsTrue, ◌↔◌};
ghost use Rattle.combine_base.specs.Error.Results.{is_accepted_answer, standard, from_standard, as_result, MapsValue, MapsError};

use crate::error::{Commit, Tracked};
use crate::stream::StreamOnce;

/// The result of a parser.
///
/// A fault (an error of kind `Memory`, `Read`, `Reset` or `Lost`) and need of more (`End` on an open stream) are committed errors.
#[derive(Drop)]
pub enum ParseResult<O, E> {
    /// Accepted, committed.
    CommitOk(O),
    /// Accepted, and nothing was taken or committed to.
    PeekOk(O),
    /// Refused and committed, or need of more, or a fault.
    CommitErr(E),
    /// Refused, and nothing was committed to: another parser may be tried.
    PeekErr(Tracked<E>),
}

impl<O, E> ParseResult<O, E> {
    /// Returns whether it is an acceptance, committed or not.
    pub fn is_ok(&self) -> bool
        ensures { result ≡ is_accepted_answer self.now }
    {
        match self {
            ParseResult::CommitOk(_) => true,
            ParseResult::PeekOk(_) => true,
            ParseResult::CommitErr(_) => false,
            ParseResult::PeekErr(_) => false,
        }
    }

    /// Returns whether it is no acceptance, but a refusal, need of more or a fault.
    pub fn is_err(&self) -> bool
        ensures { IsTrue result ↔ (is_accepted_answer self.now ≡ false) }
    {
        !self.is_ok()
    }

    /// Changes the value of an acceptance, and keeps its commitment.
    ///
    /// An error stays as it is, and the function is then not called.
    pub fn map<P, F: FnOnce(O) -> P>(self, f: F) -> ParseResult<P, E>
        requires { (value : O) → as_result self ≡ Ok value → F.pre f value }
        ensures { MapsValue (F.post f) self result }
    {
        match self {
            ParseResult::CommitOk(value) => ParseResult::CommitOk(f(value)),
            ParseResult::PeekOk(value) => ParseResult::PeekOk(f(value)),
            ParseResult::CommitErr(error) => ParseResult::CommitErr(error),
            ParseResult::PeekErr(error) => ParseResult::PeekErr(error),
        }
    }

    /// Changes the error, and keeps its commitment and offset.
    ///
    /// An acceptance stays as it is, and the function is then not called.
    pub fn map_err<D, F: FnOnce(E) -> D>(self, f: F) -> ParseResult<O, D>
        requires { (error : E) → as_result self ≡ Err error → F.pre f error }
        ensures { MapsError (F.post f) self result }
    {
        match self {
            ParseResult::CommitOk(value) => ParseResult::CommitOk(value),
            ParseResult::PeekOk(value) => ParseResult::PeekOk(value),
            ParseResult::CommitErr(error) => ParseResult::CommitErr(f(error)),
            ParseResult::PeekErr(Tracked { error, offset }) => ParseResult::PeekErr(Tracked {
                error: f(error),
                offset,
            }),
        }
    }

    /// Returns the same result as std's `Result`.
    pub fn into_result(self) -> Result<(O, Commit<()>), Commit<Tracked<E>>>
        ensures { result ≡ standard self }
    {
        match self {
            ParseResult::CommitOk(value) => Ok((value, Commit::Commit(()))),
            ParseResult::PeekOk(value) => Ok((value, Commit::Peek(()))),
            ParseResult::CommitErr(error) => Err(Commit::Commit(Tracked::from(error))),
            ParseResult::PeekErr(error) => Err(Commit::Peek(error)),
        }
    }

    /// Returns the value or the error, whether committed or not.
    pub(crate) fn without_commit(self) -> Result<O, E>
        ensures { result ≡ as_result self }
    {
        match self {
            ParseResult::CommitOk(value) => Ok(value),
            ParseResult::PeekOk(value) => Ok(value),
            ParseResult::CommitErr(error) => Err(error),
            ParseResult::PeekErr(Tracked { error, offset: _ }) => Err(error),
        }
    }
}

impl<O, E> From<ParseResult<O, E>> for Result<(O, Commit<()>), Commit<Tracked<E>>> {
    fn from(answer: ParseResult<O, E>) -> Self
        ensures { result ≡ standard answer }
    {
        answer.into_result()
    }
}

impl<O, E> From<Result<(O, Commit<()>), Commit<Tracked<E>>>> for ParseResult<O, E> {
    fn from(answer: Result<(O, Commit<()>), Commit<Tracked<E>>>) -> Self
        ensures { result ≡ from_standard answer }
    {
        match answer {
            Ok((value, Commit::Commit(()))) => ParseResult::CommitOk(value),
            Ok((value, Commit::Peek(()))) => ParseResult::PeekOk(value),
            Err(Commit::Commit(Tracked { error, offset: _ })) => ParseResult::CommitErr(error),
            Err(Commit::Peek(error)) => ParseResult::PeekErr(error),
        }
    }
}

/// The result of a function that parses: a value or an error, each with what it commits to.
pub type StdParseResult<O, Input> = Result<
    (O, Commit<()>),
    Commit<Tracked<<Input as StreamOnce>::Error>>,
>;
