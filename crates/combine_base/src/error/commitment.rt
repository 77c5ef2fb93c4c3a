//! Answers after other parts: committed if one of those was.
ghost use Rattle.std.specs.Prelude.{◌≡◌};
ghost use Rattle.combine_base.specs.Sequence.Parts.{accepted_as, refused_as};

use crate::error::{ParseResult, Tracked};

/// Accepts after other parts, committed if one of them was.
#[inline(always)]
pub fn accepted_after<V, E>(committed: bool, value: V) -> ParseResult<V, E>
    ensures { result ≡ accepted_as committed value }
{
    if committed {
        ParseResult::CommitOk(value)
    } else {
        ParseResult::PeekOk(value)
    }
}

/// Refuses after other parts with a peeked refusal, which is committed if one of them was.
#[inline(always)]
pub fn refused_after<V, E>(committed: bool, refusal: Tracked<E>) -> ParseResult<V, E>
    ensures { result ≡ refused_as committed refusal }
{
    if !committed {
        return ParseResult::PeekErr(refusal);
    }
    let Tracked { error, offset: _ } = refusal;
    ParseResult::CommitErr(error)
}
