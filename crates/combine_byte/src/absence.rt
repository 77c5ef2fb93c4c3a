//! What a parser returns where a search finds no place.
ghost use Rattle.std.specs.Prelude.{◌≡◌, ◌↔◌, false, true};
ghost use Rattle.combine_base.specs.Stream.Calls.{Passes};
ghost use Rattle.combine_byte.specs.Search.SearchReasons.{SaysAbsent};
ghost use Rattle.combine_byte.specs.Search.ItemLimit.{PassesUpTo, RefusesAbsent};

use combine_base::error::ParseResult;
use combine_base::refusal::no_token;
use combine_base::stream::{Kind, Stream, StreamOnce};
use combine_stream::range::{Range, RangeStream};

/// Passes over as many tokens as begin within the first `most` items and end there.
///
/// # Errors
///
/// `Read` if the stream failed.
pub fn pass_up_to<Input: RangeStream>(input: &mut Input, most: usize) -> Result<(), Kind>
where
    Input::Range: Range,
    ensures passes { Passes (Input.marks input.old) (Input.marks input.new) (Input.failures input.old) (Input.failures input.new) }
    ensures over { PassesUpTo Input.counts_failures Input.step Input.size (Input.view input.old) (Input.view input.new) (Input.failures input.old) (Input.failures input.new) most result }
{
    let mut items = most.min(input.range().len());
    loop {
        match input.uncons_range(items) {
            Ok(_range) => return Ok(()),
            Err(kind) => {
                if kind != Kind::Refused {
                    return Err(kind);
                }
            }
        }
        items = items.saturating_sub(1);
    }
}

/// Returns whether a range was too short, and more may come.
#[inline]
pub fn may_grow<Input: Stream>(input: &Input, why: Kind) -> bool
    ensures { (result ≡ true) ↔ ((why ≡ Kind.End) × ((Input.view input.now).is_open ≡ true)) }
{
    if why != Kind::End {
        return false;
    }
    input.is_partial()
}

/// Refuses where no place is found in ended input: peeked where the input is empty, and else committed.
///
/// The error says that the input ended. One that finds no memory for that is the fault `Memory`.
#[cold]
pub fn not_found<O, Input: Stream>(
    input: &Input,
    empty: bool,
    position: Input::Position,
) -> ParseResult<O, Input::Error>
    requires { (Input.view input.now).is_open ≡ false }
    ensures refuses { RefusesAbsent Input.Error.observers.kind Input.Error.observers.heapless empty result }
    ensures says { SaysAbsent Input.Error.observers position result }
{
    match no_token(input, Kind::End, position) {
        ParseResult::PeekErr(refusal) => {
            if empty {
                return ParseResult::PeekErr(refusal);
            }
            ParseResult::CommitErr(refusal.error)
        }
        other => other,
    }
}

/// Returns whether nothing is unread, at a distance or after it.
#[inline]
pub fn is_nothing<R: Range>(distance: usize, unread: &R) -> bool
    ensures { (result ≡ true) ↔ ((distance ≡ 0) × (R.count unread.now ≡ 0)) }
{
    if distance > 0 {
        return false;
    }
    unread.len() == 0
}
