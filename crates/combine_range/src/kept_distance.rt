//! Distances in items, which range parsers keep.
ghost use Rattle.std.specs.Prelude.{◌≡◌, ◌↔◌, [], true, if◌then◌else◌};
ghost use Rattle.combine_base.specs.Stream.View.{Takes};
ghost use Rattle.combine_base.specs.Stream.Calls.{Passes};
ghost use Rattle.combine_stream.specs.Range.Ranges.{UnconsRange};
ghost use Rattle.combine_range.specs.KeptDistance.{Hands, HandsOutRange, KeepsItemDistance, NotPassed};
ghost use Rattle.combine_base.specs.Error.Errors.{New};
ghost use Rattle.combine_token.specs.Token.TokenReasons.{refuses_one};
ghost use Rattle.combine_range.specs.PeekedRefusals.{NoRange, PeeksSaying, RefusesPeeked, says_why};

use crate::distance::Distance;
use combine_base::error::{ParseResult, Tracked};
use combine_base::refusal::no_token;
use combine_base::stream::{Kind, ResetStream, Stream, StreamOnce};
use combine_stream::range::{Range, RangeStream};

/// Hands out the distance that a call begins with: none where it begins afresh.
#[inline(always)]
pub fn begin(first: bool, state: &mut Distance) -> usize
    ensures begun { result ≡ (if first then 0 else state.old.items) }
    ensures left { state.new.items ≡ 0 }
{
    let distance = if first { 0 } else { state.items };
    state.items = 0;
    distance
}

/// Passes over `n` items.
#[inline(always)]
pub fn pass_items<Input: RangeStream>(input: &mut Input, n: usize) -> Result<(), Kind>
where
    Input::Range: Range,
    ensures passes { Passes (Input.marks input.old) (Input.marks input.new) (Input.failures input.old) (Input.failures input.new) }
    ensures over { UnconsRange Input.counts_failures Input.step Input.size (λ r ts. Unit {0}) (Input.view input.old) (Input.view input.new) (Input.failures input.old) (Input.failures input.new) n result }
{
    if n == 0 {
        return Ok(());
    }
    match input.uncons_range(n) {
        Ok(_range) => Ok(()),
        Err(kind) => Err(kind),
    }
}

/// Returns the result where the kept distance was not passed over: a fault, or a peeked refusal where it ends inside a token, with an error that is made there.
#[cold]
pub fn not_passed<O, Input: Stream>(
    input: &Input,
    why: Kind,
    position: Input::Position,
) -> ParseResult<O, Input::Error>
    ensures answers { NotPassed Input.Error.observers.kind why result }
    ensures says { PeeksSaying (New Input.Error.observers Kind.Refused position) result }
{
    match why {
        Kind::Refused => ParseResult::PeekErr(Tracked::from(input.new_error(
            Kind::Refused,
            position,
        ))),
        Kind::End => ParseResult::CommitErr(input.new_error(Kind::Lost, position)),
        Kind::Memory => ParseResult::CommitErr(input.new_error(Kind::Memory, position)),
        Kind::Read => ParseResult::CommitErr(input.new_error(Kind::Read, position)),
        Kind::Reset => ParseResult::CommitErr(input.new_error(Kind::Reset, position)),
        Kind::Lost => ParseResult::CommitErr(input.new_error(Kind::Lost, position)),
    }
}

/// Returns whether all is taken of an open stream.
#[inline(always)]
pub fn is_undecided_end<Input: RangeStream>(input: &Input) -> bool
where
    Input::Range: Range,
    ensures { (result ≡ true) ↔ (((Input.view input.now).is_open ≡ true) × ((Input.view input.now).unread ≡ [])) }
{
    input.range().len() == 0 && input.is_partial()
}

/// Puts the stream back on need of more, and keeps the distance from there.
///
/// If the stream can't be put back, that is the fault `Reset`.
#[inline(always)]
pub fn keep_distance<O, Input: RangeStream>(
    start: Input::Checkpoint,
    position: Input::Position,
    input: &mut Input,
    state: &mut Distance,
) -> ParseResult<O, Input::Error>
where
    Input::Range: Range,
    ensures passes { Passes (Input.marks input.old) (Input.marks input.new) (Input.failures input.old) (Input.failures input.new) }
    ensures keeps { (v : _) (n : _) → Input.stands input.old start v → Takes Input.step n v (Input.view input.old) → KeepsItemDistance Input.counts_failures Input.step Input.size v (Input.view input.new) (Input.failures input.old) (Input.failures input.new) n Input.Error.observers.kind state.old state.new result }
{
    let read = input.distance(&start);
    match input.reset(start) {
        Ok(()) => {
            state.items = read;
            ParseResult::CommitErr(input.new_error(Kind::End, position))
        }
        Err(kind) => ParseResult::CommitErr(input.new_error(kind, position)),
    }
}

/// Refuses peeked at what is unread, with an error that says that the input ended where nothing is.
///
/// One that finds no memory for that is the fault `Memory`.
#[cold]
pub fn refused_here<O, Input: RangeStream>(
    input: &Input,
    position: Input::Position,
) -> ParseResult<O, Input::Error>
where
    Input::Range: Range,
    requires { (Input.view input.now).is_open ≡ true → (Input.view input.now).unread ≡ [] → ⊥ }
    ensures answers { RefusesPeeked Input.Error.observers.kind Input.Error.observers.heapless (Input.view input.now).is_open result }
    ensures says { PeeksSaying (refuses_one Input.Error.observers position (Input.view input.now).unread) result }
{
    if input.range().len() == 0 {
        return no_token(input, Kind::End, position);
    }
    ParseResult::PeekErr(Tracked::from(input.new_error(Kind::Refused, position)))
}

/// Returns a parser's result where no range of some length could be taken.
///
/// Too few items are need of more on an open stream. They are refused peeked on an ended one, as is an end inside a token. A failed read is a fault, and so is an error that finds no memory to say that the input ended.
#[cold]
pub fn no_range<O, Input: Stream>(
    input: &Input,
    why: Kind,
    position: Input::Position,
) -> ParseResult<O, Input::Error>
    ensures answers { NoRange Input.Error.observers.kind Input.Error.observers.heapless (Input.view input.now).is_open why result }
    ensures says { PeeksSaying (says_why Input.Error.observers position why) result }
{
    match why {
        Kind::Refused => ParseResult::PeekErr(Tracked::from(input.new_error(
            Kind::Refused,
            position,
        ))),
        Kind::End => no_token(input, Kind::End, position),
        Kind::Memory => no_token(input, Kind::Memory, position),
        Kind::Read => no_token(input, Kind::Read, position),
        Kind::Reset => no_token(input, Kind::Reset, position),
        Kind::Lost => no_token(input, Kind::Lost, position),
    }
}

/// Returns the tokens since a checkpoint as a range.
#[inline(always)]
pub fn range_since<Input: RangeStream>(
    start: Input::Checkpoint,
    input: &mut Input,
) -> Result<Input::Range, Kind>
where
    Input::Range: Range,
    ensures passes { Passes (Input.marks input.old) (Input.marks input.new) (Input.failures input.old) (Input.failures input.new) }
    ensures hands { (v : _) (n : _) → Input.stands input.old start v → Takes Input.step n v (Input.view input.old) →
        Hands Input.counts_failures Input.step Input.spells v (Input.view input.new) (Input.failures input.old) (Input.failures input.new) n result }
{
    let n = input.distance(&start);
    if let Err(kind) = input.reset(start) {
        return Err(kind);
    }
    input.uncons_range(n)
}

/// Accepts the range of the tokens since a checkpoint: committed, or peeked where there are none.
///
/// If they can't be read again, that is the fault `Reset` or `Read`.
#[inline(always)]
pub fn hand_out<Input: RangeStream>(
    start: Input::Checkpoint,
    position: Input::Position,
    input: &mut Input,
) -> ParseResult<Input::Range, Input::Error>
where
    Input::Range: Range,
    ensures passes { Passes (Input.marks input.old) (Input.marks input.new) (Input.failures input.old) (Input.failures input.new) }
    ensures hands { (v : _) (n : _) → Input.stands input.old start v → Takes Input.step n v (Input.view input.old) → HandsOutRange Input.counts_failures Input.step Input.spells v (Input.view input.new) (Input.failures input.old) (Input.failures input.new) n Input.Error.observers.kind result }
{
    match range_since(start, input) {
        Ok(range) => {
            if range.len() > 0 {
                ParseResult::CommitOk(range)
            } else {
                ParseResult::PeekOk(range)
            }
        }
        Err(kind) => ParseResult::CommitErr(input.new_error(kind, position)),
    }
}
