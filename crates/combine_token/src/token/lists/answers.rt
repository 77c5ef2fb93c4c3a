//! How the items of a list are passed over, and what a match of it comes to.
ghost use Rattle.std.specs.Prelude.{◌≡◌, ◌↔◌, ◌+◌, ◌<◌, ◌≤◌, MatchResult, true};
ghost use Rattle.std.specs.Iterator.{IsFinite, size};
ghost use Rattle.std.specs.Option.{option_copied};
ghost use Rattle.combine_base.specs.Error.Errors.{New};
ghost use Rattle.combine_base.specs.Parser.Reasons.{Reasoned};
ghost use Rattle.combine_base.specs.Stream.Calls.{Passes};
ghost use Rattle.combine_token.specs.Token.Lists.IteratedLists.{Gave, GaveAll};
ghost use Rattle.combine_token.specs.Token.Lists.ListAnswers.{AcceptsList, FindsNone, Mismatch, PutsBackList};
ghost use Rattle.combine_token.specs.Token.TokenReasons.{SaysEnded, peeked_only};

use combine_base::error::{Info, ParseError, ParseResult, Tracked, accepted_after, refused_after};
use combine_base::refusal::{add_unexpected_token, no_token};
use combine_base::stream::{Kind, Stream};

/// Takes the first `n` items, or returns how many there were, if there were fewer.
#[inline]
pub(super) fn pass_list_items<I: Iterator>(items: &mut I, n: usize) -> Result<(), usize>
where
    I::Item: Drop,
    requires can { I.can_next items.old }
    requires ends { IsFinite (I.remaining items.old) }
    ensures gave { MatchResult result (λ _. Gave I.next_gives n items.old items.new) (λ m. (m < n) × GaveAll I.next_gives m items.old) }
    ensures left { MatchResult result (λ _. I.can_next items.new × IsFinite (I.remaining items.new) × (n + size (I.remaining items.new) ≤ size (I.remaining items.old))) (λ _. Unit {0}) }
{
    'items: for passed in 0..n {
        let Some(_item) = items.next() else {
            return Err(passed);
        };
    }
    Ok(())
}

/// Accepts with a clone of the value.
#[inline]
pub(super) fn accepted<V: Clone, Input: Stream>(
    value: &V,
    committed: bool,
    position: Input::Position,
    input: &Input,
) -> ParseResult<V, Input::Error>
    ensures { AcceptsList Input.Error.observers.kind (V.is_clone value.now) (V.is_infallible value.now) committed result }
{
    match value.clone() {
        Ok(value) => accepted_after(committed, value),
        Err(_refused) => ParseResult::CommitErr(input.new_error(Kind::Memory, position)),
    }
}

/// Makes the error of a refusal at a token that doesn't fit.
pub(super) fn mismatch<Input: Stream>(
    token: Input::Token,
    expected: Option<&Info<Input::Token, Input::Range>>,
    position: Input::Position,
    input: &Input,
) -> Input::Error
    ensures { Mismatch Input.Error.observers position token (option_copied expected.entry) result }
{
    let mut error = input.new_error(Kind::Refused, position);
    add_unexpected_token(&mut error, token);
    if let Some(info) = expected {
        error.add_expected(info);
    }
    error
}

/// Refuses peeked, with the stream put back to where the call began.
pub(super) fn put_back<O, Input: Stream>(
    start: Input::Checkpoint,
    position: Input::Position,
    input: &mut Input,
) -> ParseResult<O, Input::Error>
    ensures back { PutsBackList Input.counts_failures Input.step Input.Error.observers.kind (Input.stands input.old start) (Input.view input.old) (Input.view input.new) (Input.failures input.old) (Input.failures input.new) result }
    ensures refuses { Reasoned Input.Error.observers.kind (Input.view input.new).is_open (peeked_only (New Input.Error.observers Kind.Refused position)) result }
    ensures passes { Passes (Input.marks input.old) (Input.marks input.new) (Input.failures input.old) (Input.failures input.new) }
{
    if let Err(kind) = input.reset(start) {
        return ParseResult::CommitErr(input.new_error(kind, position));
    }
    ParseResult::PeekErr(Tracked::from(input.new_error(Kind::Refused, position)))
}

/// Returns the result where a read gave no token: at the end of ended input a refusal.
pub(super) fn no_more<O, Input: Stream>(
    committed: bool,
    why: Kind,
    position: Input::Position,
    input: &Input,
) -> ParseResult<O, Input::Error>
    ensures finds { FindsNone Input.Error.observers.kind Input.Error.observers.heapless (Input.view input.now).is_open committed why result }
    ensures refuses { why ≡ Kind.End → Reasoned Input.Error.observers.kind (Input.view input.now).is_open (SaysEnded Input.Error.observers position committed) result }
{
    match no_token::<O, Input>(input, why, position) {
        ParseResult::PeekErr(refusal) => refused_after(committed, refusal),
        ParseResult::CommitErr(error) => ParseResult::CommitErr(error),
        ParseResult::CommitOk(_) => unreachable!(),
        ParseResult::PeekOk(_) => unreachable!(),
    }
}
