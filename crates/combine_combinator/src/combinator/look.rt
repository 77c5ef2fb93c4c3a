//! Parsers whose calls each begin again: their outcome is read off that of their part, which keeps no state.
ghost use Rattle.std.specs.Prelude.{◌≡◌};
ghost use Rattle.combine_base.specs.Error.Errors.{AddsNothing};
ghost use Rattle.combine_base.specs.Stream.Calls.{Passes};
ghost use Rattle.combine_combinator.specs.ResetAnswers.{PutBackFor, RefusesFollowed};
ghost use Rattle.combine_combinator.specs.CombinatorParsers.{denied_part, look_part, whole_part};
ghost use Rattle.combine_combinator.specs.Tables.{by_table, is_not, looks, looks_is_table, not_is_table, same_outcome, stays_is_table, table_is_meaning, table_means_one};

use super::types::refuses;
use combine_base::error::{ErrorOffset, ParseError, ParseResult, Tracked};
use combine_base::parser::{Outputs, ParseMode, Parser};
use combine_base::stream::{Kind, Positioned, ResetStream, Stream, StreamOnce, needs_more};

/// The parser of [`look_ahead`](crate::combinator::look_ahead).
#[derive(Clone, Copy, Drop)]
pub struct LookAhead<P>(pub(super) P);

/// The parser of [`not_followed_by`](crate::combinator::not_followed_by).
#[derive(Clone, Copy, Drop)]
pub struct NotFollowedBy<P>(pub(super) P);

/// The parser of [`no_partial`](crate::combinator::no_partial).
#[derive(Clone, Copy, Drop)]
pub struct NoPartial<P>(pub(super) P);

/// Puts the stream back, and returns that result, or the fault that it could not be put back.
#[inline]
fn put_back<O: Drop, Input: Stream>(
    input: &mut Input,
    start: Input::Checkpoint,
    position: Input::Position,
    answer: ParseResult<O, Input::Error>,
) -> ParseResult<O, Input::Error>
    ensures passes { Passes (Input.marks input.old) (Input.marks input.new) (Input.failures input.old) (Input.failures input.new) }
    ensures back { PutBackFor Input.counts_failures Input.step Input.Error.observers.kind (Input.stands input.old start) (Input.view input.old) (Input.view input.new) (Input.failures input.old) (Input.failures input.new) answer result }
{
    match input.reset(start) {
        Ok(()) => answer,
        Err(kind) => ParseResult::CommitErr(input.new_error(kind, position)),
    }
}

impl<Input, P: Outputs<Input>> Outputs<Input> for LookAhead<P> {
    type Output = P::Output;
}

impl<Input: Stream, P: Parser<Input>> Parser<Input> for LookAhead<P> {
    type PartialState = ();

    ghost lawful = { λ p. P.lawful (look_part p) };

    ghost determined = { λ p. P.determined (look_part p) };

    ghost meaning = { λ p. by_table looks (P.meaning (look_part p)) (P.meaning (look_part p)).adds (P.meaning (look_part p)).refuses };

    ghost parts = { λ p. P.parts (look_part p) };

    ghost default_valid = { λ s d. tt };

    ghost laws = { λ p l. table_is_meaning looks looks_is_table _ _ (P.meaning (look_part p)).adds (P.meaning (look_part p)).refuses (P.laws (look_part p) l) };

    ghost single = { λ p l d. table_means_one looks looks_is_table _ (P.meaning (look_part p)).adds (P.meaning (look_part p)).refuses (P.single (look_part p) l d) };

    #[inline]
    fn parse_mode<M: ParseMode>(
        &mut self,
        mode: M,
        input: &mut Input,
        state: &mut (),
    ) -> ParseResult<P::Output, Input::Error> {
        let start = input.checkpoint();
        let position = input.position();
        match self.0.parse_lazy(input) {
            ParseResult::CommitOk(value) => {
                put_back(input, start, position, ParseResult::PeekOk(value))
            }
            ParseResult::PeekOk(value) => {
                put_back(input, start, position, ParseResult::PeekOk(value))
            }
            ParseResult::CommitErr(error) => {
                if needs_more(input, &error) {
                    return put_back(input, start, position, ParseResult::CommitErr(error));
                }
                ParseResult::CommitErr(error)
            }
            ParseResult::PeekErr(refusal) => ParseResult::PeekErr(refusal),
        }
    }

    /// Adds what its part adds.
    #[inline]
    fn add_error(&mut self, error: &mut Tracked<Input::Error>) {
        self.0.add_error(error);
    }

    /// Counts as its part does.
    #[inline]
    fn parser_count(&self) -> ErrorOffset {
        self.0.parser_count()
    }
}

impl<Input, P> Outputs<Input> for NotFollowedBy<P> {
    type Output = ();
}

impl<Input: Stream, P: Parser<Input>> Parser<Input> for NotFollowedBy<P> {
    type PartialState = ();

    ghost lawful = { λ p. P.lawful (denied_part p) };

    ghost determined = { λ p. P.determined (denied_part p) };

    ghost meaning = { λ p. by_table is_not (P.meaning (denied_part p)) AddsNothing (RefusesFollowed Input.Error.observers) };

    ghost parts = { λ p. P.parts (denied_part p) };

    ghost default_valid = { λ s d. tt };

    ghost laws = { λ p l. table_is_meaning is_not not_is_table _ _ AddsNothing (RefusesFollowed Input.Error.observers) (P.laws (denied_part p) l) };

    ghost single = { λ p l d. table_means_one is_not not_is_table _ AddsNothing (RefusesFollowed Input.Error.observers) (P.single (denied_part p) l d) };

    #[inline]
    fn parse_mode<M: ParseMode>(
        &mut self,
        mode: M,
        input: &mut Input,
        state: &mut (),
    ) -> ParseResult<(), Input::Error> {
        let start = input.checkpoint();
        let position = input.position();
        match self.0.parse_lazy(input) {
            ParseResult::CommitOk(_value) => {
                let error = input.new_error(Kind::Refused, position);
                put_back(
                    input,
                    start,
                    position,
                    ParseResult::PeekErr(Tracked::from(error)),
                )
            }
            ParseResult::PeekOk(_value) => {
                let error = input.new_error(Kind::Refused, position);
                put_back(
                    input,
                    start,
                    position,
                    ParseResult::PeekErr(Tracked::from(error)),
                )
            }
            ParseResult::CommitErr(why) => {
                if needs_more(input, &why) {
                    return put_back(input, start, position, ParseResult::CommitErr(why));
                }
                if !refuses(why.kind()) {
                    return ParseResult::CommitErr(why);
                }
                put_back(input, start, position, ParseResult::PeekOk(()))
            }
            ParseResult::PeekErr(_refusal) => {
                put_back(input, start, position, ParseResult::PeekOk(()))
            }
        }
    }

    /// Adds nothing.
    #[inline]
    fn add_error(&mut self, error: &mut Tracked<Input::Error>) {}

    /// Counts as its part does.
    #[inline]
    fn parser_count(&self) -> ErrorOffset {
        self.0.parser_count()
    }
}

impl<Input, P: Outputs<Input>> Outputs<Input> for NoPartial<P> {
    type Output = P::Output;
}

impl<Input: Stream, P: Parser<Input>> Parser<Input> for NoPartial<P> {
    type PartialState = ();

    ghost lawful = { λ p. P.lawful (whole_part p) };

    ghost determined = { λ p. P.determined (whole_part p) };

    ghost meaning = { λ p. by_table same_outcome (P.meaning (whole_part p)) (P.meaning (whole_part p)).adds (P.meaning (whole_part p)).refuses };

    ghost parts = { λ p. P.parts (whole_part p) };

    ghost default_valid = { λ s d. tt };

    ghost laws = { λ p l. table_is_meaning same_outcome stays_is_table _ _ (P.meaning (whole_part p)).adds (P.meaning (whole_part p)).refuses (P.laws (whole_part p) l) };

    ghost single = { λ p l d. table_means_one same_outcome stays_is_table _ (P.meaning (whole_part p)).adds (P.meaning (whole_part p)).refuses (P.single (whole_part p) l d) };

    #[inline]
    fn parse_mode<M: ParseMode>(
        &mut self,
        mode: M,
        input: &mut Input,
        state: &mut (),
    ) -> ParseResult<P::Output, Input::Error> {
        let start = input.checkpoint();
        let position = input.position();
        match self.0.parse_lazy(input) {
            ParseResult::CommitOk(value) => ParseResult::CommitOk(value),
            ParseResult::PeekOk(value) => ParseResult::PeekOk(value),
            ParseResult::CommitErr(error) => {
                if needs_more(input, &error) {
                    return put_back(input, start, position, ParseResult::CommitErr(error));
                }
                ParseResult::CommitErr(error)
            }
            ParseResult::PeekErr(refusal) => ParseResult::PeekErr(refusal),
        }
    }

    /// Adds what its part adds.
    #[inline]
    fn add_error(&mut self, error: &mut Tracked<Input::Error>) {
        self.0.add_error(error);
    }

    /// Counts as its part does.
    #[inline]
    fn parser_count(&self) -> ErrorOffset {
        self.0.parser_count()
    }
}
