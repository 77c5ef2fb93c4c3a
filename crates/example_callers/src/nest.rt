//! A recursive grammar as a caller's own parser: brackets inside brackets.
ghost use Rattle.std.specs.Prelude.{◌≡◌, ◌<◌, true};
ghost use Rattle.combine_base.specs.Sequence.Parts.{joined_answer};
ghost use Rattle.example_callers.specs.Nests.{closed as closed_round, inside as inside_of, nest as nest_of, nests, nests_is_meaning, nests_means_one, opened as opened_by};
ghost use Rattle.combine_function.specs.Once.{RunsOnce};

use combine_base::error::{ErrorOffset, ParseError, ParseResult, Tracked};
use combine_base::parser::{Outputs, ParseMode, Parser};
use combine_base::refusal::refusal_saying;
use combine_base::stream::{Positioned, ResetStream, Stream, StreamOnce, needs_more};
use combine_choice::or::optional;
use combine_combinator::combinator::map;
use combine_token::token::token;

/// How many brackets stand inside one another, at most so deep: none where no opening bracket stands.
///
/// One that is deeper is refused, committed, as is one that isn't closed. On need of more the stream is put back, and the next call begins again.
#[derive(Clone, Copy, Drop)]
pub struct Nest(pub u32);

/// The same answer, committed.
fn committed<O, E>(answer: ParseResult<O, E>) -> ParseResult<O, E>
    ensures { result ≡ joined_answer true (λ v. v) answer }
{
    match answer {
        ParseResult::CommitOk(value) => ParseResult::CommitOk(value),
        ParseResult::PeekOk(value) => ParseResult::CommitOk(value),
        ParseResult::CommitErr(error) => ParseResult::CommitErr(error),
        ParseResult::PeekErr(Tracked { error, offset: _ }) => ParseResult::CommitErr(error),
    }
}

/// An opening bracket, if one stands there.
fn opened<Input: Stream<Token = u8>>(input: &mut Input) -> ParseResult<Option<u8>, Input::Error>
where
    Input::Error: ParseError<u8, Input::Range, Input::Position>,
    ensures { RunsOnce Input.step Input.Error.observers Input.counts_failures Input.view Input.marks Input.failures opened_by input.old input.new result }
{
    optional(token(b'(')).parse_stream(input)
}

/// The bracket that closes one round so many.
fn closed<Input: Stream<Token = u8>>(
    number: u32,
    input: &mut Input,
) -> ParseResult<u32, Input::Error>
where
    Input::Error: ParseError<u8, Input::Range, Input::Position>,
    requires { number < 4294967295 }
    ensures { RunsOnce Input.step Input.Error.observers Input.counts_failures Input.view Input.marks Input.failures (closed_round number) input.old input.new result }
{
    let more = number + 1;
    map(
        token(b')'),
        move |_bracket: u8| -> u32
            ensures { result ≡ more }
        { more },
    )
    .parse_stream(input)
}

/// What stands after an opening bracket, if there was one.
#[cycle(brackets)]
fn inside<Input: Stream<Token = u8>>(
    depth: u32,
    begin: Input::Position,
    bracket: Option<u8>,
    input: &mut Input,
) -> ParseResult<u32, Input::Error>
where
    Input::Error: ParseError<u8, Input::Range, Input::Position>,
    ensures { RunsOnce Input.step Input.Error.observers Input.counts_failures Input.view Input.marks Input.failures (inside_of Input.step bracket depth) input.old input.new result }
{
    match bracket {
        None => ParseResult::PeekOk(0),
        Some(_bracket) => {
            if depth == 0 {
                return ParseResult::CommitErr(refusal_saying(input, begin, "recursion too deep"));
            }
            match brackets(depth - 1, input) {
                ParseResult::CommitOk(number) => committed(closed(number, input)),
                ParseResult::PeekOk(number) => closed(number, input),
                ParseResult::CommitErr(error) => ParseResult::CommitErr(error),
                ParseResult::PeekErr(refusal) => ParseResult::PeekErr(refusal),
            }
        }
    }
}

/// So many brackets, at most so deep. On need of more the tokens stay taken.
#[cycle(brackets)]
fn brackets<Input: Stream<Token = u8>>(
    depth: u32,
    input: &mut Input,
) -> ParseResult<u32, Input::Error>
where
    Input::Error: ParseError<u8, Input::Range, Input::Position>,
    ensures { RunsOnce Input.step Input.Error.observers Input.counts_failures Input.view Input.marks Input.failures (nest_of Input.step depth) input.old input.new result }
{
    let begin = input.position();
    match opened(input) {
        ParseResult::CommitOk(bracket) => committed(inside(depth, begin, bracket, input)),
        ParseResult::PeekOk(bracket) => inside(depth, begin, bracket, input),
        ParseResult::CommitErr(error) => ParseResult::CommitErr(error),
        ParseResult::PeekErr(refusal) => ParseResult::PeekErr(refusal),
    }
}

impl<Input> Outputs<Input> for Nest {
    type Output = u32;
}

impl<Input: Stream<Token = u8>> Parser<Input> for Nest
where
    Input::Error: ParseError<u8, Input::Range, Input::Position>,
{
    type PartialState = ();

    ghost meaning = { λ p. nests Input.step p.0 };

    fn parse_mode<M: ParseMode>(
        &mut self,
        mode: M,
        input: &mut Input,
        state: &mut (),
    ) -> ParseResult<u32, Input::Error> {
        let start = input.checkpoint();
        let position = input.position();
        match brackets(self.0, input) {
            ParseResult::CommitOk(number) => ParseResult::CommitOk(number),
            ParseResult::PeekOk(number) => ParseResult::PeekOk(number),
            ParseResult::PeekErr(refusal) => ParseResult::PeekErr(refusal),
            ParseResult::CommitErr(error) => {
                if needs_more(input, &error) {
                    return match input.reset(start) {
                        Ok(()) => ParseResult::CommitErr(error),
                        Err(kind) => ParseResult::CommitErr(input.new_error(kind, position)),
                    };
                }
                ParseResult::CommitErr(error)
            }
        }
    }

    /// Adds nothing.
    fn add_error(&mut self, error: &mut Tracked<Input::Error>) {}

    fn parser_count(&self) -> ErrorOffset {
        ErrorOffset(1)
    }

    ghost default_valid = { λ s d. tt };

    ghost laws = { λ p l. nests_is_meaning Input.step p.0 _ _ };

    ghost single = { λ p l d. nests_means_one Input.step p.0 _ };
}
