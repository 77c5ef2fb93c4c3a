//! The calls of which the parsers of tokens are made, also in other crates: the reading of one token, and the match of a list.
ghost use Rattle.combine_base.specs.Parser.Answer.{world};
ghost use Rattle.combine_base.specs.Parser.Reasons.{Reasoned};
ghost use Rattle.combine_base.specs.Stream.Calls.{Passes};
ghost use Rattle.combine_token.specs.Token.OneToken.{holds, of_token, PeekedLeaves, ReadsToken, ReadsTokenIf};
ghost use Rattle.combine_token.specs.Token.TokenReasons.{RefusesToken};

pub use crate::token::lists::match_list;
use combine_base::error::{ParseResult, Tracked};
use combine_base::refusal::no_token;
use combine_base::stream::{Kind, Stream};

/// Reads what comes first, a token (`Some`) or the end of ended input (`None`), under a test. Our own.
///
/// A token that the test gives a value for is taken, and accepted committed with that value. Such an end is accepted peeked.
///
/// # Errors
///
/// - What the test gives `None` for is refused peeked, a token being put back.
/// - A failed read or reset is the fault `Read` or `Reset`.
/// - If an error keeps items, one that finds no memory for "end of input" is the fault `Memory`.
///
/// # Partial input
///
/// The end of open input is need of more, and nothing is taken then.
#[inline(always)]
pub fn one_token<B, Input: Stream, F: FnOnce(Option<Input::Token>) -> Option<B>>(
    test: F,
    input: &mut Input,
) -> ParseResult<B, Input::Error>
    requires { F.IsAlwaysCallable test }
    ensures passes { Passes (Input.marks input.old) (Input.marks input.new) (Input.failures input.old) (Input.failures input.new) }
    ensures reads { ReadsToken (world Input.step Input.Error.observers Input.counts_failures ⟦<() as Default>⟧.is_default) (F.post test) (Input.view input.old) (Input.view input.new) (Input.failures input.old) (Input.failures input.new) result }
    ensures back { PeekedLeaves (Input.view input.old) (Input.view input.new) result }
    ensures refuses { Reasoned Input.Error.observers.kind (Input.view input.new).is_open (RefusesToken Input.Error.observers (Input.view input.old) (Input.view input.new)) result }
{
    let start = input.checkpoint();
    let position = input.position();
    match input.uncons() {
        Ok(token) => match test(Some(token)) {
            Some(value) => ParseResult::CommitOk(value),
            None => match input.reset(start) {
                Ok(()) => ParseResult::PeekErr(Tracked::from(input.new_error(
                    Kind::Refused,
                    position,
                ))),
                Err(kind) => ParseResult::CommitErr(input.new_error(kind, position)),
            },
        },
        Err(Kind::End) => {
            if input.is_partial() {
                return ParseResult::CommitErr(input.new_error(Kind::End, position));
            }
            match test(None) {
                Some(value) => ParseResult::PeekOk(value),
                None => no_token(input, Kind::End, position),
            }
        }
        Err(kind) => ParseResult::CommitErr(input.new_error(kind, position)),
    }
}

/// Reads a token that the function gives a value for, as `one_token` does. Our own.
///
/// Another token, and the end of ended input, is refused peeked.
#[inline(always)]
pub fn token_map<B, Input: Stream, F: FnOnce(Input::Token) -> Option<B>>(
    function: F,
    input: &mut Input,
) -> ParseResult<B, Input::Error>
    requires { F.IsAlwaysCallable function }
    ensures passes { Passes (Input.marks input.old) (Input.marks input.new) (Input.failures input.old) (Input.failures input.new) }
    ensures reads { ReadsToken (world Input.step Input.Error.observers Input.counts_failures ⟦<() as Default>⟧.is_default) (of_token (F.post function)) (Input.view input.old) (Input.view input.new) (Input.failures input.old) (Input.failures input.new) result }
    ensures back { PeekedLeaves (Input.view input.old) (Input.view input.new) result }
    ensures refuses { Reasoned Input.Error.observers.kind (Input.view input.new).is_open (RefusesToken Input.Error.observers (Input.view input.old) (Input.view input.new)) result }
{
    one_token(
        |first: Option<Input::Token>| -> Option<B>
            requires { F.IsAlwaysCallable function }
            ensures { of_token (F.post function) first result }
        {
            match first {
                Some(token) => function(token),
                None => None,
            }
        },
        input,
    )
}

/// Reads a token that the predicate holds of, as `token_map` does. Our own.
#[inline(always)]
pub fn token_if<Input: Stream, F: FnOnce(Input::Token) -> bool>(
    predicate: F,
    input: &mut Input,
) -> ParseResult<Input::Token, Input::Error>
    requires { F.IsAlwaysCallable predicate }
    ensures passes { Passes (Input.marks input.old) (Input.marks input.new) (Input.failures input.old) (Input.failures input.new) }
    ensures reads { ReadsTokenIf (world Input.step Input.Error.observers Input.counts_failures ⟦<() as Default>⟧.is_default) (F.post predicate) (Input.view input.old) (Input.view input.new) (Input.failures input.old) (Input.failures input.new) result }
    ensures back { PeekedLeaves (Input.view input.old) (Input.view input.new) result }
    ensures refuses { Reasoned Input.Error.observers.kind (Input.view input.new).is_open (RefusesToken Input.Error.observers (Input.view input.old) (Input.view input.new)) result }
{
    token_map(
        |token: Input::Token| -> Option<Input::Token>
            requires { F.IsAlwaysCallable predicate }
            ensures { holds (F.post predicate) token result }
        { if predicate(token) { Some(token) } else { None } },
        input,
    )
}
