//! Parsers that are functions of a stream.
ghost use Rattle.std.specs.Prelude.{◌≡◌};
ghost use Rattle.combine_base.specs.Error.Results.{from_standard};
ghost use Rattle.combine_base.specs.Parser.Answer.{world};
ghost use Rattle.combine_base.specs.Parser.Drivers.{Starts};
ghost use Rattle.combine_token.specs.Token.TokenParsers.{token_parser};

use crate::promises::puts_back_without_memory;
use combine::error::{ParseError, StdParseResult};
use combine::parser::Parser;
use combine::parser::function::{env_parser, parser};
use combine::parser::token::token;
use combine::parser::token::types::Token;
use combine::stream::{Stream, fed};

/// This byte.
fn this<Input: Stream<Token = u8>>(wanted: u8, input: &mut Input) -> StdParseResult<u8, Input>
where
    Input::Error: ParseError<u8, Input::Range, Input::Position>,
    ensures { Starts (world Input.step Input.Error.observers Input.counts_failures (λ _. Unit {0})) (⟦<Token<Input, u8> as Parser<Input>>⟧.meaning (token_parser wanted)) (Input.view input.old) (Input.view input.new) (Input.failures input.old) (Input.failures input.new) (from_standard result) }
{
    token(wanted).parse_stream(input).into_result()
}

/// An `a`.
fn an_a<Input: Stream<Token = u8>>(input: &mut Input) -> StdParseResult<u8, Input>
where
    Input::Error: ParseError<u8, Input::Range, Input::Position>,
    ensures { Starts (world Input.step Input.Error.observers Input.counts_failures (λ _. Unit {0})) (⟦<Token<Input, u8> as Parser<Input>>⟧.meaning (token_parser 97)) (Input.view input.old) (Input.view input.new) (Input.failures input.old) (Input.failures input.new) (from_standard result) }
{
    this(b'a', input)
}

/// A function, and one that is given a value too.
fn of_functions() {
    puts_back_without_memory::<fed::Stream<u8>, _>(&parser(an_a));
    puts_back_without_memory::<fed::Stream<u8>, _>(&env_parser(b'a', this));
}
