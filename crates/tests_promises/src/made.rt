//! Parsers that a caller's function answers.
ghost use Rattle.std.specs.Prelude.{◌≡◌};
ghost use Rattle.combine_choice.specs.declared.variants.either.Either.TheVariants.{Left};
ghost use Rattle.combine_token.specs.Token.TokenParsers.{any_parser, token_parser};

use crate::promises::{keeps, keeps_without_memory};
use combine::error::ParseError;
use combine::parser::combinator::types::{NoPartial, Try};
use combine::parser::combinator::{Either, factory, lazy, no_partial};
use combine::parser::repeat::{Sink, iterate};
use combine::parser::sequence::then;
use combine::parser::token::types::{Any, Token};
use combine::parser::token::{any, token};
use combine::stream::Stream;
use std::alloc::Global;

/// Answers a parser for an `a`, and leaves the stream in place.
fn an_a<Input>(_input: &mut Input) -> Token<Input, u8>
    ensures left { _input.new ≡ _input.old }
    ensures made { result ≡ token_parser 97 }
{
    token(b'a')
}

/// Answers a parser for this byte, and leaves the stream in place.
fn this<Input>(byte: &u8, _input: &mut Input) -> Token<Input, u8>
    ensures left { _input.new ≡ _input.old }
    ensures made { result ≡ token_parser byte.now }
{
    token(*byte)
}

fn made<Input: Stream<Token = u8>>(alloc: Global)
where
    Input::Error: ParseError<u8, Input::Range, Input::Position>,
{
    keeps_without_memory::<Input, _>(&lazy(|| token(b'a')));
    keeps_without_memory::<Input, _>(&factory(an_a));
    keeps::<Input, _>(&iterate::<Vec<u8>, _, _>(alloc, b'a'..b'd', this));
    keeps_without_memory::<Input, _>(&iterate::<Sink, _, _>(alloc, b'a'..b'd', this));
}

/// Any token, where another parser of the type would put it back.
type OrPutBack<Input> = Either<Any<Input>, Try<Any<Input>>>;

/// Answers the first, and leaves the stream in place.
fn the_first<Input>(_input: &mut Input) -> OrPutBack<Input>
    ensures left { _input.new ≡ _input.old }
    ensures made { result ≡ Left any_parser }
{
    Either::Left(any())
}

/// A parser keeps what is answered, though another of its type would not.
fn answered_so<Input: Stream<Token = u8>>()
where
    Input::Error: ParseError<u8, Input::Range, Input::Position>,
{
    let any_next = |_: u8| -> OrPutBack<Input> { Either::Left(any()) };
    keeps_without_memory::<Input, _>(&then(any(), any_next));
    keeps_without_memory::<Input, _>(&lazy(|| -> OrPutBack<Input> { Either::Left(any()) }));
    keeps_without_memory::<Input, _>(&factory(the_first));
}

/// Any token, where another parser of the type would begin again.
type OrAnew<Input> = Either<Any<Input>, NoPartial<Any<Input>>>;

/// Answers the first for each item, and leaves the stream in place.
fn the_first_of<Input>(_item: &u8, _input: &mut Input) -> OrAnew<Input>
    ensures left { _input.new ≡ _input.old }
    ensures made { result ≡ Left any_parser }
{
    Either::Left(any())
}

/// The same for each item of a list.
fn answered_for_items<Input: Stream<Token = u8>>(alloc: Global)
where
    Input::Error: ParseError<u8, Input::Range, Input::Position>,
{
    keeps::<Input, _>(&iterate::<Vec<u8>, _, _>(alloc, 0..2, the_first_of));
    keeps_without_memory::<Input, _>(&iterate::<Sink, _, _>(alloc, 0..2, the_first_of));
}
