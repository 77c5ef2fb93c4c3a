//! Parsers that are functions of a stream.
ghost use Rattle.std.specs.Prelude.{◌≡◌};
ghost use Rattle.combine_function.specs.Functions.{env_parser_of, function_parser};

pub mod types;

use std::marker::PhantomData;
use types::{Called, EnvParser, FnParser, WithEnv, WithoutEnv};

/// Parses as the function, which is given the stream.
///
/// `f: Fn(&mut Input) -> StdParseResult<O, Input>`, or a `MutFunction`.
///
/// Nothing is added to errors.
///
/// # What the function owes
///
/// It keeps the laws of a parser:
///
/// - It takes the tokens of its value, and a peeked acceptance takes nothing.
/// - A refusal leaves an end of what was unread.
/// - A fault is committed, and is never `Lost`.
/// - What it decides on an open piece, it decides alike on every longer one.
///
/// # Partial input
///
/// If it asks for more the stream is put back to where it began, and the next call begins again. If that fails, it is the fault `Reset`.
///
/// # Differences from combine
///
/// The function is an `Fn`, where the crate takes an `FnMut`. On need of more the crate's loses the tokens that it took.
#[inline]
pub fn parser<Input, F>(f: F) -> FnParser<Input, F>
    ensures { result ≡ function_parser f }
{
    Called {
        call: WithoutEnv(f),
        reads: PhantomData,
    }
}

/// Parses as `parser` does, by a function that is given a clone of `env` too.
///
/// `f: Fn(E, &mut Input) -> StdParseResult<O, Input>, E: Clone`, or a `MutFunction`.
///
/// # Errors
///
/// A clone that finds no memory is the fault `Memory`.
///
/// # Differences from combine
///
/// The function is an `Fn`, where the crate takes a pointer.
#[inline]
pub fn env_parser<Input, E, F>(env: E, f: F) -> EnvParser<E, Input, F>
    ensures { result ≡ env_parser_of env f }
{
    Called {
        call: WithEnv { env, function: f },
        reads: PhantomData,
    }
}
