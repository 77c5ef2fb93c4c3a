//! By which parser a `factory` parses.
ghost use Rattle.std.specs.Prelude.{◌≡◌};
ghost use Rattle.combine_combinator.specs.MadeCalls.{ParsesMade};
ghost use Rattle.combine_combinator.specs.MadeParsers.{factory_maker};

use crate::lazy::made::{MadeState, make_and_run};
use crate::lazy::types::Factory;
use combine_base::error::ParseResult;
use combine_base::function::MutFunction;
use combine_base::parser::{FirstMode, Parser};
use combine_base::stream::Stream;

/// Parses from the start as the parser that the maker of a `factory` returns for this very stream.
///
/// The `factory` is lawful: its maker may always be called, and what it returns is lawful.
///
/// What `factory` means on a view allows for each stream that stands so, and for open beginnings of it. If the makers' parsers differ, that is more than one outcome. This says which comes. Every call of a `factory` that begins afresh runs the same code.
#[inline]
pub fn make_and_parse<
    Input: Stream,
    N: Parser<Input> + Drop,
    F: MutFunction<(), Input, Output = N>,
>(factory: &Factory<F>, input: &mut Input) -> ParseResult<N::Output, Input::Error>
    requires { ⟦<Factory<F> as Parser<Input>>⟧.lawful factory.now }
    ensures { ParsesMade N.Parser Input.StreamOnce Input.Error.observers N.PartialState.is_default (F.returns (factory_maker factory.now) tt) input.old input.new result }
{
    let mut state = MadeState::Unmade;
    make_and_run(&factory.0, FirstMode, input, &mut state)
}
