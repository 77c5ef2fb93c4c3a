//! A parser that was made, and what is kept of it.
ghost use Rattle.std.specs.Prelude.{◌≡◌, true};
ghost use Rattle.combine_combinator.specs.MadeCalls.{CalledMade, RunsMade};
ghost use Rattle.combine_combinator.specs.MadeParsers.{MakerLeavesStream, MadeAt};

use combine_base::error::ParseResult;
use combine_base::function::MutFunction;
use combine_base::parser::{Calls, ParseMode, Parser};
use combine_base::stream::{Stream, asks_for_more};

/// A parser that was made, and its state.
#[derive(Drop)]
pub struct Made<N, U> {
    pub(super) parser: N,
    pub(super) state: U,
}

/// The kept state of `lazy` and `factory`.
#[derive(Drop)]
pub enum MadeState<N, U> {
    /// No parser is kept, and the next call makes one.
    Unmade,
    /// The next call goes on with that one.
    Kept(Made<N, U>),
}

impl<N, U> Default for MadeState<N, U> {
    ghost use Rattle.combine_combinator.specs.MadeParsers.{is_unmade};

    ghost is_default = { is_unmade };

    #[inline]
    fn default() -> Self {
        MadeState::Unmade
    }
}

/// Runs a parser that was made, from its state.
///
/// Need of more is kept in `state`, which is a default one.
#[inline(always)]
pub fn run_made<Input: Stream, N: Parser<Input> + Drop, M: ParseMode>(
    mode: M,
    input: &mut Input,
    from: Made<N, N::PartialState>,
    state: &mut MadeState<N, N::PartialState>,
) -> ParseResult<N::Output, Input::Error>
    requires ready { ⟦<N as Calls<Input>>⟧.ready from.parser from.state }
    requires starts { M.first mode ≡ true → N.PartialState.is_default from.state }
    requires fresh { state.old ≡ MadeState.Unmade }
    ensures { CalledMade N.Parser Input.StreamOnce Input.Error.observers N.PartialState.is_default input.old input.new from state.new result }
{
    let Made {
        mut parser,
        state: mut kept,
    } = from;
    let answer = parser.parse_mode(mode, input, &mut kept);
    if asks_for_more(input, &answer) {
        *state = MadeState::Kept(Made {
            parser,
            state: kept,
        });
    }
    answer
}

/// Runs the parser as `run_made` does, in a call that resumes: apart from the code of calls that begin afresh.
#[inline(never)]
pub fn resume_made<Input: Stream, N: Parser<Input> + Drop, M: ParseMode>(
    mode: M,
    input: &mut Input,
    from: Made<N, N::PartialState>,
    state: &mut MadeState<N, N::PartialState>,
) -> ParseResult<N::Output, Input::Error>
    requires ready { ⟦<N as Calls<Input>>⟧.ready from.parser from.state }
    requires starts { M.first mode ≡ true → N.PartialState.is_default from.state }
    requires fresh { state.old ≡ MadeState.Unmade }
    ensures { CalledMade N.Parser Input.StreamOnce Input.Error.observers N.PartialState.is_default input.old input.new from state.new result }
{
    run_made(mode, input, from, state)
}

/// Asks a maker that leaves the stream in place, and runs the parser that it returns from its beginning.
///
/// Need of more is kept in `state`.
#[inline(always)]
pub fn make_and_run<
    Input: Stream,
    N: Parser<Input> + Drop,
    F: MutFunction<(), Input, Output = N>,
    M: ParseMode,
>(
    maker: &F,
    mode: M,
    input: &mut Input,
    state: &mut MadeState<N, N::PartialState>,
) -> ParseResult<N::Output, Input::Error>
    requires callable { F.callable maker.now tt input.old }
    requires in_place { MakerLeavesStream Input.view Input.marks Input.failures (F.returns maker.now tt) }
    requires lawful { (n : N) → MadeAt Input.view (F.returns maker.now tt) (Input.view input.old) n → N.lawful n }
    requires fresh { state.old ≡ MadeState.Unmade }
    ensures { RunsMade N.Parser Input.StreamOnce Input.Error.observers N.PartialState.is_default (F.returns maker.now tt) input.old input.new state.new result }
{
    let parser = maker.call_mut((), input);
    let made = Made {
        parser,
        state: N::PartialState::default(),
    };
    run_made(mode, input, made, state)
}
