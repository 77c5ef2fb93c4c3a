//! A parser that is one of two.
ghost use Rattle.std.specs.Prelude.{◌≡◌};
ghost use Rattle.combine_choice.specs.HeldParser.{Started};
ghost use Rattle.combine_choice.specs.Variants2.{each_2, pick_left, pick_right};

use combine_base::error::{ErrorOffset, ParseResult, Tracked};
use combine_base::parser::{Outputs, ParseMode, Parser};
use combine_base::stream::Stream;
use std::mem::take;

/// One of two parsers, which means the one that it holds; or the state of one of them.
///
/// A kept state of another variant than the parser holds is the beginning, and so is a variant that holds a default state. The latter is what every result but need of more leaves, in the variant of the parser: it may be `Right`, where `Either::default()` is `Left`.
///
/// # Examples
///
/// ```
/// fn number(input: &[u8]) -> Result<(u32, &[u8]), UnexpectedParse> {
///     let of_kind = |kind: u8| match kind {
///         4 => Either::Left(be_u32()),
///         _ => Either::Right(map(be_u16(), |number: u16| u32::from(number))),
///     };
///     then(any(), of_kind).parse(input)
/// }
/// ```
///
/// On `b"\x04\0\0\x01\0;"` it returns `(256, b";")`, and on `b"\x02\x01\0;"` `(256, b";")`.
#[derive(Drop)]
pub enum Either<L, R> {
    Left(L),
    Right(R),
}

/// Returns the same result, made anew in each case: so what asks for the case next is compiled after each variant, and not after the place where their results meet.
#[inline(always)]
fn passed_on<O, E>(answer: ParseResult<O, E>) -> ParseResult<O, E>
    ensures { result ≡ answer }
{
    match answer {
        ParseResult::CommitOk(value) => ParseResult::CommitOk(value),
        ParseResult::PeekOk(value) => ParseResult::PeekOk(value),
        ParseResult::CommitErr(error) => ParseResult::CommitErr(error),
        ParseResult::PeekErr(refusal) => ParseResult::PeekErr(refusal),
    }
}

impl<L: Default, R: Default> Default for Either<L, R> {
    ghost is_default = { each_2 L.is_default R.is_default };

    fn default() -> Self {
        Either::Left(L::default())
    }
}

impl<L: Default + Drop, R: Default + Drop> Either<L, R> {
    #[inline(always)]
    fn start_left(&mut self) -> L
        ensures { Started L.is_default (pick_left self.old) result }
    {
        match self {
            Either::Left(kept) => take(kept),
            Either::Right(_) => L::default(),
        }
    }

    #[inline(always)]
    fn start_right(&mut self) -> R
        ensures { Started R.is_default (pick_right self.old) result }
    {
        match self {
            Either::Right(kept) => take(kept),
            Either::Left(_) => R::default(),
        }
    }
}

impl<Input, L: Outputs<Input>, R> Outputs<Input> for Either<L, R> {
    type Output = L::Output;
}

impl<Input: Stream, L: Parser<Input>, R: Parser<Input, Output = L::Output>> Parser<Input>
    for Either<L, R> {
    ghost use Rattle.combine_choice.specs.Variants2.{each_2, each_2_into, variant_2, variant_2_is_meaning, variant_2_means_one};

    type PartialState = Either<L::PartialState, R::PartialState>;

    ghost lawful = { each_2 L.lawful R.lawful };

    ghost determined = { each_2 L.determined R.determined };

    ghost valid = { each_2 L.valid R.valid };

    ghost meaning = { variant_2 L.meaning R.meaning };

    ghost default_valid = { each_2_into L.default_valid R.default_valid };

    ghost laws = { variant_2_is_meaning L.laws R.laws };

    ghost single = { variant_2_means_one L.single R.single };

    #[inline(always)]
    fn parse_mode<M: ParseMode>(
        &mut self,
        mode: M,
        input: &mut Input,
        state: &mut Self::PartialState,
    ) -> ParseResult<L::Output, Input::Error> {
        match self {
            Either::Left(parser) => {
                let mut kept = state.start_left();
                let answer = parser.parse_mode(mode, input, &mut kept);
                *state = Either::Left(kept);
                passed_on(answer)
            }
            Either::Right(parser) => {
                let mut kept = state.start_right();
                let answer = parser.parse_mode(mode, input, &mut kept);
                *state = Either::Right(kept);
                passed_on(answer)
            }
        }
    }

    /// Adds what the parser inside adds.
    fn add_error(&mut self, error: &mut Tracked<Input::Error>) {
        match self {
            Either::Left(parser) => parser.add_error(error),
            Either::Right(parser) => parser.add_error(error),
        }
    }

    fn parser_count(&self) -> ErrorOffset {
        ErrorOffset(1)
    }
}
