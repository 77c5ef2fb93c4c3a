//! A pair that is taken as a whole, or not at all where more is needed. Our own.
ghost use Rattle.std.specs.Prelude.{◌≡◌};
ghost use Rattle.combine_base.specs.Parser.Answer.{world};
ghost use Rattle.combine_base.specs.Parser.Meaning.{MeansSame};
ghost use Rattle.combine_base.specs.Parser.Reasons.{Reasoned};
ghost use Rattle.combine_base.specs.Stream.Calls.{Passes};
ghost use Rattle.combine_char.specs.Restart.{AnswersBegunAgain, whole_pair, whole_pair_is_meaning, whole_pair_means_one};
ghost use Rattle.combine_char.specs.TextParsers.{pair_of, whole_pair_parser};

use combine_base::error::{ErrorOffset, ParseResult, Tracked};
use combine_base::parser::{Outputs, ParseMode, Parser};
use combine_base::stream::{Positioned, ResetStream, Stream, StreamOnce, needs_more};

/// A parser as its part, a parser of pairs, with the second value.
///
/// It keeps no state: on need of more the stream is put back, and the next call begins again.
#[derive(Drop)]
pub struct WholePair<P>(P);

/// Gives the second value of a parser of pairs, which begins again after need of more.
#[inline]
pub fn whole_pair<P>(pair: P) -> WholePair<P>
    ensures { result ≡ whole_pair_parser pair }
{
    WholePair(pair)
}

impl<Input, A: Drop, B: Drop, P: Outputs<Input, Output = (A, B)>> Outputs<Input> for WholePair<P> {
    type Output = B;
}

impl<Input: Stream, A: Drop, B: Drop, P: Parser<Input, Output = (A, B)>> Parser<Input>
    for WholePair<P> {
    type PartialState = ();

    ghost lawful = { λ p. P.lawful (pair_of p) };

    ghost determined = { λ p. P.determined (pair_of p) };

    ghost meaning = { λ p. whole_pair (P.meaning (pair_of p)) };

    ghost parts = { λ p. P.parts (pair_of p) };

    #[inline(always)]
    fn parse_mode<M: ParseMode>(
        &mut self,
        mode: M,
        input: &mut Input,
        state: &mut (),
    ) -> ParseResult<B, Input::Error> {
        begin_again(&mut self.0, input).map(
            |pair: (A, B)| -> B
                ensures { result ≡ pair.1 }
            { pair.1 },
        )
    }

    /// Adds what its part adds.
    #[inline]
    fn add_error(&mut self, error: &mut Tracked<Input::Error>) {
        self.0.add_error(error);
    }

    /// Counts as its part does.
    #[inline]
    fn parser_count(&self) -> ErrorOffset {
        self.0.parser_count()
    }

    ghost default_valid = { λ s d. tt };

    ghost laws = { λ p l. whole_pair_is_meaning _ _ (P.meaning (pair_of p)) (P.laws (pair_of p) l) };

    ghost single = { λ p l d. whole_pair_means_one _ (P.meaning (pair_of p)) (P.single (pair_of p) l d) };
}

/// Makes one call of a parser from its start; on need of more the stream is put back.
fn begin_again<Input: Stream, P: Parser<Input>>(
    part: &mut P,
    input: &mut Input,
) -> ParseResult<P::Output, Input::Error>
    requires { P.lawful part.old }
    ensures lawful { P.lawful part.new }
    ensures same { MeansSame (P.meaning part.old) (P.meaning part.new) }
    ensures passes { Passes (Input.marks input.old) (Input.marks input.new) (Input.failures input.old) (Input.failures input.new) }
    ensures answers { AnswersBegunAgain (world Input.step Input.Error.observers Input.counts_failures ⟦<() as Default>⟧.is_default) (P.meaning part.old) (Input.view input.old) (Input.view input.new) (Input.failures input.old) (Input.failures input.new) result }
    ensures refuses { Reasoned Input.Error.observers.kind (Input.view input.new).is_open ((P.meaning part.old).refuses (Input.view input.old) (Input.view input.new)) result }
{
    let start = input.checkpoint();
    let position = input.position();
    match part.parse_lazy(input) {
        ParseResult::CommitOk(value) => ParseResult::CommitOk(value),
        ParseResult::PeekOk(value) => ParseResult::PeekOk(value),
        ParseResult::PeekErr(refusal) => ParseResult::PeekErr(refusal),
        ParseResult::CommitErr(error) => {
            if needs_more(input, &error) {
                return match input.reset(start) {
                    Ok(()) => ParseResult::CommitErr(error),
                    Err(kind) => ParseResult::CommitErr(input.new_error(kind, position)),
                };
            }
            ParseResult::CommitErr(error)
        }
    }
}
