//! A parser of which errors say one text. Our own, as `expected` with a text that is a type.
ghost use Rattle.std.specs.Prelude.{◌≡◌};
ghost use Rattle.combine_char.specs.TextParsers.{named_parser, parser_named};
ghost use Rattle.combine_char.specs.NamedParser.{named, named_is_meaning, named_means_one};

use crate::class::Text;
use combine_base::error::{ErrorOffset, Info, ParseError, ParseResult, Tracked};
use combine_base::parser::{Outputs, ParseMode, Parser};
use combine_base::stream::Stream;
use std::marker::PhantomData;

/// A parser as its part, but the text is said to be expected, and nothing of what the part expects.
///
/// The state is that of the part.
#[derive(Drop)]
pub struct Named<P, N> {
    parser: P,
    name: PhantomData<N>,
}

/// Parses as the parser, but errors say that the text was expected.
#[inline]
pub fn naming<P, N>(parser: P) -> Named<P, N>
    ensures { result ≡ named_parser parser }
{
    Named {
        parser,
        name: PhantomData,
    }
}

impl<Input, P: Outputs<Input>, N> Outputs<Input> for Named<P, N> {
    type Output = P::Output;
}

impl<Input: Stream, P: Parser<Input>, N: Text> Parser<Input> for Named<P, N> {
    type PartialState = P::PartialState;

    ghost lawful = { λ p. P.lawful (parser_named p) };

    ghost determined = { λ p. P.determined (parser_named p) };

    ghost valid = { P.valid };

    ghost meaning = { λ p. named N.bytes (P.meaning (parser_named p)) };

    ghost parts = { λ p. P.parts (parser_named p) };

    #[inline(always)]
    fn parse_mode<M: ParseMode>(
        &mut self,
        mode: M,
        input: &mut Input,
        state: &mut Self::PartialState,
    ) -> ParseResult<P::Output, Input::Error> {
        self.parser.parse_mode(mode, input, state)
    }

    /// Adds the text, as what was expected.
    #[inline]
    fn add_error(&mut self, error: &mut Tracked<Input::Error>) {
        error.error.add_expected(&Info::Static(N::text()));
    }

    /// Counts as its part does.
    #[inline]
    fn parser_count(&self) -> ErrorOffset {
        self.parser.parser_count()
    }

    ghost default_valid = { P.default_valid };

    ghost laws = { λ p l. named_is_meaning N.bytes P.PartialState.is_default P.valid (P.meaning (parser_named p)) (P.laws (parser_named p) l) };

    ghost single = { λ p l d. named_means_one N.bytes P.valid (P.meaning (parser_named p)) (P.single (parser_named p) l d) };
}
