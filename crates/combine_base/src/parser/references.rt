//! A parser behind a reference.

use crate::error::{ErrorOffset, ParseResult, Tracked};
use crate::parser::{Outputs, ParseMode, Parser};
use crate::stream::Stream;

impl<Input, P: Outputs<Input>> Outputs<Input> for &mut P {
    type Output = P::Output;
}

/// A reference to a parser parses as the parser does.
impl<Input: Stream, P: Parser<Input>> Parser<Input> for &mut P {
    type PartialState = P::PartialState;

    ghost lawful = { λ p. P.lawful p.now };

    ghost determined = { λ p. P.determined p.now };

    ghost valid = { P.valid };

    ghost meaning = { λ p. P.meaning p.now };

    ghost parts = { λ p. P.parts p.now };

    ghost default_valid = { P.default_valid };

    ghost laws = { λ p h. P.laws p.now h };

    ghost single = { λ p h d. P.single p.now h d };

    #[inline(always)]
    fn parse_mode<M: ParseMode>(
        &mut self,
        mode: M,
        input: &mut Input,
        state: &mut P::PartialState,
    ) -> ParseResult<P::Output, Input::Error> {
        (**self).parse_mode(mode, input, state)
    }

    #[inline]
    fn add_error(&mut self, error: &mut Tracked<Input::Error>) {
        (**self).add_error(error)
    }

    #[inline]
    fn parser_count(&self) -> ErrorOffset {
        (**self).parser_count()
    }
}
