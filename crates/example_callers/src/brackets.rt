//! Brackets, of which it is said what comes of each, so that a caller can cite that their grammar has one outcome.
ghost use Rattle.std.specs.Prelude.{◌≡◌};
ghost use Rattle.example_callers.specs.Brackets.{outermost};

use combine_base::error::{ParseError, UnexpectedParse};
use combine_base::parser::Parser;
use combine_base::stream::Stream;
use combine_nested::nested::{Frame, Next, always, nested};
use combine_token::token::{any, satisfy};
use std::alloc::{AllocError, Global};

/// Brackets that are open, or what stands round them all; and how many pairs stand inside.
#[derive(Clone, Copy, Drop)]
pub struct Brackets {
    is_outermost: bool,
    pairs: u64,
}

impl Frame for Brackets {
    ghost use Rattle.example_callers.specs.Brackets.{bracket_taken, pairs_joined};

    type Item = u8;

    type Value = u64;

    ghost takes = { bracket_taken };

    ghost joins = { pairs_joined };

    fn take(self, item: u8) -> Result<Next<Brackets, u64>, AllocError> {
        if item == b'(' {
            let inside = Brackets {
                is_outermost: false,
                pairs: 0,
            };
            return Ok(Next::Open(self, inside));
        }
        if item == b')' && !self.is_outermost {
            return Ok(Next::Close(self.pairs));
        }
        Ok(Next::Refuse("bracket expected"))
    }

    fn join(self, value: u64) -> Result<Next<Brackets, u64>, AllocError> {
        let Some(pairs) = self
            .pairs
            .checked_add(value)
            .and_then(|pairs: u64| pairs.checked_add(1))
        else {
            return Ok(Next::Refuse("too many brackets"));
        };
        if self.is_outermost {
            return Ok(Next::Close(pairs));
        }
        Ok(Next::Stay(Brackets {
            is_outermost: false,
            pairs,
        }))
    }
}

/// Takes a parser that has one outcome, and on need of more leaves nothing unread.
pub fn keeps<Input: Stream, P: Parser<Input> + Drop>(parser: P)
    requires determined { P.determined parser }
    requires keeps { (P.meaning parser).keeps }
{}

/// A pair of brackets, with pairs inside.
pub fn keeps_brackets<Input: Stream<Token = u8>>(alloc: Global, depth: usize)
where
    Input::Error: ParseError<u8, Input::Range, Input::Position>,
{
    let root = || -> Brackets
        ensures { result ≡ outermost }
    {
        Brackets {
            is_outermost: true,
            pairs: 0,
        }
    };
    keeps::<Input, _>(nested(alloc, depth, root, always(any())));
}

/// How many pairs of brackets stand inside others, from the first on that stands in none, and what is behind that.
pub fn read_brackets(
    alloc: Global,
    depth: usize,
    input: &[u8],
) -> Result<(u64, &[u8]), UnexpectedParse> {
    let root = || Brackets {
        is_outermost: true,
        pairs: 0,
    };
    let step = always(satisfy(|byte: u8| byte == b'(' || byte == b')'));
    nested(alloc, depth, root, step).parse(input)
}
