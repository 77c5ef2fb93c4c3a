//! A message after its length, and the parser for a length.
ghost use Rattle.std.specs.Prelude.{◌≡◌};
ghost use Rattle.combine_decode.specs.Frames.{framing_of};
ghost use Rattle.combine_sequence.specs.Then.{forget};
ghost use Rattle.combine_token.specs.Token.TokenParsers.{any_parser};
ghost use Rattle.combine_repeat.specs.Repeat.RepeatParsers.{count_min_max_of};

use combine_repeat::counts::count_min_max;
use combine_repeat::counts::types::CountMinMax;
use combine_sequence::sequence::types::NextParser;
use combine_token::token::any;
use combine_token::token::types::Any;
use std::alloc::Global;
use std::marker::PhantomData;

/// The function from a length to the parser of that many bytes, which are collected. Our own.
#[derive(Drop)]
#[derive_where(Clone, Copy)]
pub struct Framing<Input> {
    alloc: Global,
    reads: PhantomData<Input>,
}

impl<Input> Framing<Input> {
    /// Returns the function, which collects bytes with this allocator.
    pub(super) fn new(alloc: Global) -> Self
        ensures { result ≡ framing_of alloc }
    {
        Framing {
            alloc,
            reads: PhantomData,
        }
    }
}

impl<Input> NextParser<u16> for Framing<Input> {
    ghost use Rattle.combine_decode.specs.Frames.{allocator_of};

    type Parser = CountMinMax<Vec<u8>, Any<Input>>;

    type Kept = ();

    ghost callable = { λ f n. Unit {0} };

    ghost answers = { λ f n p. p ≡ count_min_max_of (allocator_of f) n n any_parser };

    ghost keeps = { forget };

    #[inline(always)]
    fn ask(&self, length: u16) -> ((), CountMinMax<Vec<u8>, Any<Input>>) {
        let length = length as usize;
        ((), count_min_max(self.alloc, length, length, any()))
    }
}
