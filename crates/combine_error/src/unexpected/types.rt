//! The parser that the functions of `error` return.
ghost use Rattle.std.specs.Prelude.{◌≡◌};
ghost use Rattle.combine_base.specs.Error.Errors.{Only};
ghost use Rattle.combine_base.specs.Error.Items.{Unexpected as SaysUnexpected, shown, NoText};
ghost use Rattle.combine_error.specs.Unexpected.{refuses_all, refuses_all_is_meaning, refuses_all_means_one, unexpected_info};

use combine_base::error::{ErrorOffset, Info, ParseError, ParseResult, Tracked};
use combine_base::parser::{Outputs, ParseMode, Parser};
use combine_base::stream::{Kind, Positioned, Stream, StreamOnce};
use std::alloc::AllocError;
use std::marker::PhantomData;

/// The parser of [`unexpected`](crate::unexpected::unexpected) and of [`unexpected_any`](crate::unexpected::unexpected_any), whose value would be a `V`.
///
/// `I` is an `Info`, in the crate what is turned into one.
#[derive(Drop)]
pub struct Unexpected<Input, V, I> {
    pub(super) info: I,
    pub(super) reads: PhantomData<Input>,
    pub(super) value: PhantomData<V>,
}

impl<Input, V, A: Copy, R: Copy> Clone for Unexpected<Input, V, Info<A, R>> {
    ghost is_clone = { λ p q. shown (unexpected_info q) ≡ shown (unexpected_info p) };

    ghost is_infallible = { λ p. NoText (unexpected_info p) };

    fn clone(&self) -> Result<Self, AllocError> {
        Ok(Unexpected {
            info: self.info.copied()?,
            reads: PhantomData,
            value: PhantomData,
        })
    }
}

impl<Input, V: Drop, I> Outputs<Input> for Unexpected<Input, V, I> {
    type Output = V;
}

impl<Input: Stream, V: Drop> Parser<Input>
    for Unexpected<Input, V, Info<Input::Token, Input::Range>> {
    type PartialState = ();

    ghost meaning = { λ p. refuses_all Input.Error.observers (Only (SaysUnexpected (shown (unexpected_info p)))) };

    #[inline(always)]
    fn parse_mode<M: ParseMode>(
        &mut self,
        mode: M,
        input: &mut Input,
        state: &mut (),
    ) -> ParseResult<V, Input::Error> {
        ParseResult::PeekErr(Tracked::from(input.new_error(Kind::Refused, input.position())))
    }

    /// Adds that the item was not expected.
    #[inline]
    fn add_error(&mut self, error: &mut Tracked<Input::Error>) {
        error.error.add_unexpected(&self.info);
    }

    #[inline]
    fn parser_count(&self) -> ErrorOffset {
        ErrorOffset(1)
    }

    ghost default_valid = { λ s d. tt };

    ghost laws = { λ p l. refuses_all_is_meaning _ _ _ _ };

    ghost single = { λ p l d. refuses_all_means_one _ _ _ };
}
