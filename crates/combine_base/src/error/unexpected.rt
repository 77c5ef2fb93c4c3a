//! Errors that are a kind alone.
ghost use Rattle.std.specs.Prelude.{◌≡◌, [], false};
ghost use Rattle.combine_base.specs.Error.NoItems.{no_items, no_items_apart};
ghost use Rattle.combine_base.specs.Error.Items.{Unexpected, Expected, Message, shown, end_of_input};
ghost use Rattle.combine_base.specs.Error.Errors.{if_kept};

use crate::error::{DetailedError, Info, ParseError, Role, StreamError};
use crate::stream::Kind;
use std::alloc::AllocError;

/// An error that is a kind alone, and takes no memory.
#[derive(Clone, Copy, Debug, PartialEq, Eq)]
pub struct UnexpectedParse(pub Kind);

impl From<AllocError> for UnexpectedParse {
    ghost use Rattle.combine_base.specs.declared.stream.Kind.TheVariants.{Memory};

    ghost from_gives = { λ _ error. error.0 ≡ Memory };

    #[inline]
    fn from(_error: AllocError) -> UnexpectedParse {
        UnexpectedParse(Kind::Memory)
    }
}

impl<T: Copy, R: Copy> StreamError<T, R> for UnexpectedParse {
    ghost kind = { λ e. e.0 };

    ghost items = { λ _. [] };

    ghost keeps = { false };

    fn kind(&self) -> Kind {
        self.0
    }

    fn unexpected_token(token: T) -> Self {
        UnexpectedParse(Kind::Refused)
    }

    fn unexpected(info: Info<T, R>) -> Self
        ensures kind { result.0 ≡ Kind.Refused }
        ensures items { [] ≡ if_kept false (Unexpected (shown info)) }
    {
        UnexpectedParse(Kind::Refused)
    }

    fn expected(info: Info<T, R>) -> Self
        ensures kind { result.0 ≡ Kind.Refused }
        ensures items { [] ≡ if_kept false (Expected (shown info)) }
    {
        UnexpectedParse(Kind::Refused)
    }

    fn message(info: Info<T, R>) -> Self
        ensures kind { result.0 ≡ Kind.Refused }
        ensures items { [] ≡ if_kept false (Message (shown info)) }
    {
        UnexpectedParse(Kind::Refused)
    }

    fn end_of_input() -> Self
        ensures kind { result.0 ≡ Kind.End }
        ensures items { [] ≡ if_kept {T = T} {R = R} false end_of_input }
    {
        UnexpectedParse(Kind::End)
    }

    fn expected_more(missing: usize) -> Self {
        UnexpectedParse(Kind::Refused)
    }
}

impl<T, R, P: Ord> ParseError<T, R, P> for UnexpectedParse {
    ghost observers = { no_items };

    fn kind(&self) -> Kind {
        self.0
    }

    fn add_info(&mut self, role: Role, info: &Info<T, R>) {}

    fn clear_expected_after(&mut self, kept: usize) {}

    fn count_items(&self) -> usize {
        0
    }

    fn out_of_memory(&mut self) {
        self.0 = Kind::Memory;
    }

    fn merge(self, other: Self) -> Self {
        if self.0 == Kind::Refused { self } else { other }
    }

    ghost tells_apart = { no_items_apart };
}

impl<T: Copy, R: Copy, P: Ord + Copy> DetailedError<T, R, P> for UnexpectedParse {
    type StreamError = UnexpectedParse;

    fn position(&self) -> Option<P> {
        None
    }

    fn set_position(&mut self, position: P) {}

    fn add(&mut self, item: UnexpectedParse) {}
}
