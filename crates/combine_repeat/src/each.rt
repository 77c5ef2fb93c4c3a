//! The same parser in each turn, and each value appended or dropped.
ghost use Rattle.std.specs.Prelude.{◌≡◌, false, true};
ghost use Rattle.combine_repeat.specs.Turns.SoundValues.{any_sound};
ghost use Rattle.combine_repeat.specs.Turns.Turn.{from_start, gives_any, plain_is_turn, plain_once};
ghost use Rattle.combine_repeat.specs.Repeat.RepeatParsers.{each_of, plain_parser};

use crate::turns::{Collect, Gather, Gathers, TurnParser};
use combine_base::error::{ParseResult, Tracked};
use combine_base::parser::{ParseMode, Parser};
use combine_base::repeat::Append;
use combine_base::stream::Stream;
use std::alloc::{AllocError, Global};
use std::marker::PhantomData;

/// The same parser in each turn.
#[derive(Clone, Copy, Drop)]
pub struct SameParser<P>(pub P);

impl<Input: Stream, P: Parser<Input>> TurnParser<Input> for SameParser<P> {
    type Value = P::Output;

    type Running = P::PartialState;

    ghost lawful = { λ p. P.lawful (plain_parser p) };

    ghost determined = { λ p. P.determined (plain_parser p) };

    ghost valid = { P.valid };

    ghost meaning = { λ p. P.meaning (plain_parser p) };

    ghost again = { λ p. from_start (P.meaning (plain_parser p)) };

    ghost ending = { λ _. false };

    ghost gives = { λ _. Unit {0} };

    #[inline(always)]
    fn parse_turn<M: ParseMode>(
        &mut self,
        later: bool,
        mode: M,
        input: &mut Input,
        state: &mut Self::Running,
    ) -> ParseResult<Self::Value, Input::Error> {
        self.0.parse_mode(mode, input, state)
    }

    fn add_error(&mut self, error: &mut Tracked<Input::Error>) {
        self.0.add_error(error);
    }

    #[inline(always)]
    fn is_last(value: &Self::Value) -> bool {
        false
    }

    ghost default_valid = { P.default_valid };

    ghost laws = { λ p l. plain_is_turn (P.laws (plain_parser p) l) };

    ghost single = { λ p l d. plain_once (P.single (plain_parser p) l d) };

    ghost gives_only = { λ p l. gives_any };
}

/// Each value is appended to an `F`, for which an allocator is kept.
#[derive(Drop)]
#[derive_where(Clone, Copy)]
pub struct Each<F> {
    alloc: Global,
    collects: PhantomData<F>,
}

impl<F> Each<F> {
    /// Returns how values are appended to what that allocator finds memory for.
    #[inline(always)]
    pub fn new(alloc: Global) -> Each<F>
        ensures { result ≡ each_of alloc }
    {
        Each {
            alloc,
            collects: PhantomData,
        }
    }
}

impl<F: Drop> Gathers for Each<F> {
    type Into = F;
}

impl<A, F: Append<A>> Gather<A> for Each<F> {
    type Collection = F;

    ghost Held = { F.Held };

    ghost held = { F.held };

    ghost none = { F.none };

    ghost more = { λ h a i. i ≡ F.more h a };

    ghost sound = { λ _ _. Unit {0} };

    ghost heapless = { F.heapless };

    #[inline(always)]
    fn gather(into: F, value: A) -> Result<F, AllocError> {
        let mut into = into;
        into.append(value)?;
        Ok(into)
    }

    ghost keeps_sound = { any_sound };
}

impl<A, F: Append<A>> Collect<A> for Each<F> {
    ghost keeps = { true };

    #[inline(always)]
    fn empty(&self, room: usize) -> Result<F, AllocError> {
        if 0 < room {
            return F::with_capacity(self.alloc, room);
        }
        Ok(F::empty(self.alloc))
    }

    #[inline(always)]
    fn keeps(&self) -> bool {
        true
    }

    ghost takes_any = { λ a. tt };

    ghost holds_any = { λ k h. tt };
}

/// No value is kept.
#[derive(Clone, Copy, Drop)]
pub struct Dropped;

impl Gathers for Dropped {
    type Into = ();
}

impl<A: Drop> Gather<A> for Dropped {
    type Collection = ();

    ghost Held = { Unit {0} };

    ghost held = { λ _. tt };

    ghost none = { tt };

    ghost more = { λ _ _ i. i ≡ tt };

    ghost sound = { λ _ _. Unit {0} };

    ghost heapless = { Unit {0} };

    #[inline(always)]
    fn gather(into: (), value: A) -> Result<(), AllocError> {
        Ok(())
    }

    ghost keeps_sound = { any_sound };
}

impl<A: Drop> Collect<A> for Dropped {
    ghost keeps = { false };

    #[inline(always)]
    fn empty(&self, room: usize) -> Result<(), AllocError> {
        Ok(())
    }

    #[inline(always)]
    fn keeps(&self) -> bool {
        false
    }

    ghost takes_any = { λ a. tt };

    ghost holds_any = { λ k h. tt };
}
