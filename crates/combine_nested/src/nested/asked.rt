//! What returns the parser of the next step.
ghost use Rattle.std.specs.Prelude.{◌≡◌};

use combine_base::function::{Maker, RefFunction};
use combine_choice::variants::Either;

/// The same parser at each step.
#[derive(Clone, Copy, Drop)]
pub struct Always<P>(pub(super) P);

impl<F, P: Copy> RefFunction<F> for Always<P> {
    type Output = P;

    ghost returns = { λ s f n. n ≡ s.0 };

    #[inline(always)]
    fn call_ref(&self, _frame: &F) -> P {
        self.0
    }
}

/// The parser that a function makes at each step.
#[derive(Clone, Copy, Drop)]
pub struct AlwaysWith<M>(pub(super) M);

impl<F, M: Maker> RefFunction<F> for AlwaysWith<M> {
    type Output = M::Output;

    ghost callable = { λ s f. M.callable s.0 };

    ghost returns = { λ s f n. M.returns s.0 n };

    #[inline(always)]
    fn call_ref(&self, _frame: &F) -> M::Output {
        self.0.make()
    }
}

/// One of two, by a test of the frame.
#[derive(Clone, Copy, Drop)]
pub struct IfElse<C, A, B>(pub(super) C, pub(super) A, pub(super) B);

impl<F, C: RefFunction<F, Output = bool>, A: RefFunction<F>, B: RefFunction<F>> RefFunction<F>
    for IfElse<C, A, B> {
    ghost use Rattle.combine_nested.specs.Asks.{asked_either};

    type Output = Either<A::Output, B::Output>;

    ghost callable = { λ s f. C.callable s.0 f × A.callable s.1 f × B.callable s.2 f };

    ghost returns = { λ s. asked_either (C.returns s.0) (A.returns s.1) (B.returns s.2) };

    #[inline(always)]
    fn call_ref(&self, frame: &F) -> Either<A::Output, B::Output> {
        if self.0.call_ref(frame) {
            Either::Left(self.1.call_ref(frame))
        } else {
            Either::Right(self.2.call_ref(frame))
        }
    }
}
