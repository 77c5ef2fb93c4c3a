//! Functions that are asked for a parser, by what they take.
ghost use Rattle.std.specs.Prelude.{◌≡◌};

use combine_base::function::{Function, MutFunction, RefFunction};

/// A function that returns a parser for a value, by what it takes of the value. Our own.
pub trait NextParser<A> {
    ghost use Rattle.std.specs.Prelude.{◌≡◌};

    /// The parser that it returns.
    type Parser;

    /// What is kept of the value.
    type Kept;

    /// The values that it may be asked for.
    ghost callable: { Self → A → Type 0 };

    /// Which parsers it may return for a value.
    ghost answers: { Self → A → Self.Parser → Type 0 };

    ghost keeps: { A → Self.Kept };

    /// Returns what is kept of the value, and the parser.
    fn ask(&self, value: A) -> (Self::Kept, Self::Parser)
        requires { callable self.now value }
        ensures kept { result.0 ≡ keeps value }
        ensures answers { answers self.now value result.1 };
}

/// A function that takes the value, of which nothing is kept.
#[derive(Clone, Copy, Drop)]
pub struct ByValue<F>(pub(crate) F);

impl<A, F: Function<A>> NextParser<A> for ByValue<F> {
    ghost use Rattle.combine_sequence.specs.Then.{forget};

    type Parser = F::Output;

    type Kept = ();

    ghost callable = { λ f. F.callable f.0 };

    ghost answers = { λ f. F.returns f.0 };

    ghost keeps = { forget };

    #[inline(always)]
    /// Returns that nothing is kept of the value, and the parser.
    fn ask(&self, value: A) -> ((), F::Output) {
        ((), self.0.call(value))
    }
}

/// A function that takes a mutable reference to the value, of which nothing is kept.
#[derive(Clone, Copy, Drop)]
pub struct ByMut<F>(pub(crate) F);

impl<A: Drop, F: MutFunction<(), A>> NextParser<A> for ByMut<F> {
    ghost use Rattle.combine_sequence.specs.Then.{forget};

    type Parser = F::Output;

    type Kept = ();

    ghost callable = { λ f. F.callable f.0 tt };

    ghost answers = { λ f a n. (left : A) × F.returns f.0 tt a n left };

    ghost keeps = { forget };

    #[inline(always)]
    /// Returns that nothing is kept of the value, and the parser.
    fn ask(&self, value: A) -> ((), F::Output) {
        let mut value = value;
        ((), self.0.call_mut((), &mut value))
    }
}

/// A function that takes a reference to the value, which is kept.
#[derive(Clone, Copy, Drop)]
pub struct ByRef<F>(pub(crate) F);

impl<A, F: RefFunction<A>> NextParser<A> for ByRef<F> {
    ghost use Rattle.combine_sequence.specs.Then.{keep_first};

    type Parser = F::Output;

    type Kept = (A,);

    ghost callable = { λ f. F.callable f.0 };

    ghost answers = { λ f. F.returns f.0 };

    ghost keeps = { keep_first };

    #[inline(always)]
    /// Returns the value, which is kept, and the parser.
    fn ask(&self, value: A) -> ((A,), F::Output) {
        let parser = self.0.call_ref(&value);
        ((value,), parser)
    }
}

/// What is kept of a first value, which the second is put to. Our own.
pub trait Join<B> {
    ghost use Rattle.std.specs.Prelude.{◌≡◌};

    /// The value of both.
    type Joined;

    ghost joined: { Self → B → Self.Joined };

    /// Makes the value of both, of what was kept and the second.
    fn join(self, last: B) -> Self::Joined
        ensures { result ≡ joined self last };
}

impl<B> Join<B> for () {
    ghost use Rattle.combine_sequence.specs.Then.{only_last};

    type Joined = B;

    ghost joined = { only_last };

    #[inline(always)]
    fn join(self, last: B) -> B {
        last
    }
}

impl<A, B> Join<B> for (A,) {
    ghost use Rattle.combine_base.specs.Sequence.Tuples.{push_1};

    type Joined = (A, B);

    ghost joined = { push_1 };

    #[inline(always)]
    fn join(self, last: B) -> (A, B) {
        let (first,) = self;
        (first, last)
    }
}
