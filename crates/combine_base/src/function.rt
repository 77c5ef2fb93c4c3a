//! Functions that parsers call.

/// A function of one value that parsers call: a closure, a function, or a type of one's own. Our own.
///
/// A type of one's own, of no size perhaps, gives a name to a parser's type. It writes `Output` and `call`; it can then be called on every value, and nothing is known of what it returns. By `callable` and `returns` it says more.
///
/// As a test of a stream's tokens it stands where the crate takes an `FnMut`.
///
/// The prover shows each impl in a declaration of its own, but one with a bound on `Fn`, which it writes out in that of the impl round it. By this trait parsers that are mapped within each other stay apart.
///
/// # Examples
///
/// ```
/// #[derive(Clone, Copy, Drop)]
/// pub struct IsName;
///
/// impl Function<u8> for IsName {
///     type Output = bool;
///
///     fn call(&self, byte: u8) -> bool {
///         byte.is_ascii_alphanumeric()
///     }
/// }
///
/// pub type Name<I> = Many1<Vec<u8>, Satisfy<I, IsName>>;
///
/// pub fn name<I>(alloc: Global) -> Name<I> {
///     many1(alloc, satisfy(IsName))
/// }
/// ```
pub trait Function<A> {
    /// What it returns.
    type Output;

    /// The values that it may be called on.
    ghost callable: { Self → A → Type 0 } = { λ f a. Unit {0} };

    /// What it may return.
    ghost returns: { Self → A → Self.Output → Type 0 } = { λ f a b. Unit {0} };

    /// Returns what it makes of the value.
    fn call(&self, value: A) -> Self::Output
        requires { callable self.now value }
        ensures { returns self.now value result };
}

impl<A, B, F: Fn(A) -> B> Function<A> for F {
    type Output = B;

    ghost callable = { λ f. F.pre f };

    ghost returns = { λ f. F.post f };

    #[inline(always)]
    fn call(&self, value: A) -> B {
        self(value)
    }
}

/// A function without arguments that parsers call, as [`Function`]. Our own.
pub trait Maker {
    /// What it returns.
    type Output;

    /// It may be called.
    ghost callable: { Self → Type 0 } = { λ f. Unit {0} };

    /// What it may return.
    ghost returns: { Self → Self.Output → Type 0 } = { λ f b. Unit {0} };

    /// Returns what it makes.
    fn make(&self) -> Self::Output
        requires { callable self.now }
        ensures { returns self.now result };
}

impl<B, F: Fn() -> B> Maker for F {
    type Output = B;

    ghost callable = { λ f. F.IsAlwaysCallable f };

    ghost returns = { λ f. F.post f };

    #[inline(always)]
    fn make(&self) -> B {
        self()
    }
}

/// A function of a reference that parsers call, as [`Function`]. Our own.
pub trait RefFunction<A> {
    /// What it returns.
    type Output;

    /// The values that it may be called on.
    ghost callable: { Self → A → Type 0 } = { λ f a. Unit {0} };

    /// What it may return.
    ghost returns: { Self → A → Self.Output → Type 0 } = { λ f a b. Unit {0} };

    /// Returns what it makes of the value.
    fn call_ref(&self, value: &A) -> Self::Output
        requires { callable self.now value.now }
        ensures { returns self.now value.now result };
}

impl<A, B, F: Fn(&A) -> B> RefFunction<A> for F {
    ghost use Rattle.std.specs.Fn.{FnReturnsAt};
    ghost use Rattle.combine_base.specs.Functions.{TakesAt};

    type Output = B;

    ghost callable = { TakesAt F.Fn };

    ghost returns = { FnReturnsAt F.Fn };

    #[inline(always)]
    fn call_ref(&self, value: &A) -> B {
        self(value)
    }
}

/// A function that parsers call whose last argument is a mutable reference, as [`Function`]. Our own.
///
/// `A` is `()` where there is no other argument, `(X,)` where one of type `X` stands before it, and [`Lent<X>`](Lent) where a reference to one does.
pub trait MutFunction<A, S> {
    /// What it returns.
    type Output;

    /// The values that it may be called on.
    ghost callable: { Self → A → S → Type 0 } = { λ f a s. Unit {0} };

    /// What it may return, and what it may leave of the last argument.
    ghost returns: { Self → A → S → Self.Output → S → Type 0 } = { λ f a s b left. Unit {0} };

    /// Returns what it makes of the values.
    fn call_mut(&self, first: A, last: &mut S) -> Self::Output
        requires { callable self.now first last.old }
        ensures { returns self.now first last.old result last.new };
}

/// A value that a function is given a reference to. Our own.
#[derive(Drop)]
pub struct Lent<T>(pub T);

impl<S, B, F: Fn(&mut S) -> B> MutFunction<(), S> for F {
    ghost use Rattle.combine_base.specs.Functions.{ReturnsAtMut, TakesAtMut};

    type Output = B;

    ghost callable = { λ f _. TakesAtMut F.Fn f };

    ghost returns = { λ f _. ReturnsAtMut F.Fn f };

    #[inline(always)]
    fn call_mut(&self, _none: (), last: &mut S) -> B {
        self(last)
    }
}

impl<A, S, B, F: Fn(A, &mut S) -> B> MutFunction<(A,), S> for F {
    ghost use Rattle.combine_base.specs.Functions.{ReturnsWithMut, TakesWithMut};

    type Output = B;

    ghost callable = { λ f a. TakesWithMut F.Fn f a.0 };

    ghost returns = { λ f a. ReturnsWithMut F.Fn f a.0 };

    #[inline(always)]
    fn call_mut(&self, first: (A,), last: &mut S) -> B {
        self(first.0, last)
    }
}

impl<T: Drop, S, B, F: Fn(&T, &mut S) -> B> MutFunction<Lent<T>, S> for F {
    ghost use Rattle.combine_base.specs.Functions.{ReturnsLentMut, TakesLentMut};

    type Output = B;

    ghost callable = { λ f a. TakesLentMut F.Fn f a.0 };

    ghost returns = { λ f a. ReturnsLentMut F.Fn f a.0 };

    #[inline(always)]
    fn call_mut(&self, first: Lent<T>, last: &mut S) -> B {
        self(&first.0, last)
    }
}

/// A function of an item and a token that says whether they fit, as [`Function`]. Our own.
pub trait Compare<A, T> {
    ghost use Rattle.std.specs.Prelude.{Bool};

    /// The values that it may be called on.
    ghost callable: { Self → A → T → Type 0 } = { λ f a t. Unit {0} };

    /// What it may return.
    ghost returns: { Self → A → T → Bool → Type 0 } = { λ f a t b. Unit {0} };

    /// Returns whether the token fits the item.
    fn fits(&self, item: A, token: T) -> bool
        requires { callable self.now item token }
        ensures { returns self.now item token result };
}

impl<A, T, F: Fn(A, T) -> bool> Compare<A, T> for F {
    ghost callable = { λ f a t. F.pre f a t };

    ghost returns = { λ f a t b. F.post f a t b };

    #[inline(always)]
    fn fits(&self, item: A, token: T) -> bool {
        self(item, token)
    }
}
