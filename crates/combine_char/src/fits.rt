//! How the items of a list are compared with tokens. Our own: the crate passes a closure.
ghost use Rattle.std.specs.Prelude.{◌≡◌};
ghost use Rattle.combine_char.specs.SpelledLists.{ComparesOnceBy};

use combine_base::function::Compare;

/// A comparison of items with tokens by which lists are matched.
pub trait Fits<A, T>: Compare<A, T> {
    ghost use Rattle.std.specs.Prelude.{true, false};

    /// What it owes so that a token isn't found both to fit and not to.
    ghost determined: { Self → Type 0 };

    ghost single: { (f : Self) → determined f → (a : A) (t : T) → Self.returns f a t true → Self.returns f a t false → ⊥ };
}

/// A token fits an item that it equals.
#[derive(Drop)]
pub struct Equal;

impl<T: PartialEq + Copy> Compare<T, T> for Equal {
    ghost returns = { λ f item token b. b ≡ T.eq token item };

    fn fits(&self, item: T, token: T) -> bool {
        token == item
    }
}

impl<T: PartialEq + Copy> Fits<T, T> for Equal {
    ghost determined = { λ f. Unit {0} };

    ghost single = { λ f d a t p q. cc };
}

/// A token fits an item if the function says so, which is given the item and the token.
#[derive(Drop)]
pub struct By<C>(pub(crate) C);

impl<A, T, C: Compare<A, T>> Compare<A, T> for By<C> {
    ghost callable = { λ f. C.callable f.0 };

    ghost returns = { λ f. C.returns f.0 };

    fn fits(&self, item: A, token: T) -> bool {
        self.0.fits(item, token)
    }
}

impl<A, T, C: Compare<A, T>> Fits<A, T> for By<C> {
    ghost determined = { λ f. ComparesOnceBy (C.returns f.0) };

    ghost single = { λ f d a t p q. d.once a t p q };
}
