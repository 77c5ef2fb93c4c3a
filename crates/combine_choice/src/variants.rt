//! Parsers that are one of several, each of which means the one that it holds.

pub mod either;

pub use either::Either;

/// The type of a `dispatch!` with three arms.
pub type Dispatch3<A, B, C> = Either<A, Either<B, C>>;

/// The type of a `dispatch!` with four arms.
pub type Dispatch4<A, B, C, D> = Either<A, Dispatch3<B, C, D>>;

/// The type of a `dispatch!` with five arms.
pub type Dispatch5<A, B, C, D, E> = Either<A, Dispatch4<B, C, D, E>>;

/// The type of a `dispatch!` with six arms.
pub type Dispatch6<A, B, C, D, E, F> = Either<A, Dispatch5<B, C, D, E, F>>;

/// The type of a `dispatch!` with seven arms.
pub type Dispatch7<A, B, C, D, E, F, G> = Either<A, Dispatch6<B, C, D, E, F, G>>;

/// The type of a `dispatch!` with eight arms.
pub type Dispatch8<A, B, C, D, E, F, G, H> = Either<A, Dispatch7<B, C, D, E, F, G, H>>;
