//! What an expression's parser is made of.
ghost use Rattle.std.specs.Prelude.{◌≡◌, MatchResult};
ghost use Rattle.combine_nested.specs.ExpressionParts.{BeginsPart, MakesOutermost, closed_as, part_joins, part_takes, stayed_as};

use super::operands::{Fault, Operands};
use super::{Fixity, Item, Operator};
use crate::nested::asked::IfElse;
use crate::nested::types::Nested;
use crate::nested::{Frame, Next};
use combine_base::function::{Maker, RefFunction};
use std::alloc::{AllocError, Global};
use std::marker::PhantomData;

/// The parser of [`expression`](crate::expression::expression).
pub type Expression<O, V, A, B, C, const N: usize> = Nested<Outermost<O, V, N>, Steps<A, B, C>>;

/// The steps of an expression: what stands where an operand is awaited, and after one, in brackets and outside of them.
pub type Steps<A, B, C> = IfElse<Awaits, A, IfElse<InBrackets, B, C>>;

/// An expression that isn't over, or the part of one that is in brackets.
#[derive(Drop)]
pub struct Part<O, V, const N: usize> {
    alloc: Global,
    in_brackets: bool,
    operands: Operands<O, V, N>,
}

impl<O: Drop, V: Drop, const N: usize> Part<O, V, N> {
    fn new(alloc: Global, levels: [Fixity; N], in_brackets: bool) -> Part<O, V, N>
        ensures { BeginsPart levels.entry in_brackets result }
    {
        Part {
            alloc,
            in_brackets,
            operands: Operands::new(alloc, levels),
        }
    }

    /// Returns what comes of a part that became that.
    fn stay(
        alloc: Global,
        in_brackets: bool,
        became: Result<Operands<O, V, N>, Fault>,
    ) -> Result<Next<Part<O, V, N>, V>, AllocError>
        ensures { MatchResult result (stayed_as in_brackets became) (λ _. Unit {0}) }
    {
        match became {
            Ok(operands) => Ok(Next::Stay(Part {
                alloc,
                in_brackets,
                operands,
            })),
            Err(Fault::Misfit(message)) => Ok(Next::Refuse(message)),
            Err(Fault::Refused(message)) => Ok(Next::Refuse(message)),
            Err(Fault::Memory) => Err(AllocError),
        }
    }

    /// Returns what comes of a part that was closed so.
    fn close(became: Result<V, Fault>) -> Result<Next<Part<O, V, N>, V>, AllocError>
        ensures { MatchResult result (closed_as became) (λ _. Unit {0}) }
    {
        match became {
            Ok(value) => Ok(Next::Close(value)),
            Err(Fault::Misfit(message)) => Ok(Next::Refuse(message)),
            Err(Fault::Refused(message)) => Ok(Next::Refuse(message)),
            Err(Fault::Memory) => Err(AllocError),
        }
    }
}

impl<V: Drop, O: Operator<Value = V>, const N: usize> Frame for Part<O, V, N> {
    ghost use Rattle.combine_nested.specs.ExpressionParts.{ItemsAlike, PartsAlike};

    type Item = Item<O, V>;

    type Value = V;

    ghost takes = { part_takes O.changes O.joins O.refuses_operand O.refuses_operands };

    ghost joins = { part_joins O.changes O.joins O.refuses_operand O.refuses_operands };

    ghost alike = { PartsAlike };

    ghost alike_items = { ItemsAlike };

    ghost alike_values = { λ _ _. Unit {0} };

    fn take(self, item: Item<O, V>) -> Result<Next<Self, V>, AllocError> {
        let Part {
            alloc,
            in_brackets,
            operands,
        } = self;
        match item {
            Item::Operand(value) => Part::stay(alloc, in_brackets, operands.operand(value)),
            Item::Prefix(level, operator) => {
                Part::stay(alloc, in_brackets, operands.prefix(level, operator))
            }
            Item::Postfix(level, operator) => {
                Part::stay(alloc, in_brackets, operands.postfix(level, operator))
            }
            Item::Infix(level, operator) => {
                Part::stay(alloc, in_brackets, operands.infix(level, operator))
            }
            Item::Open => {
                let inside = Part::new(alloc, operands.levels, true);
                let around = Part {
                    alloc,
                    in_brackets,
                    operands,
                };
                Ok(Next::Open(around, inside))
            }
            Item::Close => Part::close(operands.close()),
        }
    }

    fn join(self, value: V) -> Result<Next<Self, V>, AllocError> {
        let Part {
            alloc,
            in_brackets,
            operands,
        } = self;
        Part::stay(alloc, in_brackets, operands.operand(value))
    }
}

/// What makes the outermost part of an expression.
#[derive(Drop)]
#[derive_where(Clone, Copy)]
pub struct Outermost<O, V, const N: usize> {
    alloc: Global,
    levels: [Fixity; N],
    of: PhantomData<(O, V)>,
}

impl<O, V, const N: usize> Outermost<O, V, N> {
    #[inline]
    pub(super) fn new(alloc: Global, levels: [Fixity; N]) -> Outermost<O, V, N>
        ensures { MakesOutermost alloc levels.entry result }
    {
        Outermost {
            alloc,
            levels,
            of: PhantomData,
        }
    }
}

impl<O: Drop, V: Drop, const N: usize> Maker for Outermost<O, V, N> {
    ghost use Rattle.std.specs.Prelude.{false};

    type Output = Part<O, V, N>;

    ghost returns = { λ r p. BeginsPart r.levels false p };

    #[inline]
    fn make(&self) -> Part<O, V, N> {
        Part::new(self.alloc, self.levels, false)
    }
}

/// Tests whether an operand is awaited.
#[derive(Clone, Copy, Drop)]
pub struct Awaits;

impl<O, V, const N: usize> RefFunction<Part<O, V, N>> for Awaits {
    ghost use Rattle.combine_nested.specs.ExpressionParts.{awaits};

    type Output = bool;

    ghost returns = { λ _ p b. b ≡ awaits p };

    #[inline]
    fn call_ref(&self, part: &Part<O, V, N>) -> bool {
        part.operands.held.is_none()
    }
}

/// Tests whether a part is in brackets.
#[derive(Clone, Copy, Drop)]
pub struct InBrackets;

impl<O, V, const N: usize> RefFunction<Part<O, V, N>> for InBrackets {
    type Output = bool;

    ghost returns = { λ _ p b. b ≡ p.in_brackets };

    #[inline]
    fn call_ref(&self, part: &Part<O, V, N>) -> bool {
        part.in_brackets
    }
}
