//! How the operands of a chain are gathered and folded: from the left as they come, or from the right, where they are kept until the last one.
ghost use Rattle.std.specs.Prelude.{◌≡◌, List, []};
ghost use Rattle.combine_separated.specs.Chains.{all_good, folded_right, folds, gives_right, good_operands, holds_one, keeps_good, keeps_one, keeps_operand, kept_operands};
ghost use Rattle.combine_separated.specs.declared.operands.PendingOperand.{PendingOperand};
ghost use Rattle.combine_separated.specs.Separated.{lead_good};

use crate::separated::{Element, Folds};
use combine_repeat::turns::Gather;
use std::alloc::{AllocError, Global};

/// From which side the operands of a chain are folded.
pub trait Direction<O: Folds<V>, V>: Gather<Element<O, V>> {
    ghost use Rattle.std.specs.Prelude.{◌≡◌, true};
    ghost use Rattle.combine_separated.specs.Separated.{lead_good};
    ghost use Rattle.combine_separated.specs.declared.separated.Element.{Element};

    /// What the operands give.
    ghost folded: { Self.Collection → V → Type 0 };

    /// Returns what operands are gathered into, with none yet.
    fn start(&self) -> Self::Collection
        ensures { Self.held result ≡ Self.none };

    /// Folds the operands, of which there is at least one.
    fn fold(operands: Self::Collection) -> V
        requires { Self.sound true (Self.held operands) }
        ensures { folded operands result };

    /// Each operator is taken that can be called.
    ghost takes_operators: { (a : Element O V) → lead_good (λ f. O.callable f) a → Self.able a };
}

/// Operands are folded from the left.
#[derive(Clone, Copy, Drop)]
pub struct FromLeft;

impl<V: Drop, O: Folds<V> + Drop> Gather<Element<O, V>> for FromLeft {
    ghost use Rattle.std.specs.Prelude.{None, Option};

    type Collection = Option<V>;

    ghost Held = { Option V };

    ghost held = { λ v. v };

    ghost none = { None };

    ghost more = { folds (λ f x y r. O.answers f x y r) };

    ghost able = { lead_good (λ f. O.callable f) };

    ghost sound = { holds_one };

    ghost heapless = { Unit {0} };

    #[inline(always)]
    fn gather(into: Option<V>, value: Element<O, V>) -> Result<Option<V>, AllocError> {
        match value {
            Element::First(right) => Ok(Some(right)),
            Element::Then(operator, right) => match into {
                Some(left) => Ok(Some(operator.fold_two(left, right))),
                None => Ok(Some(right)),
            },
        }
    }

    ghost keeps_sound = { keeps_one (λ f x y r. O.answers f x y r) (λ f. O.callable f) };
}

impl<V: Drop, O: Folds<V> + Drop> Direction<O, V> for FromLeft {
    ghost use Rattle.std.specs.Prelude.{Some};

    ghost folded = { λ h v. h ≡ Some v };

    #[inline(always)]
    fn start(&self) -> Option<V> {
        None
    }

    #[inline(always)]
    fn fold(operands: Option<V>) -> V {
        match operands {
            Some(only) => only,
            None => unreachable!(),
        }
    }

    ghost takes_operators = { λ a g. g };
}

/// Operands are kept, in memory of that allocator, and folded from the right.
#[derive(Clone, Copy, Drop)]
pub struct FromRight(pub(crate) Global);

/// An operand, and the operator after it.
#[derive(Drop)]
pub struct PendingOperand<O, V> {
    operand: V,
    operator: O,
}

/// The operands that have an operator after them, in order, and the last operand.
#[derive(Drop)]
pub struct ChainOperands<O, V> {
    before: Vec<PendingOperand<O, V>>,
    last: Option<V>,
}

/// Folds operands from the right, of which the last has no operator after it.
fn fold_right<O: Folds<V> + Drop, V: Drop>(before: Vec<PendingOperand<O, V>>, last: V) -> V
    requires { all_good (λ f. O.callable f) before.items }
    ensures { folded_right (λ f x y r. O.answers f x y r) before.items last result }
{
    let mut before = before;
    let mut last = last;
    'folding: while let Some(left) = before.pop() {
        let PendingOperand { operand, operator } = left;
        last = operator.fold_two(operand, last);
    }
    last
}

impl<V: Drop, O: Folds<V> + Drop> Gather<Element<O, V>> for FromRight {
    ghost use Rattle.std.specs.Prelude.{None, Option};

    type Collection = ChainOperands<O, V>;

    ghost Held = { Option (List (PendingOperand O V) × V) };

    ghost held = { kept_operands };

    ghost none = { None };

    ghost more = { keeps_operand };

    ghost able = { lead_good (λ f. O.callable f) };

    ghost sound = { good_operands (λ f. O.callable f) };

    ghost heapless = { ⊥ };

    #[inline(always)]
    fn gather(
        into: ChainOperands<O, V>,
        value: Element<O, V>,
    ) -> Result<ChainOperands<O, V>, AllocError> {
        let ChainOperands { mut before, last } = into;
        let next = match value {
            Element::First(next) => {
                before.clear();
                next
            }
            Element::Then(operator, next) => {
                match last {
                    Some(operand) => before.push(PendingOperand { operand, operator })?,
                    None => before.clear(),
                }
                next
            }
        };
        Ok(ChainOperands {
            before,
            last: Some(next),
        })
    }

    ghost keeps_sound = { keeps_good (λ f. O.callable f) };
}

impl<V: Drop, O: Folds<V> + Drop> Direction<O, V> for FromRight {
    ghost folded = { λ z. gives_right (λ f x y r. O.answers f x y r) (kept_operands z) };

    #[inline(always)]
    fn start(&self) -> ChainOperands<O, V> {
        ChainOperands {
            before: Vec::new(self.0),
            last: None,
        }
    }

    #[inline(always)]
    fn fold(operands: ChainOperands<O, V>) -> V {
        let ChainOperands { before, last } = operands;
        match last {
            Some(last) => fold_right(before, last),
            None => unreachable!(),
        }
    }

    ghost takes_operators = { λ a g. g };
}
