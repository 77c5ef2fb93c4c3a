//! An expression that isn't over: the operators that wait for operands, and the operand that they wait for.
ghost use Rattle.std.specs.Prelude.{◌≡◌, ◌<◌, [], ◌∷◌, ◌++◌, MatchResult, None, length, reverse, slice_get, vec_items};
ghost use Rattle.combine_nested.specs.Levels.{IsExpression, Infix, Operand, Postfix, Prefix};
ghost use Rattle.combine_nested.specs.Shapes.{fits_behind, fits_in_front, sides_of};
ghost use Rattle.combine_nested.specs.OpenExpressions.{AddsThing, Completes, EndsEarly, HoldsOperand, Misfits, Reduced, ReducedAbove, WaitingRefuses, asked_level, blames, fault_of, makes_of, operator_refuses, refuses_at_end, refuses_before, unless_memory};

use super::{Fixity, Operator, OperatorError};
use std::alloc::{AllocError, Global};

/// The message of an operator that doesn't fit where it stands.
const OPERATOR: &str = "operator cannot stand here";

/// The message of an operand after an operand.
const OPERAND: &str = "operand cannot stand here";

/// The message of an end where an operand is awaited.
const AWAITED: &str = "operand expected";

/// An operator that waits for the operand on its right.
#[derive(Drop)]
pub struct Pending<O, V> {
    pub(super) operator: O,
    pub(super) level: usize,
    /// The lowest level that the operand on its right may have.
    pub(super) asks: usize,
    /// The operand on its left, of an infix operator.
    pub(super) left: Option<V>,
}

/// An operand that is complete so far.
#[derive(Drop)]
pub struct Held<V> {
    pub(super) value: V,
    /// The level of its outermost operator; that after the last one where it has none.
    pub(super) level: usize,
}

/// The lowest levels that the operands of an infix operator may have.
#[derive(Clone, Copy, Drop)]
pub(super) struct Lowest {
    left: usize,
    right: usize,
}

/// Why an expression doesn't go on.
#[derive(Drop)]
pub(super) enum Fault {
    /// No memory is left.
    Memory,
    /// What follows doesn't fit, which this message says.
    Misfit(&'static str),
    /// An operator refuses, with this message.
    Refused(&'static str),
}

/// An expression that isn't over.
#[derive(Drop)]
pub struct Operands<O, V, const N: usize> {
    pub(super) levels: [Fixity; N],
    /// What waits, the innermost last.
    pub(super) pending: Vec<Pending<O, V>>,
    /// The operand on the right of the innermost, where it was read.
    pub(super) held: Option<Held<V>>,
}

/// Returns how many levels there are: the level of an operand in which no operator stands outermost.
fn number_of(levels: &[Fixity]) -> usize
    ensures { result ≡ length levels.now }
{
    levels.len()
}

/// Returns the fixity of a level, if there is one.
fn fixity_at(levels: &[Fixity], level: usize) -> Option<Fixity>
    ensures { result ≡ slice_get levels.now level }
{
    levels.get(level).copied()
}

/// Returns whether an operator of a level is a prefix operator that fits where such a level is asked for.
fn is_prefix(levels: &[Fixity], asked: usize, level: usize) -> bool
    ensures { result ≡ fits_in_front (slice_get levels.now level) asked level }
{
    let Some(fixity) = fixity_at(levels, level) else {
        return false;
    };
    match fixity {
        Fixity::Prefix => asked <= level,
        Fixity::Postfix | Fixity::Left | Fixity::Right | Fixity::Neither => false,
    }
}

/// Returns whether an operator of a level is a postfix operator that fits after an operand of such a level.
fn is_postfix(levels: &[Fixity], held: usize, level: usize) -> bool
    ensures { result ≡ fits_behind (slice_get levels.now level) held level }
{
    let Some(fixity) = fixity_at(levels, level) else {
        return false;
    };
    match fixity {
        Fixity::Postfix => level <= held,
        Fixity::Prefix | Fixity::Left | Fixity::Right | Fixity::Neither => false,
    }
}

/// Returns the lowest levels of an infix operator's operands, where the operators of the level are infix.
fn sides(levels: &[Fixity], level: usize) -> Option<Lowest>
    ensures { result ≡ sides_of level (slice_get levels.now level) }
{
    match fixity_at(levels, level)? {
        Fixity::Left => Some(Lowest {
            left: level,
            right: level + 1,
        }),
        Fixity::Right => Some(Lowest {
            left: level + 1,
            right: level,
        }),
        Fixity::Neither => Some(Lowest {
            left: level + 1,
            right: level + 1,
        }),
        Fixity::Prefix | Fixity::Postfix => None,
    }
}

/// Returns the lowest level that the awaited operand may have.
fn asked_by<O, V>(pending: &Vec<Pending<O, V>>) -> usize
    ensures { result ≡ asked_level (reverse (vec_items pending.now)) }
{
    match pending.as_slice().last() {
        Some(innermost) => innermost.asks,
        None => 0,
    }
}

/// Returns those that wait, and one more.
fn wait<O: Drop, V: Drop>(
    pending: Vec<Pending<O, V>>,
    waits: Pending<O, V>,
) -> Result<Vec<Pending<O, V>>, AllocError>
    ensures { MatchResult result (λ r. vec_items r ≡ vec_items pending ++ waits ∷ []) (λ _. Unit {0}) }
{
    let mut pending = pending;
    pending.push(waits)?;
    Ok(pending)
}

/// Returns what an operator makes of its operands.
fn operate<O: Operator>(
    operator: O,
    left: Option<O::Value>,
    right: O::Value,
) -> Result<O::Value, OperatorError>
    ensures { MatchResult result (makes_of O.changes O.joins operator left right) (unless_memory (operator_refuses O.refuses_operand O.refuses_operands operator left right)) }
{
    match left {
        Some(left) => operator.join(left, right),
        None => operator.change(right),
    }
}

/// Returns why an expression doesn't go on whose operator makes no value.
fn fault_of(error: OperatorError) -> Fault
    ensures { result ≡ fault_of error }
{
    match error {
        OperatorError::Refused(message) => Fault::Refused(message),
        OperatorError::Memory => Fault::Memory,
    }
}

/// Returns an operator with its operands, as an operand.
fn reduce<O: Operator>(
    waits: Pending<O, O::Value>,
    right: O::Value,
) -> Result<Held<O::Value>, Fault>
    ensures { MatchResult result (Reduced O.changes O.joins waits right) (blames (λ _. ⊥) (operator_refuses O.refuses_operand O.refuses_operands waits.operator waits.left right)) }
{
    let Pending {
        operator,
        level,
        asks: _,
        left,
    } = waits;
    match operate(operator, left, right) {
        Ok(value) => Ok(Held { value, level }),
        Err(error) => Err(fault_of(error)),
    }
}

/// Gives the operand to the innermost of the operators that wait as long as that asks for a higher level.
fn reduce_above<O: Operator>(
    pending: &mut Vec<Pending<O, O::Value>>,
    held: Held<O::Value>,
    level: usize,
) -> Result<Held<O::Value>, Fault>
    ensures { MatchResult result (ReducedAbove O.changes O.joins (vec_items pending.old) (vec_items pending.new) held level) (blames (λ _. ⊥) (λ m. (levels : _) → WaitingRefuses O.refuses_operand O.refuses_operands O.changes O.joins levels (HoldsOperand levels O.changes O.joins (reverse (vec_items pending.old)) held) (λ a. level < a) m)) }
{
    let mut held = held;
    'innermost: while asked_by(pending) > level {
        let Some(waits) = pending.pop() else {
            return Ok(held);
        };
        held = reduce(waits, held.value)?;
    }
    Ok(held)
}

/// Gives the operand to each of the operators that wait, the innermost first.
fn reduce_all<O: Operator>(
    pending: Vec<Pending<O, O::Value>>,
    held: Held<O::Value>,
) -> Result<O::Value, Fault>
    ensures { MatchResult result (λ v. (levels : _) (ts : _) → HoldsOperand levels O.changes O.joins (reverse (vec_items pending)) held ts → IsExpression levels O.changes O.joins 0 ts v) (blames (λ _. ⊥) (λ m. (levels : _) → WaitingRefuses O.refuses_operand O.refuses_operands O.changes O.joins levels (HoldsOperand levels O.changes O.joins (reverse (vec_items pending)) held) (λ _. Unit {0}) m)) }
{
    let mut pending = pending;
    let mut held = held;
    'innermost: while let Some(waits) = pending.pop() {
        held = reduce(waits, held.value)?;
    }
    Ok(held.value)
}

impl<O, V, const N: usize> Operands<O, V, N> {
    /// Returns an expression of which nothing was read.
    pub(super) fn new(alloc: Global, levels: [Fixity; N]) -> Operands<O, V, N>
        ensures levels { result.levels ≡ levels.entry }
        ensures pending { vec_items result.pending ≡ [] }
        ensures held { result.held ≡ None }
    {
        Operands {
            levels,
            pending: Vec::new(alloc),
            held: None,
        }
    }
}

impl<O: Operator, const N: usize> Operands<O, O::Value, N> {
    /// Reads the operand that is awaited.
    pub(super) fn operand(self, value: O::Value) -> Result<Self, Fault>
        ensures { MatchResult result (λ r. AddsThing O.changes O.joins self r (Operand value)) (blames (Misfits O.changes O.joins self (Operand value)) (refuses_before O.refuses_operand O.refuses_operands O.changes O.joins self (Operand value))) }
    {
        let Operands {
            levels,
            pending,
            held,
        } = self;
        if held.is_some() {
            return Err(Fault::Misfit(OPERAND));
        }
        let level = number_of(&levels);
        Ok(Operands {
            levels,
            pending,
            held: Some(Held { value, level }),
        })
    }

    /// Reads a prefix operator in front of the operand that is awaited.
    pub(super) fn prefix(self, level: usize, operator: O) -> Result<Self, Fault>
        ensures { MatchResult result (λ r. AddsThing O.changes O.joins self r (Prefix level operator)) (blames (Misfits O.changes O.joins self (Prefix level operator)) (refuses_before O.refuses_operand O.refuses_operands O.changes O.joins self (Prefix level operator))) }
    {
        let Operands {
            levels,
            pending,
            held,
        } = self;
        if held.is_some() {
            return Err(Fault::Misfit(OPERATOR));
        }
        if !is_prefix(&levels, asked_by(&pending), level) {
            return Err(Fault::Misfit(OPERATOR));
        }
        let waits = Pending {
            operator,
            level,
            asks: level,
            left: None,
        };
        let Ok(more) = wait(pending, waits) else {
            return Err(Fault::Memory);
        };
        Ok(Operands {
            levels,
            pending: more,
            held: None,
        })
    }

    /// Reads an infix operator after an operand.
    pub(super) fn infix(self, level: usize, operator: O) -> Result<Self, Fault>
        ensures { MatchResult result (λ r. AddsThing O.changes O.joins self r (Infix level operator)) (blames (Misfits O.changes O.joins self (Infix level operator)) (refuses_before O.refuses_operand O.refuses_operands O.changes O.joins self (Infix level operator))) }
    {
        let Operands {
            levels,
            mut pending,
            held: kept,
        } = self;
        let Some(held) = kept else {
            return Err(Fault::Misfit(OPERATOR));
        };
        let Some(lowest) = sides(&levels, level) else {
            return Err(Fault::Misfit(OPERATOR));
        };
        let left = reduce_above(&mut pending, held, level)?;
        if left.level < lowest.left {
            return Err(Fault::Misfit(OPERATOR));
        }
        let waits = Pending {
            operator,
            level,
            asks: lowest.right,
            left: Some(left.value),
        };
        let Ok(more) = wait(pending, waits) else {
            return Err(Fault::Memory);
        };
        Ok(Operands {
            levels,
            pending: more,
            held: None,
        })
    }

    /// Reads a postfix operator after an operand.
    pub(super) fn postfix(self, level: usize, operator: O) -> Result<Self, Fault>
        ensures { MatchResult result (λ r. AddsThing O.changes O.joins self r (Postfix level operator)) (blames (Misfits O.changes O.joins self (Postfix level operator)) (refuses_before O.refuses_operand O.refuses_operands O.changes O.joins self (Postfix level operator))) }
    {
        let Operands {
            levels,
            mut pending,
            held: kept,
        } = self;
        let Some(held) = kept else {
            return Err(Fault::Misfit(OPERATOR));
        };
        let before = reduce_above(&mut pending, held, level)?;
        if !is_postfix(&levels, before.level, level) {
            return Err(Fault::Misfit(OPERATOR));
        }
        let waits = Pending {
            operator,
            level,
            asks: level,
            left: None,
        };
        let whole = reduce(waits, before.value)?;
        Ok(Operands {
            levels,
            pending,
            held: Some(whole),
        })
    }

    /// Returns the value, where nothing more follows.
    pub(super) fn close(self) -> Result<O::Value, Fault>
        ensures { MatchResult result (Completes O.changes O.joins self) (blames (EndsEarly O.changes O.joins self) (refuses_at_end O.refuses_operand O.refuses_operands O.changes O.joins self)) }
    {
        let Operands {
            levels: _,
            pending,
            held: kept,
        } = self;
        let Some(held) = kept else {
            return Err(Fault::Misfit(AWAITED));
        };
        reduce_all(pending, held)
    }
}
