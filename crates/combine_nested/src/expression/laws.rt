//! What the steps of an expression read, stated by functions that do nothing.
ghost use Rattle.combine_nested.specs.Asks.{asked_by_some};
ghost use Rattle.combine_nested.specs.NestedSteps.{depth_part, root_part, step_asker};
ghost use Rattle.combine_nested.specs.ExpressionParts.{MakesOutermost};
ghost use Rattle.combine_nested.specs.RefusedItems.{RefusesExpressions};
ghost use Rattle.combine_nested.specs.SpelledItems.{AcceptsExpressions};

use super::types::{Outermost, Part};
use super::{Item, Operator};
use crate::nested::types::Nested;
use combine_base::function::RefFunction;
use combine_base::parser::Parser;
use combine_base::stream::Stream;

/// The law that the items of an accepted run spell an expression of its value, by the levels that `expression` was given: what is in brackets is an operand. The steps that read them take the tokens that were taken.
pub fn accepted_is_expression<
    Input: Stream,
    O: Operator,
    P: Parser<Input, Output = Item<O, O::Value>> + Drop,
    S: RefFunction<Part<O, O::Value, N>, Output = P>,
    const N: usize,
>(parser: &Nested<Outermost<O, O::Value, N>, S>)
    ensures { (alloc : _) (levels : _) → MakesOutermost alloc levels (root_part parser.now) → AcceptsExpressions levels O.changes O.joins O.refuses_operand O.refuses_operands (depth_part parser.now) Input.step (S.returns (step_asker parser.now)) (asked_by_some S.callable S.returns P.lawful) P.meaning (⟦<Nested<Outermost<O, O::Value, N>, S> as Parser<Input>>⟧.meaning parser.now).whole }
{}

/// The law of a run that is refused: its steps lead to one whose parser refuses, or that opens a bracket too many, or takes no token and closes no bracket; or to an item that isn't taken. Then the things that were read since a bracket are the beginning of no expression that goes on so, or an operator among them refuses its operands, the values of what stands on its sides. The message says which.
pub fn refused_is_denied<
    Input: Stream,
    O: Operator,
    P: Parser<Input, Output = Item<O, O::Value>> + Drop,
    S: RefFunction<Part<O, O::Value, N>, Output = P>,
    const N: usize,
>(parser: &Nested<Outermost<O, O::Value, N>, S>)
    ensures { (alloc : _) (levels : _) → MakesOutermost alloc levels (root_part parser.now) → RefusesExpressions levels O.changes O.joins O.refuses_operand O.refuses_operands (depth_part parser.now) Input.step (S.returns (step_asker parser.now)) (asked_by_some S.callable S.returns P.lawful) P.meaning (⟦<Nested<Outermost<O, O::Value, N>, S> as Parser<Input>>⟧.meaning parser.now).whole }
{}
