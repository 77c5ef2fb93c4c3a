//! The parser of `nested`, and its state.
ghost use Rattle.std.specs.Prelude.{◌≡◌};
ghost use Rattle.combine_base.specs.Parser.KeptParsers.{KeptOf};
ghost use Rattle.combine_nested.specs.Asks.{asked_by_some, asked_so};
ghost use Rattle.combine_nested.specs.NestedSteps.{step_asker, depth_part, root_part, steps_start_valid, valid_steps, nesting, nesting_is_meaning};
ghost use Rattle.combine_nested.specs.AlikeFrames.{NestsOne, nesting_means_one};

use super::Frame;
use super::steps::{Did, Frames, run_step};
pub use super::steps::{NestedState, RunningStep};
use combine_base::error::{ErrorOffset, ParseResult, Tracked};
use combine_base::function::{Maker, RefFunction};
use combine_base::parser::{FirstMode, Outputs, ParseMode, Parser};
use combine_base::sequence::take_state;
use combine_base::stream::Stream;
use std::alloc::Global;

/// The parser of [`nested`](crate::nested::nested).
#[derive(Drop)]
#[derive_where(Clone, Copy; R, S)]
pub struct Nested<R, S> {
    pub(super) alloc: Global,
    pub(super) depth: usize,
    pub(super) root: R,
    pub(super) asked: S,
}

impl<Input, R: Maker, S> Outputs<Input> for Nested<R, S>
where
    R::Output: Frame,
{
    type Output = <R::Output as Frame>::Value;
}

impl<
    Input: Stream,
    F: Frame,
    N: Parser<Input, Output = F::Item> + Drop,
    R: Maker<Output = F>,
    S: RefFunction<F, Output = N>,
> Parser<Input> for Nested<R, S> {
    type PartialState = NestedState<F, N, N::PartialState>;

    ghost lawful = { λ p. R.callable (root_part p) × ((f : F) → S.callable (step_asker p) f) × ((f : F) (n : N) → S.returns (step_asker p) f n → N.lawful n) };

    ghost determined = { λ p. ((n : N) → asked_by_some S.callable S.returns N.lawful n → N.determined n) × NestsOne (R.returns (root_part p)) (S.returns (step_asker p)) F.takes F.joins (asked_by_some S.callable S.returns N.lawful) N.meaning N.valid F.alike F.alike_items F.alike_values };

    ghost valid = { valid_steps (KeptOf N.lawful N.meaning (asked_by_some S.callable S.returns N.lawful)) N.valid };

    ghost meaning = { λ p. nesting Input.step Input.Error.observers (depth_part p) (R.returns (root_part p)) (S.returns (step_asker p)) F.takes F.joins (asked_by_some S.callable S.returns N.lawful) N.meaning };

    ghost default_valid = { steps_start_valid (KeptOf N.lawful N.meaning (asked_by_some S.callable S.returns N.lawful)) N.valid };

    ghost laws = { λ p l. nesting_is_meaning Input.step (depth_part p) (R.returns (root_part p)) (S.returns (step_asker p)) F.takes F.joins (asked_by_some S.callable S.returns N.lawful) N.meaning N.lawful N.laws l.2 Input.Error.observers };

    ghost single = { λ p l d. nesting_means_one Input.step (depth_part p) d.1 N.lawful (λ n i. N.single n (i.all n i.made) (d.0 n i)) (asked_so (step_asker p) l.1 l.2) Input.Error.observers };

    fn parse_mode<M: ParseMode>(
        &mut self,
        mode: M,
        input: &mut Input,
        state: &mut Self::PartialState,
    ) -> ParseResult<F::Value, Input::Error> {
        let mut next = match take_state(mode, state) {
            NestedState::Running(step) => run_step(mode, input, self.depth, step, state),
            NestedState::Start => {
                let top = self.root.make();
                let outer = Vec::new(self.alloc);
                Did::Goes(Frames { top, outer }, false)
            }
        };
        'steps: loop {
            let (frames, committed) = match next {
                Did::Goes(frames, committed) => (frames, committed),
                Did::Stops(answer) => return answer,
            };
            let step = RunningStep {
                parser: self.asked.call_ref(&frames.top),
                state: N::PartialState::default(),
                frames,
                committed,
                took_before: false,
            };
            next = run_step(FirstMode, input, self.depth, step, state);
        }
    }

    /// Adds nothing.
    #[inline]
    fn add_error(&mut self, error: &mut Tracked<Input::Error>) {}

    /// Counts as one parser, however many steps there are.
    #[inline]
    fn parser_count(&self) -> ErrorOffset {
        ErrorOffset(1)
    }
}
