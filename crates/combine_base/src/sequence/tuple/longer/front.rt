//! The parts before those of a longer tuple, lent.
ghost use Rattle.std.specs.Prelude.{◌≡◌, refl};
ghost use Rattle.combine_base.specs.Sequence.Places.{begins_4, begins_valid_4, first_fresh, valid_4};
ghost use Rattle.combine_base.specs.Sequence.Tuples.{tuple_4, tuple_4_is_meaning};

use crate::error::ParseResult;
use crate::parser::{ParseMode, Parser};
use crate::sequence::PartialState4;
use crate::sequence::tuple::{State4, parse_4};
use crate::stream::Stream;

/// Parts that were lent, and that run before another one.
pub(super) trait Front<Input: Stream> {
    ghost use Rattle.std.specs.Prelude.{◌≡◌, false, true};
    ghost use Rattle.combine_base.specs.Parser.Meaning.{Meaning, IsMeaning, MeansSame};
    ghost use Rattle.combine_base.specs.Parser.Answer.{Answers, world};
    ghost use Rattle.combine_base.specs.Parser.Reasons.{ReasonedCall};
    ghost use Rattle.combine_base.specs.Sequence.Parts.{call_from};
    ghost use Rattle.combine_base.specs.Stream.Calls.{Passes};

    /// The values of the parts.
    type Output: Drop;

    /// What is kept of the parts.
    type State: Drop;

    /// What a call needs of the parts.
    ghost lawful: { Self → Type 0 };

    /// The states that a call may be given.
    ghost valid: { Self.State → Type 0 };

    /// The states that begin the parts.
    ghost fresh: { Self.State → Type 0 };

    /// What the parts mean.
    ghost meaning: { Self → Meaning Input.Position Input.Token Input.Range Input.Error Self.Output Self.State };

    /// The same parts are lent.
    ghost same: { Self → Self → Type 0 };

    /// Returns a state that begins the parts.
    fn begin() -> Self::State
        ensures { fresh result };

    /// Runs the parts, from what is kept of them.
    ///
    /// Need of more is kept in `state`, and every other result leaves one that begins the parts, as it was.
    fn run<M: ParseMode>(
        &mut self,
        mode: M,
        input: &mut Input,
        from: Self::State,
        state: &mut Self::State,
    ) -> ParseResult<Self::Output, Input::Error>
        requires lawful { lawful self.old }
        requires valid { valid from }
        requires starts { M.first mode ≡ true → fresh from }
        requires fresh { fresh state.old }
        ensures lent { same self.old self.new }
        ensures lawful { lawful self.new }
        ensures valid { valid state.new }
        ensures same { MeansSame (meaning self.old) (meaning self.new) }
        ensures passes { Passes (Input.marks input.old) (Input.marks input.new) (Input.failures input.old) (Input.failures input.new) }
        ensures answers { Answers (world Input.step Input.Error.observers Input.counts_failures fresh) (meaning self.old) (call_from from state.new (Input.view input.old) (Input.view input.new) (Input.failures input.old) (Input.failures input.new)) result }
        ensures refuses { ReasonedCall Input.Error.observers (meaning self.old) false from (Input.view input.old) (Input.view input.new) result };

    ghost fresh_valid: { (s : Self.State) → fresh s → valid s };

    ghost unchanged: { (p : Self) → same p p };

    ghost laws: { (p : Self) → lawful p → IsMeaning fresh valid (meaning p) };
}

impl<Input: Stream, A: Parser<Input>, B: Parser<Input>, C: Parser<Input>, D: Parser<Input>> Front<
    Input,
> for (&mut A, &mut B, &mut C, &mut D) {
    type Output = (A::Output, B::Output, C::Output, D::Output);

    type State = State4<Input, A, B, C, D>;

    ghost lawful = { λ p. A.lawful p.0.now × B.lawful p.1.now × C.lawful p.2.now × D.lawful p.3.now };

    ghost valid = { valid_4 A.valid B.valid C.valid D.valid };

    ghost fresh = { begins_4 (first_fresh A.PartialState.is_default) };

    ghost meaning = { λ p. tuple_4 Input.step Input.Error.observers (A.meaning p.0.now) (B.meaning p.1.now) (C.meaning p.2.now) (D.meaning p.3.now) };

    ghost same = { λ p q. (p.0.ghost_name ≡ q.0.ghost_name) × (p.1.ghost_name ≡ q.1.ghost_name) × (p.2.ghost_name ≡ q.2.ghost_name) × (p.3.ghost_name ≡ q.3.ghost_name) };

    ghost unchanged = { λ p. (refl, refl, refl, refl) };

    #[inline(always)]
    fn begin() -> Self::State {
        PartialState4::default()
    }

    #[inline(always)]
    fn run<M: ParseMode>(
        &mut self,
        mode: M,
        input: &mut Input,
        from: Self::State,
        state: &mut Self::State,
    ) -> ParseResult<Self::Output, Input::Error> {
        parse_4(self.0, self.1, self.2, self.3, mode, input, from, state)
    }

    ghost fresh_valid = { begins_valid_4 B.valid C.valid D.valid A.default_valid };

    ghost laws = { λ p l. tuple_4_is_meaning Input.step Input.Error.observers (A.laws p.0.now l.0) (B.laws p.1.now l.1) (C.laws p.2.now l.2) (D.laws p.3.now l.3) };
}
