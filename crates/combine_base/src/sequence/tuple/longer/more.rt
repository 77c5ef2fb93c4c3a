//! One to four parts after those that were lent.
ghost use Rattle.std.specs.Prelude.{◌≡◌, true};
ghost use Rattle.combine_base.specs.Sequence.SequenceCalls.{FollowsPartsByFour, FollowsPartsByOne, FollowsPartsByThree, FollowsPartsByTwo};
ghost use Rattle.combine_base.specs.Sequence.Places.{begins_sequence, valid_in};

use super::front::Front;
use crate::error::ParseResult;
use crate::parser::{ParseMode, Parser};
use crate::sequence::part::{Push, parse_rest, resume_last};
use crate::sequence::{SequencePlace, SequenceState, TupleState};
use crate::stream::Stream;

/// Runs parts that were lent, and one more, from what is kept of them.
///
/// Need of more is kept in `state`, which begins them, and which every other result leaves as it was.
#[inline(always)]
pub(super) fn parse_with_one_more<
    Input: Stream,
    T: Push<E::Output> + Drop,
    Q: Front<Input, Output = T>,
    E: Parser<Input>,
    S: TupleState<Before = Q::State, Last = SequenceState<T, E::PartialState>> + Drop,
    M: ParseMode,
>(
    before: &mut Q,
    e: &mut E,
    mode: M,
    input: &mut Input,
    from: S,
    state: &mut S,
) -> ParseResult<T::Pushed, Input::Error>
    requires lawful { Q.lawful before.old × E.lawful e.old }
    requires valid { valid_in S.place Q.valid E.valid from }
    requires starts { M.first mode ≡ true → begins_sequence S.place Q.fresh from }
    requires fresh { begins_sequence S.place Q.fresh state.old }
    ensures lent { Q.same before.old before.new }
    ensures lawful { Q.lawful before.new × E.lawful e.new }
    ensures follows { FollowsPartsByOne Input.StreamOnce Input.Error.observers Q.Front before.old before.new S.place T.pushed E.Parser e.old e.new input.old input.new from state.new result }
{
    match from.into_place() {
        SequencePlace::Before(at) => {
            let mut kept = Q::begin();
            let answer = before.run(mode, input, at, &mut kept);
            parse_rest(answer, kept, e, mode, input, state)
        }
        SequencePlace::Last(at) => resume_last(e, mode, input, at, state),
    }
}

/// Runs parts that were lent, and two more, from what is kept of them.
///
/// Need of more is kept in `state`, which begins them, and which every other result leaves as it was.
#[inline(always)]
pub(super) fn parse_with_two_more<
    Input: Stream,
    T: Push<E::Output, Pushed = V> + Drop,
    V: Push<F::Output> + Drop,
    Q: Front<Input, Output = T>,
    E: Parser<Input>,
    F: Parser<Input>,
    N: TupleState<Before = Q::State, Last = SequenceState<T, E::PartialState>> + Drop,
    S: TupleState<Before = N, Last = SequenceState<V, F::PartialState>> + Drop,
    M: ParseMode,
>(
    before: &mut Q,
    e: &mut E,
    f: &mut F,
    mode: M,
    input: &mut Input,
    from: S,
    state: &mut S,
) -> ParseResult<V::Pushed, Input::Error>
    requires lawful { Q.lawful before.old × E.lawful e.old × F.lawful f.old }
    requires valid { valid_in S.place (valid_in N.place Q.valid E.valid) F.valid from }
    requires starts { M.first mode ≡ true → begins_sequence S.place (begins_sequence N.place Q.fresh) from }
    requires fresh { begins_sequence S.place (begins_sequence N.place Q.fresh) state.old }
    ensures lent { Q.same before.old before.new }
    ensures lawful { Q.lawful before.new × E.lawful e.new × F.lawful f.new }
    ensures follows { FollowsPartsByTwo Input.StreamOnce Input.Error.observers Q.Front before.old before.new N.place T.pushed E.Parser e.old e.new S.place V.pushed F.Parser f.old f.new input.old input.new from state.new result }
{
    match from.into_place() {
        SequencePlace::Before(at) => {
            let mut kept = N::from_place(SequencePlace::Before(Q::begin()));
            let answer = parse_with_one_more(before, e, mode, input, at, &mut kept);
            parse_rest(answer, kept, f, mode, input, state)
        }
        SequencePlace::Last(at) => resume_last(f, mode, input, at, state),
    }
}

/// Runs parts that were lent, and three more, from what is kept of them.
///
/// Need of more is kept in `state`, which begins them, and which every other result leaves as it was.
#[inline(always)]
pub(super) fn parse_with_three_more<
    Input: Stream,
    T: Push<E::Output, Pushed = V> + Drop,
    V: Push<F::Output, Pushed = W> + Drop,
    W: Push<G::Output> + Drop,
    Q: Front<Input, Output = T>,
    E: Parser<Input>,
    F: Parser<Input>,
    G: Parser<Input>,
    L: TupleState<Before = Q::State, Last = SequenceState<T, E::PartialState>> + Drop,
    N: TupleState<Before = L, Last = SequenceState<V, F::PartialState>> + Drop,
    S: TupleState<Before = N, Last = SequenceState<W, G::PartialState>> + Drop,
    M: ParseMode,
>(
    before: &mut Q,
    e: &mut E,
    f: &mut F,
    g: &mut G,
    mode: M,
    input: &mut Input,
    from: S,
    state: &mut S,
) -> ParseResult<W::Pushed, Input::Error>
    requires lawful { Q.lawful before.old × E.lawful e.old × F.lawful f.old × G.lawful g.old }
    requires valid { valid_in S.place (valid_in N.place (valid_in L.place Q.valid E.valid) F.valid) G.valid from }
    requires starts { M.first mode ≡ true → begins_sequence S.place (begins_sequence N.place (begins_sequence L.place Q.fresh)) from }
    requires fresh { begins_sequence S.place (begins_sequence N.place (begins_sequence L.place Q.fresh)) state.old }
    ensures lent { Q.same before.old before.new }
    ensures lawful { Q.lawful before.new × E.lawful e.new × F.lawful f.new × G.lawful g.new }
    ensures follows { FollowsPartsByThree Input.StreamOnce Input.Error.observers Q.Front before.old before.new L.place T.pushed E.Parser e.old e.new N.place V.pushed F.Parser f.old f.new S.place W.pushed G.Parser g.old g.new input.old input.new from state.new result }
{
    match from.into_place() {
        SequencePlace::Before(at) => {
            let mut kept = N::from_place(SequencePlace::Before(L::from_place(SequencePlace::Before(
                Q::begin(),
            ))));
            let answer = parse_with_two_more(before, e, f, mode, input, at, &mut kept);
            parse_rest(answer, kept, g, mode, input, state)
        }
        SequencePlace::Last(at) => resume_last(g, mode, input, at, state),
    }
}

/// Runs parts that were lent, and four more, from what is kept of them.
///
/// Need of more is kept in `state`, which begins them, and which every other result leaves as it was.
#[inline(always)]
pub(super) fn parse_with_four_more<
    Input: Stream,
    T: Push<E::Output, Pushed = V> + Drop,
    V: Push<F::Output, Pushed = W> + Drop,
    W: Push<G::Output, Pushed = Y> + Drop,
    Y: Push<H::Output> + Drop,
    Q: Front<Input, Output = T>,
    E: Parser<Input>,
    F: Parser<Input>,
    G: Parser<Input>,
    H: Parser<Input>,
    K: TupleState<Before = Q::State, Last = SequenceState<T, E::PartialState>> + Drop,
    L: TupleState<Before = K, Last = SequenceState<V, F::PartialState>> + Drop,
    N: TupleState<Before = L, Last = SequenceState<W, G::PartialState>> + Drop,
    S: TupleState<Before = N, Last = SequenceState<Y, H::PartialState>> + Drop,
    M: ParseMode,
>(
    before: &mut Q,
    e: &mut E,
    f: &mut F,
    g: &mut G,
    h: &mut H,
    mode: M,
    input: &mut Input,
    from: S,
    state: &mut S,
) -> ParseResult<Y::Pushed, Input::Error>
    requires lawful { Q.lawful before.old × E.lawful e.old × F.lawful f.old × G.lawful g.old × H.lawful h.old }
    requires valid { valid_in S.place (valid_in N.place (valid_in L.place (valid_in K.place Q.valid E.valid) F.valid) G.valid) H.valid from }
    requires starts { M.first mode ≡ true → begins_sequence S.place (begins_sequence N.place (begins_sequence L.place (begins_sequence K.place Q.fresh))) from }
    requires fresh { begins_sequence S.place (begins_sequence N.place (begins_sequence L.place (begins_sequence K.place Q.fresh))) state.old }
    ensures lent { Q.same before.old before.new }
    ensures lawful { Q.lawful before.new × E.lawful e.new × F.lawful f.new × G.lawful g.new × H.lawful h.new }
    ensures follows { FollowsPartsByFour Input.StreamOnce Input.Error.observers Q.Front before.old before.new K.place T.pushed E.Parser e.old e.new L.place V.pushed F.Parser f.old f.new N.place W.pushed G.Parser g.old g.new S.place Y.pushed H.Parser h.old h.new input.old input.new from state.new result }
{
    match from.into_place() {
        SequencePlace::Before(at) => {
            let mut kept = N::from_place(SequencePlace::Before(L::from_place(SequencePlace::Before(
                K::from_place(SequencePlace::Before(Q::begin())),
            ))));
            let answer = parse_with_three_more(before, e, f, g, mode, input, at, &mut kept);
            parse_rest(answer, kept, h, mode, input, state)
        }
        SequencePlace::Last(at) => resume_last(h, mode, input, at, state),
    }
}
