//! How functions change values, or refuse them.
ghost use Rattle.std.specs.Prelude.{◌≡◌, ◌⊎◌, Result, Ok, Err};
ghost use Rattle.std.specs.Str.{IsUtf8};
ghost use Rattle.combine_base.specs.declared.stream.Kind.TheVariants as kinds;
ghost use Rattle.combine_function.specs.Changes.{AnsweredItem, AnsweredKind, GivesAt, AnswerLeavesStream, MadeOf, MadeSaying, Misread, RefusedFor, RefusedWith, unreadable, value_kind};

use super::changed::ValueChange;
use super::text::StrLike;
use combine_base::error::{DetailedError, ErrorOffset, Info, ParseError, StreamError};
use combine_base::function::{Function, MutFunction};
use combine_base::stream::{Kind, Stream, StreamOnce};
use std::marker::PhantomData;
use std::str::FromStr;

/// A function that returns a value, or the error of the stream that the value is refused with.
#[derive(Clone, Copy, Drop)]
pub struct FlatMapFn<F>(pub(super) F);

impl<Input: Stream, A, B: Drop, F: Function<A, Output = Result<B, Input::Error>>> ValueChange<
    Input,
    A,
> for FlatMapFn<F> {
    type Output = B;

    ghost callable = { λ f a. F.callable f.0 a };

    ghost gives = { λ f at a b. F.returns f.0 a (Ok b) };

    ghost denies = { λ f a. AnsweredKind Input.Error.observers.kind (F.returns f.0) kinds.Refused a };

    ghost starves = { λ f a. AnsweredKind Input.Error.observers.kind (F.returns f.0) kinds.Memory a };

    ghost says = { λ f. RefusedFor Input.Error.observers Input.Position.cmp (F.returns f.0) };

    ghost counted = { λ n. n };

    #[inline(always)]
    fn change(
        &self,
        value: A,
        began: Input::Position,
        input: &mut Input,
    ) -> Result<B, Input::Error> {
        match self.0.call(value) {
            Ok(value) => Ok(value),
            Err(why) => Err(refused_with(why, began, input)),
        }
    }

    /// Counts as the part does.
    #[inline]
    fn count(part: ErrorOffset) -> ErrorOffset {
        part
    }
}

/// A function that returns a value, or what the error says that the value is refused with.
#[derive(Clone, Copy, Drop)]
pub struct AndThenFn<F>(pub(super) F);

impl<
    Input: Stream,
    A,
    B: Drop,
    E: Into<
        <Input::Error as DetailedError<Input::Token, Input::Range, Input::Position>>::StreamError,
    >,
    F: Function<A, Output = Result<B, E>>,
> ValueChange<Input, A> for AndThenFn<F>
where
    Input::Error: DetailedError<Input::Token, Input::Range, Input::Position>,
{
    type Output = B;

    ghost callable = { λ f a. F.callable f.0 a };

    ghost gives = { λ f at a b. F.returns f.0 a (Ok b) };

    ghost denies = { λ f a. AnsweredItem Input.Error.StreamError.kind (F.returns f.0) E.converts kinds.Refused a };

    ghost starves = { λ f a. AnsweredItem Input.Error.StreamError.kind (F.returns f.0) E.converts kinds.Memory a };

    ghost says = { λ f at a. MadeOf Input.Error.observers Input.Error.StreamError.items (F.returns f.0) E.converts at a };

    ghost counted = { λ n. n };

    #[inline(always)]
    fn change(
        &self,
        value: A,
        began: Input::Position,
        input: &mut Input,
    ) -> Result<B, Input::Error> {
        match self.0.call(value) {
            Ok(value) => Ok(value),
            Err(why) => {
                let item = why.into();
                let mut error = input.new_error(value_kind(item.kind()), began);
                error.add(item);
                Err(error)
            }
        }
    }

    /// Counts as the part does.
    #[inline]
    fn count(part: ErrorOffset) -> ErrorOffset {
        part
    }
}

/// Returns the kind with which a value is refused for an error of that kind.
#[inline]
fn value_kind(kind: Kind) -> Kind
    ensures { result ≡ value_kind kind }
{
    match kind {
        Kind::Memory => Kind::Memory,
        Kind::Refused | Kind::End | Kind::Read | Kind::Reset | Kind::Lost => Kind::Refused,
    }
}

/// Returns the error with which a value is refused for that error: a refusal and out of memory as they are, an end joined with a refusal, and for another fault a refusal alone.
#[inline]
fn refused_with<Input: Stream>(
    why: Input::Error,
    began: Input::Position,
    input: &Input,
) -> Input::Error
    ensures { RefusedWith Input.Error.observers Input.Position.cmp began why result }
{
    match why.kind() {
        Kind::Refused | Kind::Memory => why,
        Kind::End => input.new_error(Kind::Refused, began).merge(why),
        Kind::Read | Kind::Reset | Kind::Lost => input.new_error(Kind::Refused, began),
    }
}

/// A function of the value and of the stream, which it leaves in place.
#[derive(Clone, Copy, Drop)]
pub struct MapInputFn<F>(pub(super) F);

impl<Input: Stream, A, B: Drop, F: MutFunction<(A,), Input, Output = B>> ValueChange<Input, A>
    for MapInputFn<F> {
    type Output = B;

    ghost callable = { λ f a. ((i : Input) → F.callable f.0 (record { 0 = a }) i) × AnswerLeavesStream Input.view Input.marks Input.failures (F.returns f.0 (record { 0 = a })) };

    ghost gives = { λ f. GivesAt Input.view (λ a. F.returns f.0 (record { 0 = a })) };

    ghost denies = { λ f a. ⊥ };

    ghost starves = { λ f a. ⊥ };

    ghost says = { λ f at a e. ⊥ };

    ghost counted = { λ n. n };

    #[inline(always)]
    fn change(
        &self,
        value: A,
        began: Input::Position,
        input: &mut Input,
    ) -> Result<B, Input::Error> {
        Ok(self.0.call_mut((value,), input))
    }

    /// Counts as the part does.
    #[inline]
    fn count(part: ErrorOffset) -> ErrorOffset {
        part
    }
}

/// The text of the value, read as a `T`.
#[derive(Drop)]
#[derive_where(Clone, Copy)]
pub struct FromStrFn<T>(pub(super) PhantomData<T>);

impl<Input: Stream, A: StrLike + Drop, T: FromStr + Drop> ValueChange<Input, A> for FromStrFn<T>
where
    T::Err: Drop,
{
    type Output = T;

    ghost callable = { λ f a. Unit {0} };

    ghost gives = { λ f at a b. IsUtf8 (A.bytes a) × T.from_str_gives (A.bytes a) (Ok b) };

    ghost denies = { λ f a. Misread T.from_str_gives (A.bytes a) };

    ghost starves = { λ f a. ⊥ };

    ghost says = { λ f at a. MadeSaying Input.Error.observers (unreadable T.from_str_gives (A.bytes a)) at };

    ghost counted = { λ n. 1 };

    #[inline]
    fn change(
        &self,
        value: A,
        began: Input::Position,
        input: &mut Input,
    ) -> Result<T, Input::Error> {
        let Some(text) = value.from_utf8() else {
            let mut error = input.new_error(Kind::Refused, began);
            error.add_expected(&Info::Static("UTF-8"));
            return Err(error);
        };
        match text.parse() {
            Ok(number) => Ok(number),
            Err(_why) => {
                let mut error = input.new_error(Kind::Refused, began);
                error.add_message(&Info::Static("invalid value"));
                Err(error)
            }
        }
    }

    /// Counts as one parser.
    #[inline]
    fn count(_part: ErrorOffset) -> ErrorOffset {
        ErrorOffset(1)
    }
}
