//! The parsers that the functions of `token` return.
ghost use Rattle.std.specs.Prelude.{◌≡◌, codes, true};
ghost use Rattle.combine_base.specs.Error.Errors.{AddsNothing, Only};
ghost use Rattle.combine_base.specs.Error.Items.{Expected, Fixed, OfToken};
ghost use Rattle.combine_base.specs.Predicates.{IsPredicate};
ghost use Rattle.combine_token.specs.Token.OneToken.{IsTest, ends_there, ends_there_is_test, of_function, of_function_is_predicate, of_token, of_token_is_test, satisfied, satisfied_is_test, takes_one, takes_one_is_meaning, takes_one_means_one};
ghost use Rattle.combine_token.specs.Token.PureValues.{given_meaning, gives_is_meaning, gives_means_one};

pub use crate::token::among::types::{NoneOf, OneOf};
pub use crate::token::lists::types::{Tokens, TokensCmp};
use crate::token::reading::{one_token, token_if, token_map};
use combine_base::error::{ErrorOffset, Info, ParseError, ParseResult, Tracked};
use combine_base::function::{Function, Maker};
use combine_base::parser::{Outputs, ParseMode, Parser};
use combine_base::stream::{Kind, Stream, StreamOnce};
use std::marker::PhantomData;

/// The parser of [`any`](crate::token::any).
#[derive(Drop)]
#[derive_where(Clone, Copy)]
pub struct Any<Input> {
    pub(super) reads: PhantomData<Input>,
}

/// The parser of [`satisfy`](crate::token::satisfy).
#[derive(Drop)]
#[derive_where(Clone, Copy; F)]
pub struct Satisfy<Input, F> {
    pub(super) predicate: F,
    pub(super) reads: PhantomData<Input>,
}

/// The parser of [`satisfy_map`](crate::token::satisfy_map).
#[derive(Drop)]
#[derive_where(Clone, Copy; F)]
pub struct SatisfyMap<Input, F> {
    pub(super) predicate: F,
    pub(super) reads: PhantomData<Input>,
}

/// The parser of [`token`](crate::token::token), with the stream's tokens as `T`.
///
/// The crate's has no such parameter. A type that holds an associated type could be neither `Copy` nor used over a borrowed slice.
#[derive(Drop)]
#[derive_where(Clone, Copy; T)]
pub struct Token<Input, T> {
    pub(super) token: T,
    pub(super) reads: PhantomData<Input>,
}

/// The parser of [`position`](crate::token::position).
#[derive(Drop)]
#[derive_where(Clone, Copy)]
pub struct Position<Input> {
    pub(super) reads: PhantomData<Input>,
}

/// The parser of [`value`](crate::token::value).
#[derive(Drop)]
#[derive_where(Clone, Copy; T)]
pub struct Value<Input, T> {
    pub(super) value: T,
    pub(super) reads: PhantomData<Input>,
}

/// The parser of [`produce`](crate::token::produce).
#[derive(Drop)]
#[derive_where(Clone, Copy; F)]
pub struct Produce<Input, F> {
    pub(super) function: F,
    pub(super) reads: PhantomData<Input>,
}

/// The parser of [`eof`](crate::token::eof).
#[derive(Drop)]
#[derive_where(Clone, Copy)]
pub struct Eof<Input> {
    pub(super) reads: PhantomData<Input>,
}

impl<Input: StreamOnce> Outputs<Input> for Any<Input> {
    type Output = Input::Token;
}

impl<Input: Stream> Parser<Input> for Any<Input> {
    type PartialState = ();

    ghost meaning = { λ p. takes_one Input.Error.observers (satisfied (of_function (λ t. true))) (Unit {0}) AddsNothing };

    #[inline(always)]
    fn parse_mode<M: ParseMode>(
        &mut self,
        mode: M,
        input: &mut Input,
        state: &mut (),
    ) -> ParseResult<Input::Token, Input::Error> {
        token_if(
            |_: Input::Token| -> bool
                ensures { result ≡ true }
            { true },
            input,
        )
    }

    #[inline]
    fn add_error(&mut self, error: &mut Tracked<Input::Error>) {}

    #[inline]
    fn parser_count(&self) -> ErrorOffset {
        ErrorOffset(1)
    }

    ghost default_valid = { λ s d. tt };

    ghost laws = { λ p l. takes_one_is_meaning Input.Error.observers (satisfied (of_function (λ t. true))) _ _ _ _ };

    ghost single = { λ p l d. takes_one_means_one Input.Error.observers (satisfied (of_function (λ t. true))) _ _ _ (satisfied_is_test _ (of_function_is_predicate (λ t. true))) };
}

impl<Input: StreamOnce, F> Outputs<Input> for Satisfy<Input, F> {
    type Output = Input::Token;
}

impl<Input: Stream, F: Function<Input::Token, Output = bool>> Parser<Input> for Satisfy<Input, F> {
    type PartialState = ();

    ghost lawful = { λ p. (t : Input.Token) → F.callable p.predicate t };

    ghost determined = { λ p. IsPredicate (F.returns p.predicate) };

    ghost meaning = { λ p. takes_one Input.Error.observers (satisfied (F.returns p.predicate)) (Unit {0}) AddsNothing };

    #[inline(always)]
    fn parse_mode<M: ParseMode>(
        &mut self,
        mode: M,
        input: &mut Input,
        state: &mut (),
    ) -> ParseResult<Input::Token, Input::Error> {
        let predicate = &self.predicate;
        token_if(
            |token: Input::Token| -> bool
                requires { F.callable predicate.now token }
                ensures { F.returns predicate.entry.now token result }
            { predicate.call(token) },
            input,
        )
    }

    #[inline]
    fn add_error(&mut self, error: &mut Tracked<Input::Error>) {}

    #[inline]
    fn parser_count(&self) -> ErrorOffset {
        ErrorOffset(1)
    }

    ghost default_valid = { λ s d. tt };

    ghost laws = { λ p l. takes_one_is_meaning Input.Error.observers (satisfied (F.returns p.predicate)) _ _ _ _ };

    ghost single = { λ p l d. takes_one_means_one Input.Error.observers (satisfied (F.returns p.predicate)) _ _ _ (satisfied_is_test _ d) };
}

impl<Input: StreamOnce, B: Drop, F: Function<Input::Token, Output = Option<B>>> Outputs<Input>
    for SatisfyMap<Input, F> {
    type Output = B;
}

impl<Input: Stream, B: Drop, F: Function<Input::Token, Output = Option<B>>> Parser<Input>
    for SatisfyMap<Input, F> {
    type PartialState = ();

    ghost lawful = { λ p. (t : Input.Token) → F.callable p.predicate t };

    ghost determined = { λ p. IsTest (F.returns p.predicate) };

    ghost meaning = { λ p. takes_one Input.Error.observers (of_token (F.returns p.predicate)) (Unit {0}) AddsNothing };

    #[inline(always)]
    fn parse_mode<M: ParseMode>(
        &mut self,
        mode: M,
        input: &mut Input,
        state: &mut (),
    ) -> ParseResult<B, Input::Error> {
        let predicate = &self.predicate;
        token_map(
            |token: Input::Token| -> Option<B>
                requires { F.callable predicate.now token }
                ensures { F.returns predicate.entry.now token result }
            { predicate.call(token) },
            input,
        )
    }

    #[inline]
    fn add_error(&mut self, error: &mut Tracked<Input::Error>) {}

    #[inline]
    fn parser_count(&self) -> ErrorOffset {
        ErrorOffset(1)
    }

    ghost default_valid = { λ s d. tt };

    ghost laws = { λ p l. takes_one_is_meaning Input.Error.observers (of_token (F.returns p.predicate)) _ _ _ _ };

    ghost single = { λ p l d. takes_one_means_one Input.Error.observers (of_token (F.returns p.predicate)) _ _ _ (of_token_is_test _ d) };
}

impl<Input, T: Drop> Outputs<Input> for Token<Input, T> {
    type Output = T;
}

impl<Input: Stream> Parser<Input> for Token<Input, Input::Token>
where
    Input::Token: PartialEq,
{
    type PartialState = ();

    ghost meaning = { λ p. takes_one Input.Error.observers (satisfied (of_function (λ t. Input.Token.eq t p.token))) (Unit {0}) (Only (Expected (OfToken p.token))) };

    #[inline(always)]
    fn parse_mode<M: ParseMode>(
        &mut self,
        mode: M,
        input: &mut Input,
        state: &mut (),
    ) -> ParseResult<Input::Token, Input::Error> {
        let expected = self.token;
        token_if(
            move |token: Input::Token| -> bool
                ensures { result ≡ Input.Token.eq token expected }
            { token == expected },
            input,
        )
    }

    #[inline]
    fn add_error(&mut self, error: &mut Tracked<Input::Error>) {
        error.error.add_expected(&Info::Token(self.token));
    }

    #[inline]
    fn parser_count(&self) -> ErrorOffset {
        ErrorOffset(1)
    }

    ghost default_valid = { λ s d. tt };

    ghost laws = { λ p l. takes_one_is_meaning Input.Error.observers (satisfied (of_function (λ t. Input.Token.eq t p.token))) _ _ _ _ };

    ghost single = { λ p l d. takes_one_means_one Input.Error.observers (satisfied (of_function (λ t. Input.Token.eq t p.token))) _ _ _ (satisfied_is_test _ (of_function_is_predicate (λ t. Input.Token.eq t p.token))) };
}

impl<Input: StreamOnce> Outputs<Input> for Position<Input> {
    type Output = Input::Position;
}

impl<Input: Stream> Parser<Input> for Position<Input> {
    type PartialState = ();

    ghost meaning = { λ p. given_meaning (λ at v. v ≡ at) (Unit {0}) AddsNothing };

    #[inline(always)]
    fn parse_mode<M: ParseMode>(
        &mut self,
        mode: M,
        input: &mut Input,
        state: &mut (),
    ) -> ParseResult<Input::Position, Input::Error> {
        ParseResult::PeekOk(input.position())
    }

    #[inline]
    fn add_error(&mut self, error: &mut Tracked<Input::Error>) {}

    #[inline]
    fn parser_count(&self) -> ErrorOffset {
        ErrorOffset(1)
    }

    ghost default_valid = { λ s d. tt };

    ghost laws = { λ p l. gives_is_meaning (λ at v. v ≡ at) _ _ _ _ };

    ghost single = { λ p l d. gives_means_one (λ at v. v ≡ at) _ _ _ };
}

impl<Input, T: Drop> Outputs<Input> for Value<Input, T> {
    type Output = T;
}

impl<Input: Stream, T: Clone> Parser<Input> for Value<Input, T> {
    type PartialState = ();

    ghost meaning = { λ p. given_meaning (λ at v. T.is_clone p.value v) (T.is_infallible p.value) AddsNothing };

    #[inline(always)]
    fn parse_mode<M: ParseMode>(
        &mut self,
        mode: M,
        input: &mut Input,
        state: &mut (),
    ) -> ParseResult<T, Input::Error> {
        match self.value.clone() {
            Ok(value) => ParseResult::PeekOk(value),
            Err(_) => ParseResult::CommitErr(input.new_error(Kind::Memory, input.position())),
        }
    }

    #[inline]
    fn add_error(&mut self, error: &mut Tracked<Input::Error>) {}

    #[inline]
    fn parser_count(&self) -> ErrorOffset {
        ErrorOffset(1)
    }

    ghost default_valid = { λ s d. tt };

    ghost laws = { λ p l. gives_is_meaning (λ at v. T.is_clone p.value v) _ _ _ _ };

    ghost single = { λ p l d. gives_means_one (λ at v. T.is_clone p.value v) _ _ _ };
}

impl<Input, F: Maker> Outputs<Input> for Produce<Input, F>
where
    F::Output: Drop,
{
    type Output = F::Output;
}

impl<Input: Stream, F: Maker> Parser<Input> for Produce<Input, F>
where
    F::Output: Drop,
{
    type PartialState = ();

    ghost lawful = { λ p. F.callable p.function };

    ghost meaning = { λ p. given_meaning (λ at v. F.returns p.function v) (Unit {0}) AddsNothing };

    #[inline(always)]
    fn parse_mode<M: ParseMode>(
        &mut self,
        mode: M,
        input: &mut Input,
        state: &mut (),
    ) -> ParseResult<F::Output, Input::Error> {
        ParseResult::PeekOk(self.function.make())
    }

    #[inline]
    fn add_error(&mut self, error: &mut Tracked<Input::Error>) {}

    #[inline]
    fn parser_count(&self) -> ErrorOffset {
        ErrorOffset(1)
    }

    ghost default_valid = { λ s d. tt };

    ghost laws = { λ p l. gives_is_meaning (λ at v. F.returns p.function v) _ _ _ _ };

    ghost single = { λ p l d. gives_means_one (λ at v. F.returns p.function v) _ _ _ };
}

impl<Input> Outputs<Input> for Eof<Input> {
    type Output = ();
}

impl<Input: Stream> Parser<Input> for Eof<Input> {
    type PartialState = ();

    ghost meaning = { λ p. takes_one Input.Error.observers ends_there (Unit {0}) (Only (Expected (Fixed (codes "end of input")))) };

    #[inline(always)]
    fn parse_mode<M: ParseMode>(
        &mut self,
        mode: M,
        input: &mut Input,
        state: &mut (),
    ) -> ParseResult<(), Input::Error> {
        one_token(
            |first: Option<Input::Token>| -> Option<()>
                ensures { ends_there first result }
            {
                match first {
                    Some(_) => None,
                    None => Some(()),
                }
            },
            input,
        )
    }

    #[inline]
    fn add_error(&mut self, error: &mut Tracked<Input::Error>) {
        error.error.add_expected(&Info::Static("end of input"));
    }

    #[inline]
    fn parser_count(&self) -> ErrorOffset {
        ErrorOffset(1)
    }

    ghost default_valid = { λ s d. tt };

    ghost laws = { λ p l. takes_one_is_meaning Input.Error.observers ends_there _ _ _ _ };

    ghost single = { λ p l d. takes_one_means_one Input.Error.observers ends_there _ _ _ ends_there_is_test };
}
