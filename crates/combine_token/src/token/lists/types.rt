//! The parsers of lists of tokens, and their state.
ghost use Rattle.std.specs.Prelude.{◌≡◌, not, if◌then◌else◌, None, Some};
ghost use Rattle.combine_base.specs.Error.Errors.{AddsNothing, Only};
ghost use Rattle.combine_base.specs.Error.Items.{Expected, shown, NoText};
ghost use Rattle.combine_token.specs.Token.Lists.TokenLists.{ComparesOnce};
ghost use Rattle.combine_token.specs.Token.Lists.ListMeaning.{token_list, token_list_is_meaning, token_list_means_one};
ghost use Rattle.combine_token.specs.Token.Lists.IteratedLists.{IsItemAt, IsIterated, iterated_tokens, iterated_ends_once};

use crate::token::lists::match_list;
use combine_base::error::{ErrorOffset, Info, ParseError, ParseResult, Tracked};
use combine_base::function::Compare;
use combine_base::parser::{Outputs, ParseMode, Parser};
use combine_base::stream::Stream;
use std::alloc::AllocError;
use std::marker::PhantomData;

/// The parser of [`tokens`](crate::token::tokens).
///
/// Its errors at a committed mismatch say which token stands there and what was expected, at the position where the call began.
///
/// On need of more nothing is left unread: the state keeps how many tokens were matched.
///
/// `E` is an `Info`, in the crate what is turned into one.
#[derive(Drop)]
pub struct Tokens<C, E, T, Input> {
    pub(super) cmp: C,
    pub(super) expected: E,
    pub(super) tokens: T,
    pub(super) reads: PhantomData<Input>,
}

impl<C: Clone, A: Copy, R: Copy, T: Clone, Input> Clone for Tokens<C, Info<A, R>, T, Input> {
    ghost is_clone = { λ p q. C.is_clone p.cmp q.cmp × T.is_clone p.tokens q.tokens × (shown q.expected ≡ shown p.expected) };

    ghost is_infallible = { λ p. C.is_infallible p.cmp × T.is_infallible p.tokens × NoText p.expected };

    fn clone(&self) -> Result<Self, AllocError> {
        Ok(Tokens {
            cmp: self.cmp.clone()?,
            expected: self.expected.copied()?,
            tokens: self.tokens.clone()?,
            reads: PhantomData,
        })
    }
}

/// How many items of a list were matched in earlier pieces; none by default.
#[derive(Default, Drop)]
pub struct TokensState {
    pub(super) matched: usize,
}

impl TokensState {
    /// Hands out how many items were matched before, if the call resumes, and keeps none.
    pub(super) fn begin(&mut self, resumes: bool) -> usize
        ensures matched { result ≡ (if resumes then self.old.matched else 0) }
        ensures left { self.new.matched ≡ 0 }
    {
        let matched = if resumes { self.matched } else { 0 };
        self.matched = 0;
        matched
    }
}

impl<Input, C, E, T: Drop> Outputs<Input> for Tokens<C, E, T, Input> {
    type Output = T;
}

impl<Input: Stream, C: Compare<T::Item, Input::Token>, T: Clone + IntoIterator> Parser<Input>
    for Tokens<C, Info<Input::Token, Input::Range>, T, Input>
where
    T::Item: Drop,
{
    type PartialState = TokensState;

    ghost lawful = { λ p. ((n : _) (x : T.Item) (t : Input.Token) → IsItemAt T.is_clone T.into_iter_gives T.IntoIter.next_gives p.tokens n x → C.callable p.cmp x t) × IsIterated T.is_clone T.into_iter_gives T.IntoIter.next_gives p.tokens T.IntoIter.can_next T.IntoIter.remaining };

    ghost determined = { λ p. ComparesOnce (iterated_tokens T.is_clone T.into_iter_gives T.IntoIter.next_gives p.tokens (C.returns p.cmp)) };

    ghost meaning = { λ p. token_list Input.Error.observers (iterated_tokens T.is_clone T.into_iter_gives T.IntoIter.next_gives p.tokens (C.returns p.cmp)) (Some p.expected) (T.is_clone p.tokens) (λ s. s.matched) (T.is_infallible p.tokens) (Only (Expected (shown p.expected))) };

    ghost default_valid = { λ s d. tt };

    ghost laws = { λ p l. token_list_is_meaning Input.Error.observers _ _ _ _ _ _ _ _ (λ s d. d) };

    ghost single = { λ p l d. token_list_means_one Input.Error.observers _ _ _ _ _ _ (λ _. Unit {0}) (λ _. Unit {0}) (iterated_ends_once _ _ _ _ _ _ _ l.1) d };

    #[inline(always)]
    fn parse_mode<M: ParseMode>(
        &mut self,
        mode: M,
        input: &mut Input,
        state: &mut TokensState,
    ) -> ParseResult<T, Input::Error> {
        match_list(
            &self.cmp,
            &self.tokens,
            &self.tokens,
            Some(&self.expected),
            mode,
            input,
            state,
        )
    }

    fn add_error(&mut self, error: &mut Tracked<Input::Error>) {
        error.error.add_expected(&self.expected);
    }

    fn parser_count(&self) -> ErrorOffset {
        ErrorOffset(1)
    }
}

/// The parser of [`tokens_cmp`](crate::token::tokens_cmp).
///
/// Its errors at a committed mismatch say which token stands there, at the position where the call began. What was expected is never said.
///
/// On need of more nothing is left unread: the state keeps how many tokens were matched.
#[derive(Drop)]
#[derive_where(Clone; C, T)]
pub struct TokensCmp<C, T, Input> {
    pub(super) cmp: C,
    pub(super) tokens: T,
    pub(super) reads: PhantomData<Input>,
}

impl<Input, C, T: Drop> Outputs<Input> for TokensCmp<C, T, Input> {
    type Output = T;
}

impl<Input: Stream, C: Compare<T::Item, Input::Token>, T: Clone + IntoIterator> Parser<Input>
    for TokensCmp<C, T, Input>
where
    T::Item: Drop,
{
    type PartialState = TokensState;

    ghost lawful = { λ p. ((n : _) (x : T.Item) (t : Input.Token) → IsItemAt T.is_clone T.into_iter_gives T.IntoIter.next_gives p.tokens n x → C.callable p.cmp x t) × IsIterated T.is_clone T.into_iter_gives T.IntoIter.next_gives p.tokens T.IntoIter.can_next T.IntoIter.remaining };

    ghost determined = { λ p. ComparesOnce (iterated_tokens T.is_clone T.into_iter_gives T.IntoIter.next_gives p.tokens (C.returns p.cmp)) };

    ghost meaning = { λ p. token_list Input.Error.observers (iterated_tokens T.is_clone T.into_iter_gives T.IntoIter.next_gives p.tokens (C.returns p.cmp)) None (T.is_clone p.tokens) (λ s. s.matched) (T.is_infallible p.tokens) AddsNothing };

    ghost default_valid = { λ s d. tt };

    ghost laws = { λ p l. token_list_is_meaning Input.Error.observers _ _ _ _ _ _ _ _ (λ s d. d) };

    ghost single = { λ p l d. token_list_means_one Input.Error.observers _ _ _ _ _ _ (λ _. Unit {0}) (λ _. Unit {0}) (iterated_ends_once _ _ _ _ _ _ _ l.1) d };

    #[inline(always)]
    fn parse_mode<M: ParseMode>(
        &mut self,
        mode: M,
        input: &mut Input,
        state: &mut TokensState,
    ) -> ParseResult<T, Input::Error> {
        match_list(
            &self.cmp,
            &self.tokens,
            &self.tokens,
            None,
            mode,
            input,
            state,
        )
    }

    fn add_error(&mut self, error: &mut Tracked<Input::Error>) {}

    fn parser_count(&self) -> ErrorOffset {
        ErrorOffset(1)
    }
}
