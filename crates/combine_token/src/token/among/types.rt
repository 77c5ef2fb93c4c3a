//! The parsers that `one_of` and `none_of` return.
ghost use Rattle.std.specs.Prelude.{◌≡◌, false, if◌then◌else◌, not, true};
ghost use Rattle.std.specs.Iterator.{IsFinite};
ghost use Rattle.combine_base.specs.Predicates.{IsPredicate};
ghost use Rattle.combine_token.specs.Token.Among.{EndsAlways, FindsAmong, among, expects_listed, listed, listed_is_predicate};
ghost use Rattle.combine_token.specs.Token.OneToken.{satisfied, satisfied_is_test, takes_one, takes_one_is_meaning, takes_one_means_one};

use crate::token::among::{expect_each, is_among};
use crate::token::reading::token_if;
use combine_base::error::{ErrorOffset, ParseError, ParseResult, Tracked};
use combine_base::parser::{Outputs, ParseMode, Parser};
use combine_base::stream::{Kind, Stream, StreamOnce};
use std::marker::PhantomData;

/// The parser of [`one_of`](crate::token::one_of).
pub type OneOf<T, Input> = Listed<T, Input, Present>;

/// The parser of [`none_of`](crate::token::none_of).
pub type NoneOf<T, Input> = Listed<T, Input, Absent>;

/// Whether a token has to be among the items of a list, or none of them: a type of no size.
pub trait Presence {
    ghost use Rattle.std.specs.Prelude.{◌≡◌, Bool};

    ghost wanted: { Bool };

    /// Returns whether it has to be there.
    fn is_wanted() -> bool
        ensures { result ≡ wanted };
}

/// A token that is in the list.
#[derive(Drop)]
pub struct Present;

impl Presence for Present {
    ghost wanted = { true };

    #[inline(always)]
    fn is_wanted() -> bool {
        true
    }
}

/// A token that isn't.
#[derive(Drop)]
pub struct Absent;

impl Presence for Absent {
    ghost wanted = { false };

    #[inline(always)]
    fn is_wanted() -> bool {
        false
    }
}

/// The parser of a token that is in a list, or isn't, as `W` says.
#[derive(Drop)]
#[derive_where(Clone, Copy; T)]
pub struct Listed<T, Input, W> {
    pub(super) tokens: T,
    pub(super) reads: PhantomData<Input>,
    pub(super) wants: PhantomData<W>,
}

impl<Input: StreamOnce, T, W> Outputs<Input> for Listed<T, Input, W> {
    type Output = Input::Token;
}

impl<Input: Stream, T: Clone + IntoIterator<Item = Input::Token>, W: Presence> Parser<Input>
    for Listed<T, Input, W>
where
    Input::Token: PartialEq,
{
    type PartialState = ();

    ghost lawful = { λ p. EndsAlways T.is_clone T.into_iter_gives T.IntoIter.next_gives p.tokens T.IntoIter.can_next T.IntoIter.remaining };

    ghost determined = { λ p. IsPredicate (among T.is_clone T.into_iter_gives T.IntoIter.next_gives p.tokens Input.Token.eq) };

    ghost meaning = { λ p. takes_one Input.Error.observers (satisfied (listed T.is_clone T.into_iter_gives T.IntoIter.next_gives p.tokens W.wanted Input.Token.eq)) (T.is_infallible p.tokens) (expects_listed T.is_clone T.into_iter_gives T.IntoIter.next_gives p.tokens W.wanted) };

    #[inline(always)]
    fn parse_mode<M: ParseMode>(
        &mut self,
        mode: M,
        input: &mut Input,
        state: &mut (),
    ) -> ParseResult<Input::Token, Input::Error> {
        let items = match self.tokens.clone() {
            Ok(list) => list.into_iter(),
            Err(_refused) => {
                return ParseResult::CommitErr(input.new_error(Kind::Memory, input.position()));
            }
        };
        token_if(
            move |token: Input::Token| -> bool
                requires { T.IntoIter.can_next items × IsFinite (T.IntoIter.remaining items) }
                ensures { FindsAmong T.IntoIter.next_gives (λ x. Input.Token.eq x token) items (if W.wanted then result else not result) }
            {
                if W::is_wanted() {
                    is_among(items, token)
                } else {
                    !is_among(items, token)
                }
            },
            input,
        )
    }

    /// Adds each item, in order, if one is wanted; else nothing.
    #[inline]
    fn add_error(&mut self, error: &mut Tracked<Input::Error>) {
        if W::is_wanted() {
            match self.tokens.clone() {
                Ok(list) => expect_each(list.into_iter(), &mut error.error),
                Err(_refused) => error.error.out_of_memory(),
            }
        }
    }

    #[inline]
    fn parser_count(&self) -> ErrorOffset {
        ErrorOffset(1)
    }

    ghost default_valid = { λ s d. tt };

    ghost laws = { λ p l. takes_one_is_meaning Input.Error.observers (satisfied (listed T.is_clone T.into_iter_gives T.IntoIter.next_gives p.tokens W.wanted Input.Token.eq)) _ _ _ _ };

    ghost single = { λ p l d. takes_one_means_one Input.Error.observers (satisfied (listed T.is_clone T.into_iter_gives T.IntoIter.next_gives p.tokens W.wanted Input.Token.eq)) _ _ _ (satisfied_is_test _ (listed_is_predicate _ _ _ _ W.wanted _ d)) };
}
