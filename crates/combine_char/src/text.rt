//! The characters of a text, matched one by one. Our own, of which `string` and `string_cmp` are made.
ghost use Rattle.std.specs.Prelude.{◌≡◌, ◌<◌, ◌^◌, ℕ, None, length};
ghost use Rattle.std.specs.Str.{IsUtf8, chars};
ghost use Rattle.std.specs.Str.Iter.{chars_rest};
ghost use Rattle.combine_base.specs.Error.Errors.{Only};
ghost use Rattle.combine_base.specs.Error.Items.{Expected, Fixed};
ghost use Rattle.combine_base.specs.Stream.Calls.{Passes};
ghost use Rattle.combine_token.specs.Token.Lists.ListCalls.{AnswersListCall, ReasonedListCall};
ghost use Rattle.combine_token.specs.Token.Lists.KnownLists.{listed_tokens};
ghost use Rattle.combine_token.specs.Token.Lists.ListMeaning.{token_list, token_list_is_meaning, token_list_means_one};
ghost use Rattle.combine_token.specs.Token.TokenParsers.{matched_before};
ghost use Rattle.combine_char.specs.TextParsers.{fits_of_text, in_text_parser, text_of_parser};
ghost use Rattle.combine_char.specs.SpelledLists.{listed_compares_once, listed_ends_once};

use crate::fits::Fits;
use combine_base::error::{ErrorOffset, Info, ParseError, ParseResult, Tracked};
use combine_base::function::Compare;
use combine_base::parser::{Outputs, ParseMode, Parser};
use combine_base::stream::Stream;
use combine_token::token::{TokensState, match_list};
use std::marker::PhantomData;
use std::str::Chars;

/// The parser of the characters of a text, one after another.
///
/// Its value is the text.
///
/// The error of a committed mismatch says which token stands there, at the position where the call began.
///
/// On need of more nothing is left unread: the state keeps how many characters were matched.
#[derive(Drop)]
pub struct TextParser<Input, F> {
    text: &'static str,
    fits: F,
    reads: PhantomData<Input>,
}

/// Takes the characters of a text, each compared with the token at its place.
#[inline]
pub fn text_parser<Input, F>(text: &'static str, fits: F) -> TextParser<Input, F>
    ensures { result ≡ in_text_parser text.entry fits }
{
    TextParser {
        text,
        fits,
        reads: PhantomData,
    }
}

impl<Input, F> Outputs<Input> for TextParser<Input, F> {
    type Output = &'static str;
}

impl<Input: Stream, F: Fits<char, Input::Token>> Parser<Input> for TextParser<Input, F> {
    type PartialState = TokensState;

    ghost lawful = { λ p. (item : ℕ) (token : Input.Token) → F.callable (fits_of_text p) item token };

    ghost determined = { λ p. F.determined (fits_of_text p) };

    ghost meaning = { λ p. token_list Input.Error.observers (listed_tokens (F.returns (fits_of_text p)) (chars (text_of_parser p).now)) None (λ v. v ≡ text_of_parser p) matched_before (Unit {0}) (Only (Expected (Fixed (text_of_parser p).now))) };

    #[inline(always)]
    fn parse_mode<M: ParseMode>(
        &mut self,
        mode: M,
        input: &mut Input,
        state: &mut TokensState,
    ) -> ParseResult<&'static str, Input::Error> {
        match_text(self.text, &self.fits, mode, input, state)
    }

    /// Adds the text, as what was expected.
    #[inline]
    fn add_error(&mut self, error: &mut Tracked<Input::Error>) {
        error.error.add_expected(&Info::Static(self.text));
    }

    #[inline]
    fn parser_count(&self) -> ErrorOffset {
        ErrorOffset(1)
    }

    ghost default_valid = { λ s d. tt };

    ghost laws = { λ p l. token_list_is_meaning Input.Error.observers _ _ _ _ _ _ _ _ (λ s d. d) };

    ghost single = { λ p l d. token_list_means_one Input.Error.observers _ _ _ _ _ _ (λ _. Unit {0}) (λ _. Unit {0}) (listed_ends_once _ _) (listed_compares_once _ _ (F.single (fits_of_text p) d)) };
}

/// Makes one call of a parser of the characters of a text.
#[inline(always)]
fn match_text<F, Input: Stream, M: ParseMode>(
    text: &'static str,
    fits: &F,
    mode: M,
    input: &mut Input,
    state: &mut TokensState,
) -> ParseResult<&'static str, Input::Error>
where
    F: Compare<char, Input::Token>,
    requires { (item : ℕ) (token : Input.Token) → F.callable fits.now item token }
    ensures passes { Passes (Input.marks input.old) (Input.marks input.new) (Input.failures input.old) (Input.failures input.new) }
    ensures answers { AnswersListCall Input.StreamOnce Input.Error.observers (listed_tokens (F.returns fits.now) (chars text.now)) None (λ v. v ≡ text.entry) (Unit {0}) (M.first mode) state.old state.new input.old input.new result }
    ensures refuses { ReasonedListCall Input.StreamOnce Input.Error.observers (listed_tokens (F.returns fits.now) (chars text.now)) None (M.first mode) state.old input.old input.new result }
{
    let items = characters(text);
    match_list(fits, &items, &text, None, mode, input, state)
}

/// Returns the characters of a text, which are fewer than 2^64.
#[inline(always)]
fn characters(text: &'static str) -> Chars<'static>
    ensures rest { chars_rest result ≡ text.now }
    ensures valid { IsUtf8 text.now }
    ensures few { length text.now < 2 ^ 64 }
{
    let _bytes = text.len();
    text.chars()
}
