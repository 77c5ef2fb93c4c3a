//! The bytes of a list, matched one by one. Our own, of which `bytes` and `bytes_cmp` are made.
ghost use Rattle.std.specs.Prelude.{◌≡◌, ◌<◌, ◌^◌, ℕ, None, length};
ghost use Rattle.std.specs.Slice.Iter.{iter_rest};
ghost use Rattle.combine_base.specs.Stream.Calls.{Passes};
ghost use Rattle.combine_token.specs.Token.Lists.ListCalls.{AnswersListCall, ReasonedListCall};
ghost use Rattle.combine_token.specs.Token.Lists.KnownLists.{listed_tokens};
ghost use Rattle.combine_token.specs.Token.Lists.ListMeaning.{token_list, token_list_is_meaning, token_list_means_one};
ghost use Rattle.combine_token.specs.Token.TokenParsers.{matched_before};
ghost use Rattle.combine_char.specs.TextParsers.{bytes_of_parser, fits_of_bytes, in_bytes_parser};
ghost use Rattle.combine_char.specs.SpelledLists.{SaysRange, listed_compares_once, listed_ends_once};

use crate::fits::Fits;
use combine_base::error::{ErrorOffset, Info, ParseError, ParseResult, Tracked};
use combine_base::function::Compare;
use combine_base::parser::{Outputs, ParseMode, Parser};
use combine_base::stream::Stream;
use combine_token::token::{TokensState, match_list};
use std::marker::PhantomData;
use std::slice::Iter;

/// What errors show a list of bytes by: the ranges of a stream of bytes.
pub trait ShowsBytes: Copy {
    ghost use Rattle.std.specs.Prelude.{ℕ, List};

    /// Which range may show these bytes.
    ghost shows: { List ℕ → Self → Type 0 };

    /// Returns a range that shows these bytes.
    fn of_bytes(bytes: &'static [u8]) -> Self
        ensures { shows bytes.now result };
}

impl<'a> ShowsBytes for &'a [u8] {
    ghost shows = { λ bytes range. range.now ≡ bytes };

    #[inline]
    fn of_bytes(bytes: &'static [u8]) -> Self {
        bytes
    }
}

/// As the ranges of a fed stream, which show nothing.
impl ShowsBytes for () {
    ghost shows = { λ bytes range. Unit {0} };

    #[inline]
    fn of_bytes(bytes: &'static [u8]) -> Self {}
}

/// The parser of the bytes of a list, one after another.
///
/// Its value is the list.
///
/// The error of a committed mismatch says which token stands there, at the position where the call began.
///
/// On need of more nothing is left unread: the state keeps how many bytes were matched.
#[derive(Drop)]
pub struct BytesParser<Input, F> {
    bytes: &'static [u8],
    fits: F,
    reads: PhantomData<Input>,
}

/// Takes the bytes of a list, each compared with the token at its place.
#[inline]
pub fn bytes_parser<Input, F>(bytes: &'static [u8], fits: F) -> BytesParser<Input, F>
    ensures { result ≡ in_bytes_parser bytes.entry fits }
{
    BytesParser {
        bytes,
        fits,
        reads: PhantomData,
    }
}

impl<Input, F> Outputs<Input> for BytesParser<Input, F> {
    type Output = &'static [u8];
}

impl<Input: Stream, F: Fits<u8, Input::Token>> Parser<Input> for BytesParser<Input, F>
where
    Input::Range: ShowsBytes,
{
    type PartialState = TokensState;

    ghost lawful = { λ p. (item : ℕ) (token : Input.Token) → F.callable (fits_of_bytes p) item token };

    ghost determined = { λ p. F.determined (fits_of_bytes p) };

    ghost meaning = { λ p. token_list Input.Error.observers (listed_tokens (F.returns (fits_of_bytes p)) (bytes_of_parser p).now) None (λ v. v ≡ bytes_of_parser p) matched_before (Unit {0}) (SaysRange (Input.Range.shows (bytes_of_parser p).now)) };

    #[inline(always)]
    fn parse_mode<M: ParseMode>(
        &mut self,
        mode: M,
        input: &mut Input,
        state: &mut TokensState,
    ) -> ParseResult<&'static [u8], Input::Error> {
        match_bytes(self.bytes, &self.fits, mode, input, state)
    }

    /// Adds the list as a range, as what was expected.
    #[inline]
    fn add_error(&mut self, error: &mut Tracked<Input::Error>) {
        let range = Input::Range::of_bytes(self.bytes);
        error.error.add_expected(&Info::Range(range));
    }

    #[inline]
    fn parser_count(&self) -> ErrorOffset {
        ErrorOffset(1)
    }

    ghost default_valid = { λ s d. tt };

    ghost laws = { λ p l. token_list_is_meaning Input.Error.observers _ _ _ _ _ _ _ _ (λ s d. d) };

    ghost single = { λ p l d. token_list_means_one Input.Error.observers _ _ _ _ _ _ (λ _. Unit {0}) (λ _. Unit {0}) (listed_ends_once _ _) (listed_compares_once _ _ (F.single (fits_of_bytes p) d)) };
}

/// Makes one call of a parser of the bytes of a list.
#[inline(always)]
fn match_bytes<F, Input: Stream, M: ParseMode>(
    bytes: &'static [u8],
    fits: &F,
    mode: M,
    input: &mut Input,
    state: &mut TokensState,
) -> ParseResult<&'static [u8], Input::Error>
where
    F: Compare<u8, Input::Token>,
    requires { (item : ℕ) (token : Input.Token) → F.callable fits.now item token }
    ensures passes { Passes (Input.marks input.old) (Input.marks input.new) (Input.failures input.old) (Input.failures input.new) }
    ensures answers { AnswersListCall Input.StreamOnce Input.Error.observers (listed_tokens (F.returns fits.now) bytes.now) None (λ v. v ≡ bytes.entry) (Unit {0}) (M.first mode) state.old state.new input.old input.new result }
    ensures refuses { ReasonedListCall Input.StreamOnce Input.Error.observers (listed_tokens (F.returns fits.now) bytes.now) None (M.first mode) state.old input.old input.new result }
{
    let items = listed_items(bytes);
    match_list(
        &|item: &u8, token: Input::Token| -> bool
            requires { F.callable fits.now item.now token }
            ensures { F.returns fits.entry.now item.now token result }
        { fits.fits(*item, token) },
        &items,
        &bytes,
        None,
        mode,
        input,
        state,
    )
}

/// Returns an iterator of the bytes of a list, which are fewer than 2^64.
#[inline(always)]
fn listed_items(bytes: &'static [u8]) -> Iter<'static, u8>
    ensures rest { iter_rest result ≡ bytes.now }
    ensures few { length bytes.now < 2 ^ 64 }
{
    bytes.iter()
}
