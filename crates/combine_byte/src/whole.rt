//! The parser of a whole number, of whatever order, size and sign. Our own.
ghost use Rattle.std.specs.Prelude.{◌≡◌, ◌<◌, ◌^◌};
ghost use Rattle.combine_base.specs.Error.Errors.{AddsNothing};
ghost use Rattle.combine_base.specs.Stream.Calls.{Passes};
ghost use Rattle.combine_byte.specs.Numbers.{signed};
ghost use Rattle.combine_byte.specs.WholeNumbers.{EndsTooEarly, number_parser, takes_number, takes_number_is_meaning, takes_number_means_one, worth};

use crate::order::Order;
use combine_base::error::{ErrorOffset, ParseResult, Tracked};
use combine_base::parser::{Outputs, ParseMode, Parser};
use combine_base::refusal::no_token;
use combine_base::stream::{Kind, Stream};
use std::marker::PhantomData;

/// A type of numbers that stand in a fixed number of bytes.
pub trait Number: Drop {
    ghost use Rattle.std.specs.Prelude.{ℕ, ◌≤◌, ◌<◌, ◌^◌};

    /// How many bytes they stand in.
    ghost width: { ℕ };

    /// What a sum of bytes stands for.
    ghost of_sum: { ℕ → Self };

    /// Returns how many bytes they stand in.
    fn width() -> u8
        ensures value { result ≡ width }
        ensures few { result ≤ 8 };

    /// Returns what a sum of bytes stands for.
    fn from_sum(sum: u64) -> Self
        requires { sum < 256 ^ width }
        ensures { result ≡ Self.of_sum sum };
}

impl Number for u16 {
    ghost width = { 2 };

    ghost of_sum = { λ sum. sum };

    #[inline(always)]
    fn width() -> u8 {
        2
    }

    #[inline(always)]
    fn from_sum(sum: u64) -> u16 {
        sum as u16
    }
}

impl Number for u32 {
    ghost width = { 4 };

    ghost of_sum = { λ sum. sum };

    #[inline(always)]
    fn width() -> u8 {
        4
    }

    #[inline(always)]
    fn from_sum(sum: u64) -> u32 {
        sum as u32
    }
}

impl Number for u64 {
    ghost width = { 8 };

    ghost of_sum = { λ sum. sum };

    #[inline(always)]
    fn width() -> u8 {
        8
    }

    #[inline(always)]
    fn from_sum(sum: u64) -> u64 {
        sum
    }
}

impl Number for i16 {
    ghost width = { 2 };

    ghost of_sum = { signed 2 };

    #[inline(always)]
    fn width() -> u8 {
        2
    }

    #[inline(always)]
    fn from_sum(sum: u64) -> i16 {
        (sum as u16).cast_signed()
    }
}

impl Number for i32 {
    ghost width = { 4 };

    ghost of_sum = { signed 4 };

    #[inline(always)]
    fn width() -> u8 {
        4
    }

    #[inline(always)]
    fn from_sum(sum: u64) -> i32 {
        (sum as u32).cast_signed()
    }
}

impl Number for i64 {
    ghost width = { 8 };

    ghost of_sum = { signed 8 };

    #[inline(always)]
    fn width() -> u8 {
        8
    }

    #[inline(always)]
    fn from_sum(sum: u64) -> i64 {
        sum.cast_signed()
    }
}

/// The parser of a number of type `N` whose bytes stand in the order `O`.
///
/// It keeps no state: on need of more the stream is put back, and the next call begins again.
#[derive(Drop)]
#[derive_where(Clone, Copy; O, N)]
pub struct WholeNumber<Input, O, N> {
    reads: PhantomData<Input>,
    order: PhantomData<O>,
    number: PhantomData<N>,
}

/// Takes as many bytes as the number has: accepted committed, with the number that stands in them.
///
/// # Errors
///
/// Too few bytes of ended input are put back and refused peeked, with an error that stands where the parser began. Nothing is said to be expected.
///
/// # Partial input
///
/// Too few bytes of an open piece are put back, and more is asked for.
#[inline]
pub fn whole_number<Input, O, N>() -> WholeNumber<Input, O, N>
    ensures { result ≡ number_parser }
{
    WholeNumber {
        reads: PhantomData,
        order: PhantomData,
        number: PhantomData,
    }
}

/// Returns the result where the bytes ended too early, with the stream put back to where they began.
#[cold]
fn too_few<V, Input: Stream>(
    start: Input::Checkpoint,
    position: Input::Position,
    input: &mut Input,
) -> ParseResult<V, Input::Error>
    ensures passes { Passes (Input.marks input.old) (Input.marks input.new) (Input.failures input.old) (Input.failures input.new) }
    ensures back { EndsTooEarly Input.counts_failures Input.step Input.Error.observers (Input.stands input.old start) position (Input.view input.old) (Input.view input.new) (Input.failures input.old) (Input.failures input.new) result }
{
    if let Err(kind) = input.reset(start) {
        return ParseResult::CommitErr(input.new_error(kind, position));
    }
    no_token(input, Kind::End, position)
}

impl<Input, O, N: Drop> Outputs<Input> for WholeNumber<Input, O, N> {
    type Output = N;
}

impl<Input: Stream, O: Order<Input::Token>, N: Number> Parser<Input> for WholeNumber<Input, O, N> {
    type PartialState = ();

    ghost meaning = { λ p. takes_number Input.Error.observers N.width (worth N.of_sum O.number) };

    #[inline(always)]
    fn parse_mode<M: ParseMode>(
        &mut self,
        mode: M,
        input: &mut Input,
        state: &mut (),
    ) -> ParseResult<N, Input::Error> {
        let start = input.checkpoint();
        let position = input.position();
        let mut sum: u64 = 0;
        'bytes: for count in 0..N::width() {
            match input.uncons() {
                Ok(byte) => sum = O::push(sum, count, byte),
                Err(kind) => {
                    if kind == Kind::End {
                        return too_few(start, position, input);
                    }
                    return ParseResult::CommitErr(input.new_error(kind, position));
                }
            }
        }
        ParseResult::CommitOk(N::from_sum(sum))
    }

    /// Adds nothing.
    #[inline]
    fn add_error(&mut self, error: &mut Tracked<Input::Error>) {}

    #[inline]
    fn parser_count(&self) -> ErrorOffset {
        ErrorOffset(1)
    }

    ghost default_valid = { λ s d. tt };

    ghost laws = { λ p l. takes_number_is_meaning Input.Error.observers N.width (worth N.of_sum O.number) _ _ };

    ghost single = { λ p l d. takes_number_means_one Input.Error.observers N.width (worth N.of_sum O.number) _ };
}
