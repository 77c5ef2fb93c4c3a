//! What stands before the first place of some bytes.
ghost use Rattle.std.specs.Prelude.{◌≡◌};
ghost use Rattle.combine_byte.specs.Search.SearchParsers.{until_needle_of, until_one_of, until_three_of, until_two_of};

pub mod types;

use crate::bytes::{ByteOf, FindBytes, Needle};
use crate::find::{One, Three, Two};
use crate::search::Searching;
use std::marker::PhantomData;
use types::{TakeUntilByte, TakeUntilByte2, TakeUntilByte3, TakeUntilBytes};

/// Takes what stands before the first byte that is `wanted`.
///
/// The acceptance is committed, or peeked where nothing stands before it.
///
/// # Errors
///
/// - If the byte stands nowhere in ended input, that is refused, peeked where the input is empty and else committed, with an error of kind `End`.
/// - In a text a place inside a character is refused peeked.
/// - Faults are `Lost`, if the input is shorter than what was searched, `Read` and `Reset` of the stream, and `Memory` if an error finds none for its text.
///
/// # Partial input
///
/// If it isn't found in an open piece more is asked for. The next call doesn't begin again, but passes over what was searched and goes on.
///
/// # Differences from combine
///
/// A refusal's error stands in the crate at the end of what was read. On ended input the crate refuses peeked where nothing stands after what it searched in the piece before.
///
/// # Examples
///
/// ```
/// fn line(input: &[u8]) -> Result<(&[u8], &[u8]), UnexpectedParse> {
///     take_until_byte(b'\n').parse(input)
/// }
/// ```
///
/// On `b"a\nb"` it returns `(b"a", b"\nb")`.
#[inline]
pub fn take_until_byte<Input>(wanted: u8) -> TakeUntilByte<Input>
    ensures { result ≡ until_one_of wanted }
{
    Searching {
        searcher: FindBytes(ByteOf(One(wanted))),
        reads: PhantomData,
    }
}

/// Takes what stands before the first of two bytes.
///
/// It is accepted, refused and put back as `take_until_byte`, and asks for more as that does.
#[inline]
pub fn take_until_byte2<Input>(first: u8, second: u8) -> TakeUntilByte2<Input>
    ensures { result ≡ until_two_of first second }
{
    Searching {
        searcher: FindBytes(ByteOf(Two(first, second))),
        reads: PhantomData,
    }
}

/// Takes what stands before the first of three bytes.
///
/// It is accepted, refused and put back as `take_until_byte`, and asks for more as that does.
#[inline]
pub fn take_until_byte3<Input>(first: u8, second: u8, third: u8) -> TakeUntilByte3<Input>
    ensures { result ≡ until_three_of first second third }
{
    Searching {
        searcher: FindBytes(ByteOf(Three(first, second, third))),
        reads: PhantomData,
    }
}

/// Takes what stands before the first place of `needle`, which is 0 where it is empty, as `take_until_byte` does.
///
/// # Partial input
///
/// On need of more a beginning of the needle may stand at the end of what was read: its bytes are searched again.
#[inline]
pub fn take_until_bytes<'a, Input>(needle: &'a [u8]) -> TakeUntilBytes<'a, Input>
    ensures { result ≡ until_needle_of needle.entry }
{
    Searching {
        searcher: FindBytes(Needle(needle)),
        reads: PhantomData,
    }
}
