//! Binary integers of 2, 4 and 8 bytes.
//!
//! Each takes as many bytes as its number has: accepted committed, with the number that stands in them.
//!
//! # Errors
//!
//! Too few bytes of ended input are put back and refused peeked, with an error that stands where the parser began. Nothing is said to be expected.
//!
//! # Partial input
//!
//! Too few bytes of an open piece are put back, more is asked for, and the next call begins again.
//!
//! # Differences from combine
//!
//! The crate's error stands at the end of what was read, and on need of more it loses the bytes that it took.
ghost use Rattle.std.specs.Prelude.{◌≡◌};
ghost use Rattle.combine_byte.specs.WholeNumbers.{number_parser};

pub mod laws;
pub mod types;

use crate::whole::whole_number;
use types::{BeI16, BeI32, BeI64, BeU16, BeU32, BeU64, LeI16, LeI32, LeI64, LeU16, LeU32, LeU64};

/// Takes two bytes, the highest first.
///
/// # Examples
///
/// ```
/// fn length(input: &[u8]) -> Result<(u16, &[u8]), UnexpectedParse> {
///     be_u16().parse(input)
/// }
/// ```
///
/// On `b"\x01\x02a"` it returns `(258, b"a")`.
#[inline]
pub fn be_u16<Input>() -> BeU16<Input>
    ensures { result ≡ number_parser }
{
    whole_number()
}

/// Takes two bytes, the lowest first.
#[inline]
pub fn le_u16<Input>() -> LeU16<Input>
    ensures { result ≡ number_parser }
{
    whole_number()
}

/// Takes two bytes, the highest first; the value is the number less 256^2 where it is at least half of that.
#[inline]
pub fn be_i16<Input>() -> BeI16<Input>
    ensures { result ≡ number_parser }
{
    whole_number()
}

/// Takes two bytes, the lowest first; the value is the number less 256^2 where it is at least half of that.
#[inline]
pub fn le_i16<Input>() -> LeI16<Input>
    ensures { result ≡ number_parser }
{
    whole_number()
}

/// Takes four bytes, the highest first.
#[inline]
pub fn be_u32<Input>() -> BeU32<Input>
    ensures { result ≡ number_parser }
{
    whole_number()
}

/// Takes four bytes, the lowest first.
#[inline]
pub fn le_u32<Input>() -> LeU32<Input>
    ensures { result ≡ number_parser }
{
    whole_number()
}

/// Takes four bytes, the highest first; the value is the number less 256^4 where it is at least half of that.
#[inline]
pub fn be_i32<Input>() -> BeI32<Input>
    ensures { result ≡ number_parser }
{
    whole_number()
}

/// Takes four bytes, the lowest first; the value is the number less 256^4 where it is at least half of that.
#[inline]
pub fn le_i32<Input>() -> LeI32<Input>
    ensures { result ≡ number_parser }
{
    whole_number()
}

/// Takes eight bytes, the highest first.
#[inline]
pub fn be_u64<Input>() -> BeU64<Input>
    ensures { result ≡ number_parser }
{
    whole_number()
}

/// Takes eight bytes, the lowest first.
#[inline]
pub fn le_u64<Input>() -> LeU64<Input>
    ensures { result ≡ number_parser }
{
    whole_number()
}

/// Takes eight bytes, the highest first; the value is the number less 256^8 where it is at least half of that.
#[inline]
pub fn be_i64<Input>() -> BeI64<Input>
    ensures { result ≡ number_parser }
{
    whole_number()
}

/// Takes eight bytes, the lowest first; the value is the number less 256^8 where it is at least half of that.
#[inline]
pub fn le_i64<Input>() -> LeI64<Input>
    ensures { result ≡ number_parser }
{
    whole_number()
}
