//! Which number each parser takes, stated by functions that do nothing: parsers of another order or width would be of a right type too.
ghost use Rattle.combine_base.specs.Parser.Meaning.{MeansSame};
ghost use Rattle.combine_byte.specs.Numbers.{big_endian, little_endian, signed};
ghost use Rattle.combine_byte.specs.WholeNumbers.{number_parser, takes_number, worth};

use super::types::{
    BeI16, BeI32, BeI64, BeU16, BeU32, BeU64, LeI16, LeI32, LeI64, LeU16, LeU32, LeU64,
};
use combine_base::error::ParseError;
use combine_base::parser::Parser;
use combine_base::stream::Stream;

/// The law of those without a sign: that many bytes, and the sum that they make.
#[inline]
pub fn unsigned_numbers<Input: Stream<Token = u8>>()
where
    Input::Error: ParseError<u8, Input::Range, Input::Position>,
    ensures be_u16 { MeansSame (⟦<BeU16<Input> as Parser<Input>>⟧.meaning number_parser) (takes_number Input.Error.observers 2 big_endian) }
    ensures le_u16 { MeansSame (⟦<LeU16<Input> as Parser<Input>>⟧.meaning number_parser) (takes_number Input.Error.observers 2 little_endian) }
    ensures be_u32 { MeansSame (⟦<BeU32<Input> as Parser<Input>>⟧.meaning number_parser) (takes_number Input.Error.observers 4 big_endian) }
    ensures le_u32 { MeansSame (⟦<LeU32<Input> as Parser<Input>>⟧.meaning number_parser) (takes_number Input.Error.observers 4 little_endian) }
    ensures be_u64 { MeansSame (⟦<BeU64<Input> as Parser<Input>>⟧.meaning number_parser) (takes_number Input.Error.observers 8 big_endian) }
    ensures le_u64 { MeansSame (⟦<LeU64<Input> as Parser<Input>>⟧.meaning number_parser) (takes_number Input.Error.observers 8 little_endian) }
{}

/// The law of those with a sign: that many bytes, and the sum that they make, less 256 to their number where it is at least half of that.
#[inline]
pub fn signed_numbers<Input: Stream<Token = u8>>()
where
    Input::Error: ParseError<u8, Input::Range, Input::Position>,
    ensures be_i16 { MeansSame (⟦<BeI16<Input> as Parser<Input>>⟧.meaning number_parser) (takes_number Input.Error.observers 2 (worth (signed 2) big_endian)) }
    ensures le_i16 { MeansSame (⟦<LeI16<Input> as Parser<Input>>⟧.meaning number_parser) (takes_number Input.Error.observers 2 (worth (signed 2) little_endian)) }
    ensures be_i32 { MeansSame (⟦<BeI32<Input> as Parser<Input>>⟧.meaning number_parser) (takes_number Input.Error.observers 4 (worth (signed 4) big_endian)) }
    ensures le_i32 { MeansSame (⟦<LeI32<Input> as Parser<Input>>⟧.meaning number_parser) (takes_number Input.Error.observers 4 (worth (signed 4) little_endian)) }
    ensures be_i64 { MeansSame (⟦<BeI64<Input> as Parser<Input>>⟧.meaning number_parser) (takes_number Input.Error.observers 8 (worth (signed 8) big_endian)) }
    ensures le_i64 { MeansSame (⟦<LeI64<Input> as Parser<Input>>⟧.meaning number_parser) (takes_number Input.Error.observers 8 (worth (signed 8) little_endian)) }
{}
