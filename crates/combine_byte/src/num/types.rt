//! The parsers that the functions of `num` return.

use crate::order::{BigEndian, LittleEndian};
use crate::whole::WholeNumber;

/// The parser of [`be_u16`](crate::num::be_u16).
pub type BeU16<Input> = WholeNumber<Input, BigEndian, u16>;

/// The parser of [`le_u16`](crate::num::le_u16).
pub type LeU16<Input> = WholeNumber<Input, LittleEndian, u16>;

/// The parser of [`be_i16`](crate::num::be_i16).
pub type BeI16<Input> = WholeNumber<Input, BigEndian, i16>;

/// The parser of [`le_i16`](crate::num::le_i16).
pub type LeI16<Input> = WholeNumber<Input, LittleEndian, i16>;

/// The parser of [`be_u32`](crate::num::be_u32).
pub type BeU32<Input> = WholeNumber<Input, BigEndian, u32>;

/// The parser of [`le_u32`](crate::num::le_u32).
pub type LeU32<Input> = WholeNumber<Input, LittleEndian, u32>;

/// The parser of [`be_i32`](crate::num::be_i32).
pub type BeI32<Input> = WholeNumber<Input, BigEndian, i32>;

/// The parser of [`le_i32`](crate::num::le_i32).
pub type LeI32<Input> = WholeNumber<Input, LittleEndian, i32>;

/// The parser of [`be_u64`](crate::num::be_u64).
pub type BeU64<Input> = WholeNumber<Input, BigEndian, u64>;

/// The parser of [`le_u64`](crate::num::le_u64).
pub type LeU64<Input> = WholeNumber<Input, LittleEndian, u64>;

/// The parser of [`be_i64`](crate::num::be_i64).
pub type BeI64<Input> = WholeNumber<Input, BigEndian, i64>;

/// The parser of [`le_i64`](crate::num::le_i64).
pub type LeI64<Input> = WholeNumber<Input, LittleEndian, i64>;
