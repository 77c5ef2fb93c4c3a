//! Parsers of ranges, and searches.
ghost use Rattle.std.specs.Prelude.{◌≡◌};
ghost use Rattle.combine_byte.specs.declared.search.TakeRange.TheVariants.{Found};

use crate::promises::puts_back_without_memory;
use combine::error::ParseError;
use combine::parser::byte::num::be_u16;
use combine::parser::byte::{
    take_until_byte, take_until_byte2, take_until_byte3, take_until_bytes,
};
use combine::parser::range::laws::{
    length_prefix_has_one_outcome, slices_are_fair, stable_has_one_outcome, texts_are_fair,
};
use combine::parser::range::{
    TakeRange, length_prefix, range, recognize, recognize_with_value, take, take_fn,
    take_until_range, take_while, take_while1,
};
use combine::parser::token::any;
use combine::stream::{ByteRange, ByteStream, Range, RangeStream};

/// So many items, and what passes a test.
fn beginnings<Input: RangeStream<Token = u8>>()
where
    Input::Range: Range,
    Input::Error: ParseError<u8, Input::Range, Input::Position>,
{
    puts_back_without_memory::<Input, _>(&take(2));
    puts_back_without_memory::<Input, _>(&take_while(|byte: u8| byte.is_ascii_digit()));
    puts_back_without_memory::<Input, _>(&take_while1(|byte: u8| byte.is_ascii_digit()));
}

/// What a parser takes.
fn recognized<Input: RangeStream<Token = u8>>()
where
    Input::Range: Range,
    Input::Error: ParseError<u8, Input::Range, Input::Position>,
{
    let any = any();
    puts_back_without_memory::<Input, _>(&recognize((any, any)));
    puts_back_without_memory::<Input, _>(&recognize_with_value((any, any)));
}

/// A range of bytes, and what stands before one.
fn of_slices() {
    let wanted = b"ab".as_slice();
    slices_are_fair::<u8>(wanted);
    puts_back_without_memory::<&[u8], _>(&range(wanted));
    puts_back_without_memory::<&[u8], _>(&take_until_range(wanted));
}

/// A range of characters, and what stands before one.
fn of_texts() {
    texts_are_fair("ab");
    puts_back_without_memory::<&str, _>(&range("ab"));
    puts_back_without_memory::<&str, _>(&take_until_range("ab"));
}

/// What stands before bytes.
fn before_bytes<Input: ByteStream<Token = u8>>()
where
    Input::Range: ByteRange,
    Input::Error: ParseError<u8, Input::Range, Input::Position>,
{
    puts_back_without_memory::<Input, _>(&take_until_byte(b'a'));
    puts_back_without_memory::<Input, _>(&take_until_byte2(b'a', b'b'));
    puts_back_without_memory::<Input, _>(&take_until_byte3(b'a', b'b', b'c'));
    puts_back_without_memory::<Input, _>(&take_until_bytes(b"ab"));
}

/// What stands before the place that a function finds.
fn found<Input: RangeStream<Token = u8>>()
where
    Input::Range: Range,
    Input::Error: ParseError<u8, Input::Range, Input::Position>,
{
    let second = |_range: Input::Range| -> TakeRange
        ensures { result ≡ Found 1 }
    { TakeRange::Found(1) };
    stable_has_one_outcome::<Input, _, _>(&second);
    puts_back_without_memory::<Input, _>(&take_fn(second));
}

/// A length, and then so many items.
fn prefixed<Input: RangeStream<Token = u8>>()
where
    Input::Range: Range,
    Input::Error: ParseError<u8, Input::Range, Input::Position>,
{
    let length = be_u16();
    length_prefix_has_one_outcome::<Input, _>(&length);
    puts_back_without_memory::<Input, _>(&length_prefix(length));
}
