//! Ranges and searches over windows, and integers of bytes.

use crate::rows::{Driver, Lasting, Rows};
use crate::show::Show;
use combine::error::{DetailedError, ParseError};
use combine::parser::byte::num::{be_u16, be_u32, le_u32};
use combine::parser::byte::{take_until_byte, take_until_byte2, take_until_bytes};
use combine::parser::char::digit;
use combine::parser::choice::optional;
use combine::parser::combinator::{attempt, from_str, map};
use combine::parser::range::{
    length_prefix, range, recognize_with_value, take, take_until_range, take_while, take_while1,
};
use combine::parser::repeat::{escaped, many1, skip_many1};
use combine::parser::token::{one_of, satisfy, token, value};
use combine::stream::position::{SliceStream, TextStream};
use combine::stream::{ByteRange, ByteStream, MaybePartialStream, Range, RangeStream, Stream};
use std::alloc::{AllocError, Global};

fn is_digit(byte: u8) -> bool {
    byte.is_ascii_digit()
}

fn beginnings<Input: Stream<Token = u8> + RangeStream, D: Driver<Input>>(rows: &mut D)
where
    Input::Range: Range + Show,
{
    rows.check(
        take_while1(is_digit),
        &[
            ("123abc", "123 taken 3 committed"),
            ("abc", "refused peeked"),
        ],
    );
    rows.check(take_while(is_digit), &[("abc", " taken 0 peeked")]);
    rows.check(
        take(4),
        &[
            ("123abc", "123a taken 4 committed"),
            ("abc", "refused peeked"),
        ],
    );
    rows.check(take(usize::MAX), &[("abc", "refused peeked")]);
    rows.check(length_prefix(value(u128::MAX)), &[("a", "refused peeked")])
}

/// Rows of what stands before these bytes.
fn before<Input: Stream<Token = u8> + ByteStream, D: Driver<Input>, T: Lasting>(
    rows: &mut D,
    bytes: &'static [u8],
    wanted: &[(T, T)],
)
where
    Input::Range: ByteRange + Show,
{
    rows.check(take_until_bytes(bytes), wanted)
}

fn searches<Input: Stream<Token = u8> + ByteStream, D: Driver<Input>>(rows: &mut D)
where
    Input::Range: ByteRange + Show,
{
    before(rows, b"\r\n", &[("abc\r\n", "abc taken 3 committed")]);
    before(rows, b"aaaa", &[("aaabaaaa", "aaab taken 4 committed")]);
    before(rows, b"c12", &[("abc123", "ab taken 2 committed")]);
    before(rows, b"", &[("abc123", " taken 0 peeked")]);
    rows.check(
        take_until_byte(b'x'),
        &[("", "refused peeked"), ("abc", "refused committed")],
    );
    rows.check(
        take_until_byte2(b'\r', b'\n'),
        &[("Hello, world\n", "Hello, world taken 12 committed")],
    )
}

fn lengths<Input: Stream<Token = u8> + RangeStream, D: Driver<Input>>(rows: &mut D)
where
    Input::Range: Range + Show,
    Input::Error: ParseError<u8, Input::Range, Input::Position>,
{
    let digit = satisfy(is_digit);
    rows.check(
        length_prefix(be_u16()),
        &[("\0\u{3}1234", "123 taken 5 committed")],
    );
    let fraction = (attempt(token(b'.')), skip_many1(digit));
    let digits = (skip_many1(digit), optional(fraction));
    rows.check(
        recognize_with_value(map(digits, |parts: ((), Option<(u8, ())>)| parts.1.is_some())),
        &[
            ("1234.0001!", "1234.0001,true taken 9 committed"),
            ("1234.", "refused committed"),
        ],
    )
}

/// Rows of what stands before this text.
fn before_text<
    Input: Stream<Token = char> + RangeStream<Range = &'static str>,
    D: Driver<Input>,
    T: Lasting,
>(rows: &mut D, text: &'static str, wanted: &[(T, T)])
where
    Input::Error: ParseError<char, &'static str, Input::Position>,
{
    rows.check(take_until_range(text), wanted)
}

fn texts<Input: Stream<Token = char> + RangeStream<Range = &'static str>, D: Driver<Input>>(
    rows: &mut D,
)
where
    Input::Error: ParseError<char, &'static str, Input::Position>,
{
    rows.check(
        range(""),
        &[("a", " taken 0 committed"), ("", " taken 0 committed")],
    );
    rows.check(range("hello"), &[("hell\u{ee} world", "refused peeked")]);
    rows.check(take(1), &[("\u{ee}", "refused peeked")]);
    rows.check(
        length_prefix(map(token('2'), |_two: char| 2usize)),
        &[("2a\u{e9}", "refused committed")],
    );
    before_text(
        rows,
        "\"",
        &[("Foo baz bar quux\"", "Foo baz bar quux taken 16 committed")],
    );
    before_text(
        rows,
        "\u{1f980}",
        &[("\u{1f603} a \u{1f980}", "\u{1f603} a  taken 4 committed")],
    );
    before_text(
        rows,
        "===",
        &[(
            "if ((pointless_comparison == 3) === true) {",
            "if ((pointless_comparison == 3)  taken 32 committed",
        )],
    );
    let plain = take_while1(|letter: char| letter != '"' && letter != '\\');
    rows.check(
        escaped(plain, '\\', one_of("nr\"\\".chars())),
        &[("\\", "refused committed")],
    )
}

fn numbers<Input: Stream<Token = char>, E, D: Driver<Input>>(alloc: Global, rows: &mut D)
where
    Input::Error: DetailedError<char, Input::Range, Input::Position, StreamError = E>,
{
    rows.check(
        from_str::<_, i32>(many1::<String, _>(alloc, digit())),
        &[
            ("12345\r\n", "12345 taken 5 committed"),
            ("99999999999", "refused committed"),
        ],
    )
}

fn integers<Input: Stream<Token = u8>, D: Driver<Input>>(rows: &mut D) {
    rows.check(be_u16(), &[("\u{1}\u{2}", "258 taken 2 committed")]);
    rows.check(be_u32(), &[("\0\u{1}\0", "refused peeked")]);
    rows.check(
        le_u32(),
        &[("\u{78}\u{56}\u{34}\u{12}", "305419896 taken 4 committed")],
    )
}

#[test]
fn ranges(rt: HostRuntime) -> Result<(), AllocError> {
    let mut rows = Rows::new(rt.alloc());
    beginnings::<MaybePartialStream<SliceStream<'static, u8>>, Rows>(&mut rows);
    searches::<MaybePartialStream<SliceStream<'static, u8>>, Rows>(&mut rows);
    lengths::<MaybePartialStream<SliceStream<'static, u8>>, Rows>(&mut rows);
    texts::<MaybePartialStream<TextStream<'static>>, Rows>(&mut rows);
    numbers::<MaybePartialStream<TextStream<'static>>, _, Rows>(rt.alloc(), &mut rows);
    integers::<MaybePartialStream<SliceStream<'static, u8>>, Rows>(&mut rows);
    rows.finish(&rt)
}
