//! Repetitions: counted, separated, folded, up to an end, and one for each item.
ghost use Rattle.std.specs.Prelude.{◌≤◌};

use crate::rows::{Driver, Lasting, Rows};
use combine::error::ParseError;
use combine::parser::byte::{ShowsBytes, bytes, digit};
use combine::parser::combinator::{attempt, map, recognize};
use combine::parser::repeat::{
    chainl1, chainr1, count, count_min_max, escaped, many, many1, repeat_until, sep_by, sep_by1,
    sep_count_min_max, sep_end_by, skip_many1, take_until,
};
use combine::parser::token::{one_of, token, value};
use combine::parser::{Parser, char};
use combine::stream::position::{SliceStream, TextStream};
use combine::stream::{MaybePartialStream, Stream};
use std::alloc::{AllocError, Global};

fn counted<Input: Stream<Token = u8>, D: Driver<Input>>(alloc: Global, rows: &mut D)
where
    Input::Error: ParseError<u8, Input::Range, Input::Position>,
{
    let a = token(b'a');
    let one = value(b'1');
    rows.check(
        count_min_max::<Vec<u8>, _>(alloc, 2, 2, a),
        &[
            ("aaab", "[aa] taken 2 committed"),
            ("ab", "refused committed"),
        ],
    );
    rows.check(
        count::<Vec<u8>, _>(alloc, 0, a),
        &[("aaab", "[] taken 0 peeked")],
    );
    rows.check(
        count_min_max::<Vec<u8>, _>(alloc, 2, 2, one),
        &[("a", "[11] taken 0 peeked"), ("", "[11] taken 0 peeked")],
    );
    rows.check(
        many::<Vec<u8>, _>(alloc, one),
        &[("", "refused committed"), ("a", "refused committed")],
    )
}

fn separated<Input: Stream<Token = u8>, D: Driver<Input>>(alloc: Global, rows: &mut D)
where
    Input::Error: ParseError<u8, Input::Range, Input::Position>,
{
    rows.check(
        sep_by1::<Vec<u8>, _, _>(alloc, digit(), token(b',')),
        &[("1,2", "[12] taken 3 committed")],
    );
    rows.check(
        sep_by1::<Vec<u8>, _, _>(alloc, value(b'1'), value(b'2')),
        &[("", "refused committed"), ("a", "refused committed")],
    );
    rows.check(
        sep_by::<Vec<u8>, _, _>(alloc, digit(), token(b',')),
        &[("", "[] taken 0 peeked"), ("1,", "refused committed")],
    );
    rows.check(
        sep_end_by::<Vec<u8>, _, _>(alloc, digit(), token(b';')),
        &[
            ("1;2;3;", "[123] taken 6 committed"),
            ("1;2;3", "[123] taken 5 committed"),
            ("1;;2", "[1] taken 2 committed"),
        ],
    )
}

/// Rows of so many digits, with a comma between two.
fn digits<Input: Stream<Token = u8>, D: Driver<Input>, T: Lasting>(
    alloc: Global,
    rows: &mut D,
    min: usize,
    max: usize,
    wanted: &[(T, T)],
)
where
    Input::Error: ParseError<u8, Input::Range, Input::Position>,
    requires { min ≤ max }
{
    rows.check(
        sep_count_min_max::<Vec<u8>, _, _>(alloc, min, max, digit(), token(b',')),
        wanted,
    )
}

fn separated_counts<Input: Stream<Token = u8>, D: Driver<Input>>(alloc: Global, rows: &mut D)
where
    Input::Error: ParseError<u8, Input::Range, Input::Position>,
{
    let two_or_three = [
        ("1,2,3,4", "[123] taken 5 committed"),
        ("1", "refused committed"),
        ("", "refused peeked"),
        ("1,2", "[12] taken 3 committed"),
    ];
    digits(alloc, rows, 2, 3, &two_or_three);
    digits(alloc, rows, 1, 3, &[("1,", "refused committed")]);
    digits(alloc, rows, 0, 0, &[("1", "[] taken 0 peeked")]);
    digits(alloc, rows, 1, 1, &[("1", "[1] taken 1 committed")]);
    rows.check(
        sep_count_min_max::<Vec<u8>, _, _>(alloc, 1, 3, value(b'a'), value(b'b')),
        &[("", "refused committed"), ("a", "refused committed")],
    )
}

fn chains<Input: Stream<Token = u8>, D: Driver<Input>>(alloc: Global, rows: &mut D)
where
    Input::Error: ParseError<u8, Input::Range, Input::Position>,
{
    let number = map(digit(), |digit: u8| i64::from(digit) - 48);
    let minus = map(token(b'-'), |_minus: u8| {
        |left: i64, right: i64| left.saturating_sub(right)
    });
    rows.check(chainl1(number, minus), &[("9-3-5", "1 taken 5 committed")]);
    let number = map(digit(), |digit: u8| u32::from(digit.saturating_sub(48)));
    let power = map(token(b'^'), |_power: u8| {
        |left: u32, right: u32| left.saturating_pow(right)
    });
    rows.check(
        chainr1(alloc, number, power),
        &[
            ("2^3^2", "512 taken 5 committed"),
            ("2^", "refused committed"),
        ],
    )
}

/// Rows of what stands before this end.
fn up_to<Input: Stream<Token = u8>, P: Parser<Input> + Drop, D: Driver<Input>, T: Lasting>(
    alloc: Global,
    rows: &mut D,
    end: P,
    wanted: &[(T, T)],
)
    requires { P.lawful end }
{
    rows.check(take_until::<Vec<u8>, _, _, _>(alloc, end), wanted)
}

fn up_to_an_end<Input: Stream<Token = u8>, D: Driver<Input>>(alloc: Global, rows: &mut D)
where
    Input::Range: ShowsBytes,
    Input::Error: ParseError<u8, Input::Range, Input::Position>,
{
    up_to::<Input, _, _, _>(alloc, rows, digit(), &[("abc", "refused peeked")]);
    up_to::<Input, _, _, _>(alloc, rows, token(b'a'), &[("a", "[] taken 0 committed")]);
    let tag = attempt(bytes(b"TAG"));
    up_to::<Input, _, _, _>(
        alloc,
        rows,
        tag,
        &[("123TATAG", "[123TA] taken 5 committed")],
    );
    let tag = bytes(b"TAG");
    up_to::<Input, _, _, _>(alloc, rows, tag, &[("123TATAG", "refused committed")]);
    rows.check(
        repeat_until::<Vec<u8>, _, _, _>(alloc, digit(), token(b';')),
        &[
            ("12;", "[12] taken 2 committed"),
            (";", "[] taken 0 committed"),
            ("12x", "refused peeked"),
            ("12", "refused peeked"),
        ],
    )
}

fn of_characters<Input: Stream<Token = char>, D: Driver<Input>>(alloc: Global, rows: &mut D)
where
    Input::Error: ParseError<char, Input::Range, Input::Position>,
{
    let word = many1::<String, _>(alloc, char::letter());
    let words = sep_by::<Vec<String>, _, _>(alloc, word, char::space());
    rows.check(
        map(words, |mut words: Vec<String>| words.pop()),
        &[("Pick up that word!", "word taken 17 committed")],
    );
    rows.check(
        escaped(char::letter(), '\\', one_of("nr".chars())),
        &[("ab\\nc\"", "() taken 5 committed")],
    );
    rows.check(
        recognize::<String, _>(
            alloc,
            (
                skip_many1(char::digit()),
                token('.'),
                skip_many1(char::digit()),
            ),
        ),
        &[("123.45", "123.45 taken 6 committed")],
    )
}

#[test]
fn repetitions(rt: HostRuntime) -> Result<(), AllocError> {
    let alloc = rt.alloc();
    let mut rows = Rows::new(alloc);
    counted::<MaybePartialStream<SliceStream<'static, u8>>, Rows>(alloc, &mut rows);
    separated::<MaybePartialStream<SliceStream<'static, u8>>, Rows>(alloc, &mut rows);
    separated_counts::<MaybePartialStream<SliceStream<'static, u8>>, Rows>(alloc, &mut rows);
    chains::<MaybePartialStream<SliceStream<'static, u8>>, Rows>(alloc, &mut rows);
    up_to_an_end::<MaybePartialStream<SliceStream<'static, u8>>, Rows>(alloc, &mut rows);
    of_characters::<MaybePartialStream<TextStream<'static>>, Rows>(alloc, &mut rows);
    rows.finish(&rt)
}
