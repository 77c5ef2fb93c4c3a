//! Single tokens, lists of tokens, and classes.

use crate::rows::{Driver, Rows};
use combine::error::ParseError;
use combine::parser::byte;
use combine::parser::char::{alpha_num, crlf, digit, letter, string};
use combine::parser::choice::{optional, or};
use combine::parser::combinator::{attempt, look_ahead, not_followed_by};
use combine::parser::repeat::many1;
use combine::parser::token::{eof, none_of, one_of, token, tokens_cmp};
use combine::stream::position::{SliceStream, TextStream};
use combine::stream::{MaybePartialStream, Stream};
use std::alloc::{AllocError, Global};

fn of_bytes<Input: Stream<Token = u8>, D: Driver<Input>>(alloc: Global, rows: &mut D)
where
    Input::Error: ParseError<u8, Input::Range, Input::Position>,
{
    rows.check(eof(), &[("", "() taken 0 peeked")]);
    let nothing: [u8; 0] = [];
    rows.check(one_of(nothing), &[("a", "refused peeked")]);
    rows.check(
        many1::<Vec<u8>, _>(alloc, none_of([b'a', b'b', b'c'])),
        &[("xyb", "[xy] taken 2 committed")],
    );
    rows.check(
        byte::space(),
        &[
            ("\u{c}", "\u{c} taken 1 committed"),
            ("\u{b}", "refused peeked"),
        ],
    );
    rows.check(
        byte::crlf(),
        &[("\r", "refused committed"), ("\n", "refused peeked")],
    )
}

/// Checks the rows of a list of letters, in any case.
fn any_case<Input: Stream<Token = u8>, D: Driver<Input>>(
    rows: &mut D,
    list: &'static [u8],
    expected: &[(&'static str, &'static str)],
)
where
    Input::Error: ParseError<u8, Input::Range, Input::Position>,
{
    let in_any_case = |wanted: &u8, byte: u8| wanted.eq_ignore_ascii_case(&byte);
    rows.check(tokens_cmp(list, in_any_case), expected)
}

fn classes<Input: Stream<Token = char>, D: Driver<Input>>(rows: &mut D)
where
    Input::Error: ParseError<char, Input::Range, Input::Position>,
{
    rows.check(letter(), &[("\u{e9}", "\u{e9} taken 1 committed")]);
    rows.check(alpha_num(), &[("\u{663}", "\u{663} taken 1 committed")]);
    rows.check(digit(), &[("\u{663}", "refused peeked")]);
    rows.check(
        crlf(),
        &[("\r", "refused committed"), ("\n", "refused peeked")],
    )
}

fn texts<Input: Stream<Token = char>, D: Driver<Input>>(rows: &mut D)
where
    Input::Error: ParseError<char, Input::Range, Input::Position>,
{
    rows.check(
        or(attempt(string("let")), string("lex")),
        &[("lex", "lex taken 3 committed")],
    );
    rows.check(
        optional(string("hello")),
        &[("world", "- taken 0 peeked"), ("heya", "refused committed")],
    );
    rows.check(optional(token('a')), &[("", "- taken 0 peeked")]);
    rows.check(
        look_ahead(string("test")),
        &[
            ("test str", "test taken 0 peeked"),
            ("tex", "refused committed"),
        ],
    );
    rows.check(
        not_followed_by(string("let")),
        &[("lex", "() taken 0 peeked")],
    )
}

#[test]
fn tokens(rt: HostRuntime) -> Result<(), AllocError> {
    let alloc = rt.alloc();
    let mut rows = Rows::new(alloc);
    of_bytes::<MaybePartialStream<SliceStream<'static, u8>>, Rows>(alloc, &mut rows);
    any_case::<MaybePartialStream<SliceStream<'static, u8>>, Rows>(
        &mut rows,
        b"abc",
        &[("AbC", "abc taken 3 committed")],
    );
    any_case::<MaybePartialStream<SliceStream<'static, u8>>, Rows>(
        &mut rows,
        b"",
        &[("a", " taken 0 peeked"), ("", " taken 0 peeked")],
    );
    classes::<MaybePartialStream<TextStream<'static>>, Rows>(&mut rows);
    texts::<MaybePartialStream<TextStream<'static>>, Rows>(&mut rows);
    rows.finish(&rt)
}
