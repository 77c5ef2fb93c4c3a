//! What errors say, by `easy_parse`.

use crate::rows::{Driver, Rows};
use combine::easy;
use combine::error::ParseError;
use combine::parser::char::{digit, string};
use combine::parser::choice::{choice, or};
use combine::parser::error::{expected, message, silent, unexpected};
use combine::parser::repeat::{count_min_max, many, sep_by1};
use combine::parser::token::types::Token;
use combine::parser::token::{eof, token, value};
use combine::stream::Stream;
use combine::stream::position::TextStream;
use std::alloc::{AllocError, Global};

fn leaves<Input: Stream<Token = char>, D: Driver<Input>>(rows: &mut D)
where
    Input::Error: ParseError<char, Input::Range, Input::Position>,
{
    let a = token('a');
    let b = token('b');
    rows.check(
        eof(),
        &[(
            "x",
            "Parse error at line: 1, column: 1\nUnexpected `x`\nExpected end of input\n",
        )],
    );
    rows.check(
        string("abc"),
        &[(
            "bc",
            "Parse error at line: 1, column: 1\nUnexpected `b`\nExpected abc\n",
        )],
    );
    rows.check(
        or(a, b),
        &[(
            "c",
            "Parse error at line: 1, column: 1\nUnexpected `c`\nExpected `a` or `b`\n",
        )],
    );
    rows.check(
        (a, b),
        &[(
            "ac",
            "Parse error at line: 1, column: 2\nUnexpected `c`\nExpected `b`\n",
        )],
    )
}

fn changed<Input: Stream<Token = char>, D: Driver<Input>>(rows: &mut D)
where
    Input::Error: ParseError<char, Input::Range, Input::Position>,
{
    let a = token('a');
    rows.check(
        expected(a, "letter a"),
        &[(
            "b",
            "Parse error at line: 1, column: 1\nUnexpected `b`\nExpected letter a\n",
        )],
    );
    rows.check(
        message(a, "need a"),
        &[(
            "b",
            "Parse error at line: 1, column: 1\nUnexpected `b`\nExpected `a`\nneed a\n",
        )],
    );
    rows.check(
        silent(a),
        &[("b", "Parse error at line: 1, column: 1\nUnexpected `b`\n")],
    )
}

fn repeated<Input: Stream<Token = char>, D: Driver<Input>>(alloc: Global, rows: &mut D)
where
    Input::Error: ParseError<char, Input::Range, Input::Position>,
{
    rows.check(
        sep_by1::<Vec<char>, _, _>(alloc, digit(), token(',')),
        &[(
            "",
            "Parse error at line: 1, column: 1\nUnexpected end of input\nExpected digit\n",
        )],
    );
    rows.check(
        count_min_max::<Vec<char>, _>(alloc, 2, 2, token('a')),
        &[(
            "ab",
            "Parse error at line: 1, column: 2\nexpected 1 more elements\n",
        )],
    );
    rows.check(
        many::<Vec<char>, _>(alloc, value('1')),
        &[(
            "a",
            "Parse error at line: 1, column: 1\nrepetition takes nothing\n",
        )],
    );
    let nothing: [Token<Input, char>; 0] = [];
    rows.check(
        choice(nothing),
        &[(
            "a",
            "Parse error at line: 1, column: 1\nUnexpected `a`\nparser choice is empty\n",
        )],
    )
}

#[test]
fn errors(rt: HostRuntime) -> Result<(), AllocError> {
    let mut rows = Rows::new(rt.alloc());
    leaves::<easy::Stream<TextStream<'static>>, Rows>(&mut rows);
    changed::<easy::Stream<TextStream<'static>>, Rows>(&mut rows);
    repeated::<easy::Stream<TextStream<'static>>, Rows>(rt.alloc(), &mut rows);
    rows.finish(&rt)
}
