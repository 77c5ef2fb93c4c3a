//! A line of Apache's combined log. Its parts are parts of the line, so nothing is copied.

use combine::error::UnexpectedParse;
use combine::parser::char::digit;
use combine::parser::choice::or;
use combine::parser::combinator::{from_str, map};
use combine::parser::range::types::{Recognize, TakeWhile1};
use combine::parser::range::{recognize, take_while1};
use combine::parser::repeat::escaped;
use combine::parser::repeat::types::Escaped;
use combine::parser::sequence::skip;
use combine::parser::sequence::types::{Between, Skip};
use combine::parser::token::types::{Any, Token};
use combine::{Function, Parser, any, between, eof, skip_count, token};

/// A line of the log. What isn't known is `-`, as in the line.
#[derive(Clone, Copy, Debug, PartialEq)]
pub struct Entry<'a> {
    pub host: &'a str,
    pub user: &'a str,
    pub time: &'a str,
    pub request: &'a str,
    pub status: u16,
    /// How many bytes were sent, if any.
    pub bytes: Option<u64>,
    pub referer: &'a str,
    pub agent: &'a str,
}

/// A class of characters.
#[derive(Clone, Copy, Drop)]
pub enum Class {
    /// Characters of a part without quotes.
    Word,
    /// Characters of a time.
    Time,
    /// Characters that stand for themselves between quotes.
    Plain,
    Digit,
}

impl Function<char> for Class {
    type Output = bool;

    fn call(&self, character: char) -> bool {
        match self {
            Class::Word => !matches!(character, ' ' | '"'),
            Class::Time => character != ']',
            Class::Plain => !matches!(character, '"' | '\\'),
            Class::Digit => character.is_ascii_digit(),
        }
    }
}

pub type Quoted<I, R> = Between<
    Token<I, char>,
    Token<I, char>,
    Recognize<Escaped<I, TakeWhile1<I, Class>, char, Any<I>>>,
    R,
>;

/// Parses a part between quotes, whose escapes are kept as they stand.
pub fn quoted<I, R>() -> Quoted<I, R> {
    let text = escaped(take_while1(Class::Plain), '\\', any());
    between(token('"'), token('"'), recognize(text))
}

/// Parses a part, and the blank after it.
pub fn part<I, P, A>(parser: P) -> Skip<P, Token<I, char>, A> {
    skip(parser, token(' '))
}

/// What a function read of a line, and the rest of the line.
pub type Read<'a, V> = Result<(V, &'a str), UnexpectedParse>;

/// Reads the host, the identity, which nobody sends, and the user.
fn read_client<'a>(line: &'a str) -> Read<'a, (&'a str, &'a str, &'a str)> {
    let word = || take_while1(Class::Word);
    (part(word()), part(word()), part(word())).parse(line)
}

/// Reads the time and the request.
fn read_request<'a>(line: &'a str) -> Read<'a, (&'a str, &'a str)> {
    let time = between(token('['), token(']'), take_while1(Class::Time));
    (part(time), part(quoted())).parse(line)
}

/// Reads the status, and how many bytes were sent.
fn read_response<'a>(line: &'a str) -> Read<'a, (u16, Option<u64>)> {
    let status = from_str::<_, u16>(recognize(skip_count(3, digit())));
    let none = map(token('-'), |_dash: char| None);
    let count = from_str::<_, u64>(take_while1(Class::Digit));
    let bytes = or(none, map(count, |count: u64| Some(count)));
    (part(status), part(bytes)).parse(line)
}

/// Returns what a line says.
pub fn read_entry<'a>(line: &'a str) -> Result<Entry<'a>, UnexpectedParse> {
    let ((host, _identity, user), line) = read_client(line)?;
    let ((time, request), line) = read_request(line)?;
    let ((status, bytes), line) = read_response(line)?;
    let ((referer, agent), _end) = (part(quoted()), skip(quoted(), eof())).parse(line)?;
    Ok(Entry {
        host,
        user,
        time,
        request,
        status,
        bytes,
        referer,
        agent,
    })
}
