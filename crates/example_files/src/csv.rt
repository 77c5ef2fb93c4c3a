//! A record of comma-separated values, as RFC 4180 has it: fields that are bare, or between quotes.

use combine::parser::byte::types::{CrLf, Newline};
use combine::parser::byte::{crlf, newline};
use combine::parser::choice::or;
use combine::parser::choice::types::Or;
use combine::parser::combinator::ignore;
use combine::parser::combinator::types::{Ignore, Try};
use combine::parser::repeat::types::{Many, SepBy1};
use combine::parser::sequence::types::{Between, Skip, With};
use combine::parser::sequence::{skip, with};
use combine::parser::token::types::{Eof, NoneOf, Token};
use combine::parser::{Answer, SessionError, parse_pieces};
use combine::{UnexpectedParse, attempt, between, eof, many, none_of, sep_by1, token};
use std::alloc::Global;

pub type Quote<I> = Try<With<Token<I, u8>, Token<I, u8>, u8>>;

pub type Text<I> = Many<Vec<u8>, Or<NoneOf<[u8; 1], I>, Quote<I>>>;

pub type Quoted<I> = Between<Token<I, u8>, Token<I, u8>, Text<I>, Vec<u8>>;

/// Parses a field between quotes, which may have commas and ends of lines; two quotes are one.
pub fn quoted<I>(alloc: Global) -> Quoted<I> {
    let quote = attempt(with(token(b'"'), token(b'"')));
    let text = many(alloc, or(none_of([b'"']), quote));
    between(token(b'"'), token(b'"'), text)
}

pub type Bare<I> = Many<Vec<u8>, NoneOf<[u8; 4], I>>;

/// Parses a field without quotes.
pub fn bare<I>(alloc: Global) -> Bare<I> {
    many(alloc, none_of([b',', b'"', b'\r', b'\n']))
}

pub type End<I> = Or<Ignore<Or<Newline<I>, CrLf<I>>>, Eof<I>>;

/// Parses a line feed, a carriage return and a line feed, or the end of the input.
pub fn end<I>() -> End<I> {
    or(ignore(or(newline(), crlf())), eof())
}

pub type Fields<I> = SepBy1<Vec<Vec<u8>>, Or<Quoted<I>, Bare<I>>, Token<I, u8>>;

pub type Record<I> = Skip<Fields<I>, End<I>, Vec<Vec<u8>>>;

/// Parses the fields of a record, and its end.
pub fn record<I>(alloc: Global) -> Record<I> {
    let fields = sep_by1(alloc, or(quoted(alloc), bare(alloc)), token(b','));
    skip(fields, end())
}

/// Returns the fields of the record with which an input in pieces begins.
pub fn read_record(
    alloc: Global,
    pieces: &[&[u8]],
) -> Result<Answer<Vec<Vec<u8>>, UnexpectedParse>, SessionError> {
    parse_pieces(alloc, record(alloc), pieces)
}
