//! A session, and messages that a decoder gives.

use crate::show::{Show, said};
use combine::decode::{Batch, BatchEnd, DecodeError, frame};
use combine::parser::byte::lower;
use combine::parser::repeat::many1;
use combine::parser::sequence::skip;
use combine::parser::token::{token, value};
use combine::parser::{Answer, Parser, Session, SessionError};
use combine::stream::fed;
use example_callers::decoded::{Answered, all_words, answers};
use std::alloc::{AllocError, Global};
use std::process::Abort;

/// Writes what a decoder gave for each piece.
fn written<V: Show>(alloc: Global, answers: Vec<Answered<V>>) -> Result<String, AllocError> {
    let mut text = String::new(alloc);
    for answered in answers {
        let Answered {
            answer,
            at_boundary,
        } = answered;
        match answer {
            Ok(batch) => {
                batch.messages.show(alloc, &mut text)?;
                show_end(alloc, batch.end, &mut text)?;
            }
            Err(DecodeError::Closed) => text.push_str("closed")?,
            Err(_error) => text.push_str("another error")?,
        }
        text.push_str(if at_boundary { ", all; " } else { "; " })?;
    }
    Ok(text)
}

/// Writes why no more messages follow.
fn show_end(alloc: Global, end: BatchEnd, text: &mut String) -> Result<(), AllocError> {
    match end {
        BatchEnd::More => text.push_str(" more"),
        BatchEnd::Refused { taken, committed } => {
            let end = format!(in alloc; " refused after {taken}{}", said(committed))?;
            text.push_str(end.as_str())
        }
        BatchEnd::EmptyMessage => text.push_str(" empty message"),
    }
}

#[test]
fn messages(rt: HostRuntime) -> Result<(), AllocError> {
    let alloc = rt.alloc();
    let word = move || skip(many1::<Vec<u8>, _>(alloc, lower()), token(b';'));
    let given = answers(alloc, word, &[b"ab;c", b"d;;", b"x"])?;
    assert_eq!(rt;
        written(alloc, given)?.as_str(),
        "[[ab]] more; [[cd]] refused after 0 peeked; closed; "
    );
    let given = answers(alloc, word, &[b"ab;c", b"d1"])?;
    assert_eq!(rt;
        written(alloc, given)?.as_str(),
        "[[ab]] more; [] refused after 2 committed; "
    );
    let given = answers(alloc, || value(b'1'), &[b""])?;
    assert_eq!(rt; written(alloc, given)?.as_str(), "[] empty message, all; ");
    let given = answers(alloc, move || frame(alloc), &[b"\0", b"\x01a\0", b"\0"])?;
    assert_eq!(rt;
        written(alloc, given)?.as_str(),
        "[] more; [[a]] more; [[]] more, all; "
    );
    Ok(())
}

#[test]
fn messages_at_once(rt: HostRuntime) -> Result<(), AllocError> {
    let alloc = rt.alloc();
    let batch = Batch {
        messages: vec![in alloc; b"ab".to_vec(alloc)?, b"cd".to_vec(alloc)?]?,
        end: BatchEnd::More,
    };
    assert_eq!(rt; all_words(alloc, &[b"ab;c", b"d;"]), Ok(batch));
    Ok(())
}

/// Feeds a session of `token(b'a')`.
fn feed_one_token<P: Parser<fed::Stream<u8>, Output = u8> + Drop>(
    rt: &impl Abort,
    alloc: Global,
    parser: P,
)
    requires { P.lawful parser }
{
    let mut session = Session::new(alloc, parser);
    assert_eq!(rt; session.feed(b""), Ok(Answer::More));
    let accepted = Answer::Accepted {
        value: b'a',
        taken: 1,
        committed: true,
    };
    assert_eq!(rt; session.feed(b"ab"), Ok(accepted));
    assert_eq!(rt; session.unread(), b"b".as_slice());
    assert_eq!(rt; session.feed(b"c"), Err(SessionError::Closed));
}

#[test]
fn a_session(rt: HostRuntime) {
    feed_one_token(&rt, rt.alloc(), token(b'a'));
}
