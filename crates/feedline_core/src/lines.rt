//! The lines that are written.
ghost use Rattle.std.specs.Prelude.{◌≡◌, ◌<◌, MatchResult};
ghost use Rattle.std.specs.Io.KnownBytes.{Appends};
ghost use Rattle.feedline_core.specs.Lines.{more_line, accepted_line, refused_line, hexadecimal_digit, hexadecimal, behind_blank, message_line, message_lines, end_line};

use crate::fault::Fault;
use crate::message::Message;
use std::io::Write;

/// Writes the line for a piece that needs more, with the number of unread bytes.
pub(crate) fn write_more<W: Write>(out: &mut W, unread: usize) -> Result<(), Fault>
    ensures { MatchResult result
        (λ _. Appends (W.contents out.old) (W.contents out.new) (more_line unread))
        (λ why. why ≡ Fault.Write) }
{
    if let Err(_failed) = write!(out, "more {unread}\n") {
        return Err(Fault::Write);
    }
    Ok(())
}

/// Writes the line for an accepted message of that many bytes.
pub(crate) fn write_accepted<W: Write>(
    out: &mut W,
    message: &Message,
    taken: u64,
) -> Result<(), Fault>
    ensures { MatchResult result
        (λ _. Appends (W.contents out.old) (W.contents out.new) (accepted_line message.now taken))
        (λ why. why ≡ Fault.Write) }
{
    match message {
        Message::Set { word, digits } => {
            put(out, b"set ")?;
            put(out, word)?;
            put(out, b" ")?;
            put(out, digits)?;
        }
        Message::Delete { word } => {
            put(out, b"del ")?;
            put(out, word)?;
        }
    }
    if let Err(_failed) = write!(out, " taken {taken}\n") {
        return Err(Fault::Write);
    }
    Ok(())
}

/// Writes the line for a refusal.
pub(crate) fn write_refused<W: Write>(out: &mut W, committed: bool) -> Result<(), Fault>
    ensures { MatchResult result
        (λ _. Appends (W.contents out.old) (W.contents out.new) (refused_line committed))
        (λ why. why ≡ Fault.Write) }
{
    if committed {
        return put(out, b"refused committed\n");
    }
    put(out, b"refused peeked\n")
}

/// Writes a line for each of these messages.
pub(crate) fn write_messages<W: Write>(out: &mut W, messages: &[Vec<u8>]) -> Result<(), Fault>
    ensures { MatchResult result
        (λ _. Appends (W.contents out.old) (W.contents out.new) (message_lines messages.now))
        (λ why. why ≡ Fault.Write) }
{
    'messages: for message in messages {
        write_message(out, message)?;
    }
    Ok(())
}

/// Writes the line of a message: its length, and its bytes, if it has any.
fn write_message<W: Write>(out: &mut W, message: &[u8]) -> Result<(), Fault>
    ensures { MatchResult result
        (λ _. Appends (W.contents out.old) (W.contents out.new) (message_line message.now))
        (λ why. why ≡ Fault.Write) }
{
    let length = message.len();
    if let Err(_failed) = write!(out, "message {length}") {
        return Err(Fault::Write);
    }
    put_behind_blank(out, message)?;
    put(out, b"\n")
}

/// Writes a blank and bytes, if there are any.
fn put_behind_blank<W: Write>(out: &mut W, bytes: &[u8]) -> Result<(), Fault>
    ensures { MatchResult result
        (λ _. Appends (W.contents out.old) (W.contents out.new) (behind_blank bytes.now))
        (λ why. why ≡ Fault.Write) }
{
    if bytes.is_empty() {
        return Ok(());
    }
    put(out, b" ")?;
    put_hexadecimal(out, bytes)
}

/// Writes each byte as two lowercase hexadecimal digits.
fn put_hexadecimal<W: Write>(out: &mut W, bytes: &[u8]) -> Result<(), Fault>
    ensures { MatchResult result
        (λ _. Appends (W.contents out.old) (W.contents out.new) (hexadecimal bytes.now))
        (λ why. why ≡ Fault.Write) }
{
    'bytes: for byte in bytes {
        let digits = [hexadecimal_digit(byte / 16), hexadecimal_digit(byte % 16)];
        put(out, &digits)?;
    }
    Ok(())
}

/// The lowercase hexadecimal digit of a number below 16.
fn hexadecimal_digit(number: u8) -> u8
    requires { number < 16 }
    ensures { result ≡ hexadecimal_digit number }
{
    if number < 10 {
        b'0' + number
    } else {
        b'a' - 10 + number
    }
}

/// Writes the last line: whether the messages are all of the input.
pub(crate) fn write_end<W: Write>(out: &mut W, complete: bool) -> Result<(), Fault>
    ensures { MatchResult result
        (λ _. Appends (W.contents out.old) (W.contents out.new) (end_line complete))
        (λ why. why ≡ Fault.Write) }
{
    if complete {
        return put(out, b"complete\n");
    }
    put(out, b"incomplete\n")
}

fn put<W: Write>(out: &mut W, bytes: &[u8]) -> Result<(), Fault>
    ensures { MatchResult result
        (λ _. Appends (W.contents out.old) (W.contents out.new) bytes.now)
        (λ why. why ≡ Fault.Write) }
{
    match out.write_all(bytes) {
        Ok(()) => Ok(()),
        Err(_failed) => Err(Fault::Write),
    }
}
