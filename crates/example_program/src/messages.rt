//! Messages from standard input, which comes in pieces.
ghost use Rattle.combine_decode.specs.Messages.{IsMade};

use combine::Maker;
use combine::decode::{BatchEnd, Decoder};
use combine::parser::Parser;
use combine::stream::fed;
use std::io;
use std::io::Read;
use std::process::ExitCode;

/// How many bytes are asked for at once.
const PIECE: usize = 4096;

/// Prints the text of each message of standard input as soon as it has come. `maker` makes the parser of each, and `what` is what one is called.
///
/// # Errors
///
/// After the messages before it, what is none is refused with an error that says which it would be, and so is an input that ends within one.
pub fn print_messages<
    P: Parser<fed::Stream<u8>, Output = String> + Drop,
    M: Maker<Output = P> + Drop,
>(rt: &HostRuntime, what: &str, maker: M) -> io::Result<ExitCode>
    requires callable { M.callable maker }
    requires lawful { IsMade (M.returns maker) P.lawful }
{
    let mut input = rt.reader();
    let mut piece = [0u8; PIECE];
    let mut decoder = Decoder::new(rt.alloc(), maker);
    let mut number: u64 = 1;
    'pieces: for _piece in 0..u64::MAX {
        let count = input.read(&mut piece)?;
        if count == 0 {
            break;
        }
        let Ok(batch) = decoder.feed(&piece[..count]) else {
            return Err(io::Error::from(io::ErrorKind::OutOfMemory));
        };
        for text in &batch.messages {
            print!(rt; "{text}")?;
            number = number.saturating_add(1);
        }
        if batch.end != BatchEnd::More {
            let said = format!(in rt.alloc(); "{what} {number} is malformed")?;
            return Err(io::Error::other(said.as_str()));
        }
    }
    if decoder.at_boundary() {
        return Ok(ExitCode::SUCCESS);
    }
    let said = format!(in rt.alloc(); "the input ends within {what} {number}")?;
    Err(io::Error::other(said.as_str()))
}
