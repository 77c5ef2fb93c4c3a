//! Reads a message from standard input piece by piece, and writes a line for each piece that needs more and one for the decision.
//!
//! The arguments are up to 64 piece sizes in bytes, and before them perhaps `limit=N`: at most N bytes are then ever unread. The status is 0 where a message is accepted and 1 where it is refused; where the program gives up it is 2, with one line on standard error.
//!
//! With `frames` before the sizes it reads frames, one after another, and writes a line for each message. The status is then 0 where the messages are all of the input, and 1 where something stands after them.
#![tactic(auto)]

use feedline_core::{Fault, read_args, read_input, run_frames, run_limited};
use std::env;
use std::io::ErrorKind;
use std::process::ExitCode;

fn main(rt: HostRuntime) -> ExitCode {
    match answer(&rt) {
        Ok(true) => ExitCode::SUCCESS,
        Ok(false) => ExitCode::FAILURE,
        Err(fault) => {
            let _unwritten = eprintln!(rt; "{fault}");
            ExitCode::from(2)
        }
    }
}

/// Whether the message of standard input is accepted, or its frames are complete.
fn answer(rt: &HostRuntime) -> Result<bool, Fault> {
    let words = words(rt)?;
    let mut texts: Vec<&str> = Vec::new(rt.alloc());
    for word in &words {
        if texts.push(word.as_str()).is_err() {
            return Err(Fault::Memory);
        }
    }
    let args = read_args(rt.alloc(), &texts)?;
    let input = read_input(rt.alloc(), rt.stdin())?;
    if args.frames {
        return run_frames(rt.alloc(), &args.sizes, &input, &mut rt.stdout());
    }
    run_limited(
        rt.alloc(),
        &args.sizes,
        args.limit,
        &input,
        &mut rt.stdout(),
    )
}

/// The arguments after the program's name; one that isn't UTF-8 is a bad argument.
fn words(rt: &HostRuntime) -> Result<Vec<String>, Fault> {
    let given = env::args(rt).map_err(|error| match error.kind() {
        ErrorKind::OutOfMemory => Fault::Memory,
        _ => Fault::Argument,
    })?;
    let mut words = Vec::new(rt.alloc());
    for word in given.skip(1) {
        if words.push(word).is_err() {
            return Err(Fault::Memory);
        }
    }
    Ok(words)
}
