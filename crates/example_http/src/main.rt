//! `http` reads heads of requests from standard input, and prints their parts; `http --help` says more.
//!
//! The parts are parts of the input, and nothing of it is copied before it is printed.
//!
//! Proved: no input makes it crash, and it ends when its input does.
#![tactic(auto)]

mod head;

use combine::error::UnexpectedParse;
use combine::stream::{Kind, Positioned, RangeStream, position};
use example_program::Program;
use head::{Head, read_head};
use std::io::{self, Read};
use std::process::ExitCode;

const HTTP: Program = Program {
    name: "http",
    help: "Usage: http < FILE

Reads heads of HTTP/1 requests from standard input, one after another, and
prints each: its method, target and version, and a line for each header.

A head is a request line, a line for each header, and an empty line; lines end
with CR LF. A body after a head isn't passed over.

What is no head is said on standard error, with the line where it is none.
",
};

fn main(rt: HostRuntime) -> ExitCode {
    HTTP.run(&rt, |(): ()| print_heads(&rt))
}

/// Prints each head of standard input, up to what is none.
fn print_heads(rt: &HostRuntime) -> io::Result<ExitCode> {
    let mut input = Vec::new(rt.alloc());
    rt.reader().read_to_end(&mut input)?;
    let mut stream = position::Stream::new(input.as_slice());
    // Each head takes a byte at least.
    for _head in &input {
        if stream.range().is_empty() {
            break;
        }
        match read_head(rt.alloc(), &mut stream) {
            Ok(head) => print_head(rt, &head)?,
            Err(UnexpectedParse(Kind::Memory)) => {
                return Err(io::Error::from(io::ErrorKind::OutOfMemory));
            }
            Err(_refusal) => {
                let line = line_at(&input, stream.position());
                eprintln!(rt; "http: line {line}: no head of a request")?;
                return Ok(ExitCode::FAILURE);
            }
        }
    }
    Ok(ExitCode::SUCCESS)
}

/// Prints a head, and an empty line after it.
fn print_head(rt: &HostRuntime, head: &Head<&[u8]>) -> io::Result<()> {
    let method = String::from_utf8_lossy(rt.alloc(), head.method)?;
    let target = String::from_utf8_lossy(rt.alloc(), head.target)?;
    let version = String::from_utf8_lossy(rt.alloc(), head.version)?;
    println!(rt; "{method} {target} {version}")?;
    for header in &head.headers {
        let name = String::from_utf8_lossy(rt.alloc(), header.name)?;
        let value = String::from_utf8_lossy(rt.alloc(), header.value)?;
        println!(rt; "  {name}: {value}")?;
    }
    println!(rt; "")
}

/// Returns the number of the line at an index, counted from 1.
fn line_at(input: &[u8], index: usize) -> usize {
    let before = input.iter().take(index);
    before
        .filter(|byte| **byte == b'\n')
        .count()
        .saturating_add(1)
}
