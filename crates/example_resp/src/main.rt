//! `resp` reads replies of RESP, the protocol of Redis, from standard input in pieces, and prints each as soon as it has come; `resp --help` says more.
//!
//! Replies nest, and are read by `nested`: no input overflows the call stack. A length takes room for no more than 1,024 bytes at once, whatever it is.
//!
//! Proved: no input makes it crash, and it ends when its input does.
#![tactic(auto)]

mod reply;

use example_program::Program;
use reply::print_replies;
use std::process::ExitCode;

const RESP: Program = Program {
    name: "resp",
    help: "Usage: resp < FILE

Reads replies of RESP from standard input, and prints each as soon as it has
come. Arrays may stand up to 32 inside one another.

What is no reply ends the program, and is said on standard error.
",
};

fn main(rt: HostRuntime) -> ExitCode {
    RESP.run(&rt, |(): ()| print_replies(&rt))
}
