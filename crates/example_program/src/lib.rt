//! What the programs share: what becomes of their arguments, how they end, the place of a mistake, the integers of their grammars, and messages from standard input.
//!
//! Proved: no call panics, and each returns. The caret stands under the place, as the contract of [`place::caret_under`] says: before it stands a tab for each tab before the place, and a blank for each other character.
#![tactic(auto)]

pub mod messages;
pub mod number;
pub mod place;

use combine::easy::Errors;
use combine::stream::Kind;
use combine::stream::position::SourcePosition;
use place::{caret_under, line_at};
use std::process::ExitCode;
use std::{env, io};

/// What the arguments of a program say.
pub trait Arguments: Default + Drop {
    /// Returns what they say with one more, or that one where it may not stand there.
    fn with(self, word: String) -> Result<Self, String>;
}

/// No arguments.
impl Arguments for () {
    fn with(self, word: String) -> Result<(), String> {
        Err(word)
    }
}

/// What `--help` says of each program's status.
const STATUSES: &str = "
The status is 0 where nothing is said on standard error, 2 where the arguments
are wrong, and else 1.
";

/// A program.
#[derive(Clone, Copy)]
pub struct Program {
    pub name: &'static str,
    /// What `--help` prints, before what it says of the status.
    pub help: &'static str,
}

impl Program {
    /// Runs `body` on what the arguments say, and returns the status with which the program ends.
    ///
    /// That is 0 where `--help` stands among the arguments, whose text is printed then, and 2 where an argument may not stand there. Where `body` fails it is 1. The last two are said on standard error.
    pub fn run<A: Arguments, F: FnOnce(A) -> io::Result<ExitCode>>(
        self,
        rt: &HostRuntime,
        body: F,
    ) -> ExitCode
        requires { F.IsAlwaysCallable body }
    {
        match self.try_run(rt, body) {
            Ok(status) => status,
            Err(error) => {
                let name = self.name;
                let _unwritten = eprintln!(rt; "{name}: {error}");
                ExitCode::FAILURE
            }
        }
    }

    fn try_run<A: Arguments, F: FnOnce(A) -> io::Result<ExitCode>>(
        self,
        rt: &HostRuntime,
        body: F,
    ) -> io::Result<ExitCode>
        requires { F.IsAlwaysCallable body }
    {
        let Program { name, help } = self;
        let mut arguments = A::default();
        for word in env::args(rt)?.skip(1) {
            if word.as_str() == "--help" {
                print!(rt; "{help}{STATUSES}")?;
                return Ok(ExitCode::SUCCESS);
            }
            match arguments.with(word) {
                Ok(more) => arguments = more,
                Err(word) => {
                    eprintln!(rt; "{name}: unexpected argument `{word}`; try `{name} --help`")?;
                    return Ok(ExitCode::from(2));
                }
            }
        }
        body(arguments)
    }

    /// Says on standard error why and where a text is refused that stands after so many lines: the line and the column, the reasons, the line itself, and a caret under the place. Returns the status of that.
    ///
    /// # Errors
    ///
    /// Where it was no refusal, but no memory was left, that is answered, and nothing is said.
    pub fn print_error(
        self,
        rt: &HostRuntime,
        before: u64,
        text: &str,
        mut error: Errors<char, &str, SourcePosition>,
    ) -> io::Result<ExitCode> {
        if error.kind == Kind::Memory {
            return Err(io::Error::from(io::ErrorKind::OutOfMemory));
        }
        let name = self.name;
        let line = line_at(text, error.position);
        let caret = caret_under(rt.alloc(), line, error.position.column)?;
        error.position.line = error.position.line.saturating_add(before);
        eprint!(rt; "{name}: {error}{line}\n{caret}\n")?;
        Ok(ExitCode::FAILURE)
    }
}
