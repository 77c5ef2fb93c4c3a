//! Why the program gives up.
ghost use Rattle.std.specs.Prelude.{◌≡◌, Some};
ghost use Rattle.feedline_core.specs.Faults.{fault_text};

use std::error::Error;
use std::fmt;

/// Why the program gives up: it then writes this text on standard error and ends with status 2.
#[derive(Clone, Copy, Debug, PartialEq, Eq)]
pub enum Fault {
    /// The arguments aren't up to 64 piece sizes, with perhaps a limit or `frames` before them.
    Argument,
    /// The input can't be read.
    Read,
    /// The input is longer than `MAX_INPUT` bytes.
    Input,
    /// A growth was refused.
    Memory,
    /// The output can't be written.
    Write,
    /// A piece and the bytes that are unread before it are more than the limit.
    TooLong,
}

impl Fault {
    /// The line that the program writes, without its end.
    fn text(self) -> &'static str
        ensures { result.now ≡ fault_text self }
    {
        match self {
            Fault::Argument => "feedline: bad argument",
            Fault::Read => "feedline: cannot read",
            Fault::Input => "feedline: input too long",
            Fault::Memory => "feedline: out of memory",
            Fault::Write => "feedline: cannot write",
            Fault::TooLong => "feedline: piece too long",
        }
    }
}

impl fmt::Display for Fault {
    ghost output = { λ fault. Some (fault_text fault) };

    ghost styled_output = { λ fault spec. Some (fault_text fault) };

    fn fmt<W: fmt::Write>(&self, f: &mut fmt::Formatter<W>) -> fmt::Result {
        f.write_str(self.text())
    }
}

impl Error for Fault {}
