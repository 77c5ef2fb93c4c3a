//! The grammar of a reply.

use combine::nested::{Frame, Next, always, if_else, nested};
use combine::parser::byte::crlf;
use combine::parser::repeat::{count_min_max, many};
use combine::parser::sequence::skip;
use combine::parser::token::{any, one_of, satisfy, token, value};
use example_program::messages::print_messages;
use std::alloc::{AllocError, Global};
use std::io;
use std::process::ExitCode;

/// How many arrays may stand inside one another.
const MOST_ARRAYS: usize = 32;

/// The most bytes of a bulk string, as a server has it.
const MOST_BYTES: i64 = 512 * 1024 * 1024;

/// The most items of an array, as a server has it.
const MOST_ITEMS: i64 = 1024 * 1024;

/// A line: its kind, and what stands after that. The bytes of a bulk string are one of kind `+`.
type Line = (u8, Vec<u8>);

/// What comes of items.
type Then = Result<Next<Items, String>, AllocError>;

/// An array whose items come, or the one reply that isn't in an array.
#[derive(Drop)]
struct Items {
    alloc: Global,
    /// How many are still to come.
    missing: i64,
    /// In how many arrays they stand.
    depth: usize,
    /// The length of the bulk string that comes next, if one does.
    length: Option<usize>,
    /// What is printed of those that have come.
    text: String,
}

impl Items {
    fn new(alloc: Global, missing: i64, depth: usize) -> Items {
        Items {
            alloc,
            missing,
            depth,
            length: None,
            text: String::new(alloc),
        }
    }

    /// Adds an item that is printed as one line, after that label.
    fn add(&mut self, label: &str, line: &[u8]) -> Result<(), AllocError> {
        let line = String::from_utf8_lossy(self.alloc, line)?;
        for _array in 0..self.depth {
            self.text.push_str("  ")?;
        }
        self.text.push_str(label)?;
        self.text.push_str(&line)?;
        self.text.push('\n')?;
        self.missing = self.missing.saturating_sub(1);
        self.length = None;
        Ok(())
    }

    /// What comes of them: where none is missing, what is printed of all.
    fn go_on(self) -> Then {
        if self.missing > 0 {
            return Ok(Next::Stay(self));
        }
        Ok(Next::Close(self.text))
    }
}

impl Frame for Items {
    type Item = Line;

    type Value = String;

    fn take(mut self, (kind, line): Line) -> Then {
        match (kind, number_of(&line)) {
            (b'+', _) => self.add("", &line)?,
            (b'-', _) => self.add("error: ", &line)?,
            (b':', Some(_)) => self.add("integer: ", &line)?,
            (b'$' | b'*', Some(-1)) => self.add("(nil)", b"")?,
            (b'$', Some(length @ 0..=MOST_BYTES)) => self.length = Some(length as usize),
            (b'*', Some(0)) => self.add("array of 0", b"")?,
            (b'*', Some(count @ 1..=MOST_ITEMS)) => {
                self.add("array of ", &line)?;
                let inside = Items::new(self.alloc, count, self.depth.saturating_add(1));
                return Ok(Next::Open(self, inside));
            }
            _ => return Ok(Next::Refuse("number")),
        }
        self.go_on()
    }

    fn join(mut self, value: String) -> Then {
        self.text.push_str(value.as_str())?;
        self.go_on()
    }
}

/// The number that a line says, if it says one.
fn number_of(line: &[u8]) -> Option<i64> {
    let text = str::from_utf8(line).ok()?;
    text.parse::<i64>().ok()
}

/// Prints each reply of standard input as soon as it has come.
pub fn print_replies(rt: &HostRuntime) -> io::Result<ExitCode> {
    let alloc = rt.alloc();
    let maker = move || {
        let kind = one_of([b'+', b'-', b':', b'$', b'*']);
        let text = many::<Vec<u8>, _>(alloc, satisfy(|byte: u8| byte != b'\r'));
        let line = (kind, skip(text, (token(b'\r'), token(b'\n'))));
        let bytes = move |items: &Items| {
            let length = items.length.unwrap_or(0);
            let bytes = count_min_max::<Vec<u8>, _>(alloc, length, length, any());
            (value(b'+'), skip(bytes, crlf()))
        };
        let step = if_else(|items: &Items| items.length.is_some(), bytes, always(line));
        nested(alloc, MOST_ARRAYS, move || Items::new(alloc, 1, 0), step)
    };
    print_messages(rt, "reply", maker)
}
