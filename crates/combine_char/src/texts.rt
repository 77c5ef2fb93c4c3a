//! The texts of parsers that are no single class.
ghost use Rattle.std.specs.Prelude.{codes};

use crate::class::Text;

/// What `crlf` says was expected.
#[derive(Drop)]
pub struct CrLf;

impl Text for CrLf {
    ghost bytes = { codes "crlf newline" };

    fn text() -> &'static str {
        "crlf newline"
    }
}

/// What `spaces` says was expected.
#[derive(Drop)]
pub struct Spaces;

impl Text for Spaces {
    ghost bytes = { codes "whitespaces" };

    fn text() -> &'static str {
        "whitespaces"
    }
}
