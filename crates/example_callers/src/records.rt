//! A binary record.
ghost use Rattle.std.specs.Prelude.{◌≡◌, IfOk};
ghost use Rattle.example_callers.specs.Records.{IsRecord};

use combine::decode::frame;
use combine::decode::laws::frame_is_a_length_and_its_bytes;
use combine::error::UnexpectedParse;
use combine::parser::Parser;
use combine::parser::combinator::map;
use combine::parser::token::any;
use std::alloc::Global;

/// A record: what kind it is, and its text.
#[derive(Debug, Drop, PartialEq)]
pub struct Record {
    pub kind: u8,
    pub text: Vec<u8>,
}

/// Returns the record at the beginning of a slice, and what stands after it: a kind, a length in two bytes, the highest first, and as many bytes, which are the text.
pub fn read_record(alloc: Global, input: &[u8]) -> Result<(Record, &[u8]), UnexpectedParse>
    ensures { IfOk result (λ p. IsRecord input.now p.0 p.1.now) }
{
    frame_is_a_length_and_its_bytes::<&[u8]>(alloc);
    map((any(), frame(alloc)), made_record).parse(input)
}

fn made_record(parts: (u8, Vec<u8>)) -> Record
    ensures { result ≡ record { kind = parts.0; text = parts.1 } }
{
    let (kind, text) = parts;
    Record { kind, text }
}
