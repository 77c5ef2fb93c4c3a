//! The input.
ghost use Rattle.std.specs.Prelude.{◌≡◌, ◌≤◌, ◌<◌, ◌⊎◌, MatchResult, IfSome, length};

use crate::fault::Fault;
use std::alloc::Global;
use std::io::{ErrorKind, Read};

/// The longest input, in bytes.
pub const MAX_INPUT: usize = 1_048_576;

/// Reads all there is, at most `MAX_INPUT` bytes.
///
/// Answers `Input` where there is more, `Memory` where a growth was refused, and `Read` where a read failed.
pub fn read_input<R: Read + Drop>(alloc: Global, reader: R) -> Result<Vec<u8>, Fault>
    ensures { MatchResult result
        (λ input. (length input.items ≤ 1048576) × IfSome (R.remaining reader) (λ all. all ≡ input.items))
        (λ why. (why ≡ Fault.Memory) ⊎ (why ≡ Fault.Read) ⊎ ((why ≡ Fault.Input) × IfSome (R.remaining reader) (λ all. 1048576 < length all))) }
{
    let mut input = Vec::new(alloc);
    let mut limited = reader.take(MAX_INPUT as u64 + 1);
    if let Err(error) = limited.read_to_end(&mut input) {
        return Err(match error.kind() {
            ErrorKind::OutOfMemory => Fault::Memory,
            _ => Fault::Read,
        });
    }
    if input.len() > MAX_INPUT {
        return Err(Fault::Input);
    }
    Ok(input)
}
