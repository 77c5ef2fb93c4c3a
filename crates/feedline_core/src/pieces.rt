//! The pieces that an input is fed in.
ghost use Rattle.std.specs.Prelude.{◌≡◌, MatchResult, map};
ghost use Rattle.feedline_core.specs.Cut.{pieces_of};

use crate::fault::Fault;
use std::alloc::Global;

/// Cuts the input: one piece for each size, which takes what is left where less is left, and then the rest where there is one.
///
/// Answers `Memory` where a growth was refused.
pub(crate) fn cut<'a>(alloc: Global, sizes: &[u32], input: &'a [u8]) -> Result<Vec<&'a [u8]>, Fault>
    ensures { MatchResult result
        (λ pieces. map (λ p. p.now) pieces.items ≡ pieces_of sizes.now input.now)
        (λ why. why ≡ Fault.Memory) }
{
    let mut pieces = Vec::new(alloc);
    let mut rest = input;
    for size in sizes {
        let length = (*size as usize).min(rest.len());
        let piece = &rest[..length];
        rest = &rest[length..];
        if let Err(_refused) = pieces.push(piece) {
            return Err(Fault::Memory);
        }
    }
    if !rest.is_empty() {
        if let Err(_refused) = pieces.push(rest) {
            return Err(Fault::Memory);
        }
    }
    Ok(pieces)
}
