//! Tokens that were taken, read again and collected.
ghost use Rattle.std.specs.Prelude.{◌≤◌, length};
ghost use Rattle.combine_base.specs.Stream.Calls.{Passes};
ghost use Rattle.combine_base.specs.Stream.View.{Takes};
ghost use Rattle.combine_combinator.specs.RecognizedTokens.{CollectsTokens};

use combine_base::repeat::Append;
use combine_base::stream::{Kind, ResetStream, StreamOnce};

/// Takes that many tokens, and appends them.
///
/// # Errors
///
/// `Read` if a read fails, and `Memory` if the collection can't grow. Some tokens are then taken.
#[inline]
fn collect<Input: StreamOnce, F: Append<Input::Token>>(
    input: &mut Input,
    count: u64,
    into: F,
) -> Result<F, Kind>
    ensures passes { Passes (Input.marks input.old) (Input.marks input.new) (Input.failures input.old) (Input.failures input.new) }
    ensures collects { count ≤ length (Input.view input.old).unread → CollectsTokens Input.counts_failures Input.step F.held F.more F.heapless into (Input.view input.old) (Input.view input.new) (Input.failures input.old) (Input.failures input.new) count result }
{
    let mut into = into;
    'tokens: for taken in 0..count {
        let token = input.uncons()?;
        if let Err(_refused) = into.append(token) {
            return Err(Kind::Memory);
        }
    }
    Ok(into)
}

/// Puts the stream back to the checkpoint, and takes the tokens from there to where it was once more: they are appended.
///
/// # Errors
///
/// `Reset` if the stream can't be put back, `Read` if a read fails, and `Memory` if the collection can't grow.
#[inline]
pub fn collect_since<Input: ResetStream, F: Append<Input::Token>>(
    input: &mut Input,
    start: Input::Checkpoint,
    into: F,
) -> Result<F, Kind>
    ensures passes { Passes (Input.marks input.old) (Input.marks input.new) (Input.failures input.old) (Input.failures input.new) }
    ensures collects { (n : _) (v : _) → Input.stands input.old start v → Takes Input.step n v (Input.view input.old) → CollectsTokens Input.counts_failures Input.step F.held F.more F.heapless into v (Input.view input.new) (Input.failures input.old) (Input.failures input.new) n result }
{
    let count = input.count_since(start);
    input.reset(start)?;
    collect(input, count, into)
}
