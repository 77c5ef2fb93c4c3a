//! The first place where a range stands.
ghost use Rattle.std.specs.Prelude.{◌≡◌};
ghost use Rattle.combine_base.specs.Stream.Calls.{Passes};
ghost use Rattle.combine_range.specs.RangeTests.{Seeks, TestsHere};
ghost use Rattle.combine_range.specs.WantedRanges.{equal_range};

use combine_base::stream::{Kind, ResetStream, StreamOnce};
use combine_stream::range::{Range, RangeStream};

/// Returns whether the unread tokens begin with a range, if enough items are left to say.
///
/// The stream stays in place, unless a read or a reset fails.
#[inline(always)]
pub fn begins_with<Input: RangeStream>(
    input: &mut Input,
    wanted: Input::Range,
) -> Result<Option<bool>, Kind>
where
    Input::Range: Range + PartialEq,
    ensures passes { Passes (Input.marks input.old) (Input.marks input.new) (Input.failures input.old) (Input.failures input.new) }
    ensures tells { TestsHere Input.counts_failures Input.step Input.size Input.spells (equal_range Input.Range.count Input.Range.eq wanted) (Input.view input.old) (Input.view input.new) (Input.failures input.old) (Input.failures input.new) result }
{
    let here = input.checkpoint();
    match input.uncons_range(wanted.len()) {
        Ok(range) => {
            let found = range == wanted;
            match input.reset(here) {
                Ok(()) => Ok(Some(found)),
                Err(kind) => Err(kind),
            }
        }
        Err(Kind::End) => Ok(None),
        Err(Kind::Refused) => Ok(Some(false)),
        Err(Kind::Read) => Err(Kind::Read),
        Err(Kind::Memory) => Err(Kind::Memory),
        Err(Kind::Reset) => Err(Kind::Reset),
        Err(Kind::Lost) => Err(Kind::Lost),
    }
}

/// Takes the tokens before the first place where a range stands, or else those before the first place from which that can't be told.
#[inline(always)]
pub fn seek<Input: RangeStream>(input: &mut Input, wanted: Input::Range) -> Result<bool, Kind>
where
    Input::Range: Range + PartialEq,
    ensures passes { Passes (Input.marks input.old) (Input.marks input.new) (Input.failures input.old) (Input.failures input.new) }
    ensures seeks { Seeks Input.counts_failures Input.step Input.size Input.spells (equal_range Input.Range.count Input.Range.eq wanted) (Input.view input.old) (Input.view input.new) (Input.failures input.old) (Input.failures input.new) result }
{
    loop {
        match begins_with(input, wanted) {
            Ok(Some(found)) => {
                if found {
                    return Ok(true);
                }
            }
            Ok(None) => return Ok(false),
            Err(kind) => return Err(kind),
        }
        match input.uncons() {
            Ok(_token) => {}
            Err(Kind::End) => return Ok(false),
            Err(Kind::Read) => return Err(Kind::Read),
            Err(Kind::Refused) => return Err(Kind::Refused),
            Err(Kind::Memory) => return Err(Kind::Memory),
            Err(Kind::Reset) => return Err(Kind::Reset),
            Err(Kind::Lost) => return Err(Kind::Lost),
        }
    }
}
