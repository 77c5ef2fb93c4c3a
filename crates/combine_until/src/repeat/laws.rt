//! What repetitions up to a place mean beside one another. The function does nothing: its contract is the law.
ghost use Rattle.combine_until.specs.Until.{some_appended};
ghost use Rattle.combine_until.specs.UntilParsers.{RepeatOrSkip};

use combine_base::parser::Parser;
use combine_base::repeat::Append;
use combine_base::stream::Stream;

/// The law that `repeat_skip_until(p, end)` has the count and kind of `repeat_until(p, end)`.
///
/// With `any` for `p` that is said of `skip_until` and `take_until`.
pub fn repeat_skip_until_is_repeat_until_dropped<
    F,
    Input: Stream,
    P: Parser<Input>,
    E: Parser<Input>,
>(parser: &P, end: &E)
where
    F: Append<P::Output>,
    ensures { RepeatOrSkip Input.step Input.Error.observers (some_appended F.held F.none F.more F.heapless) (P.meaning parser.now) (E.meaning end.now) }
{}
