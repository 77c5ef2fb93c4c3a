//! A parser for each item of a list.
ghost use Rattle.std.specs.Prelude.{◌≡◌};
ghost use Rattle.combine_repeat.specs.ListedItems.{iterate_of};

mod items;
pub mod types;

use std::alloc::Global;
use std::marker::PhantomData;
use types::Iterate;

/// Runs for each item of a list, in order, the parser that `f` returns for it, and collects the values in order.
///
/// `f: Fn(&J::Item, &mut Input) -> N, J: Clone + IntoIterator, N: Parser<Input>`, or a `MutFunction`.
///
/// `f` has to leave the stream in place, and every parser that it may return has to be lawful. It is called for each item where its turn comes. An iterator of a clone of the list gives the items. The result is accepted without commitment if there are no items, or if no item's parser committed.
///
/// # Errors
///
/// - A refusal of an item's parser is the result. A peeked one after the first item is put back to where that parser began, and says what stands there and what that parser expects; it is committed if an earlier item was.
/// - A clone of the list that finds no memory is the fault `Memory`.
///
/// # Partial input
///
/// On need of more the state keeps the parser that `f` returned for the running item, the values so far and the items that are left.
///
/// # Differences from combine
///
/// In the crate `f` is an `FnMut`, which is asked again for the running item on resumption.
///
/// # Examples
///
/// ```
/// fn letters_in_order(
///     alloc: Global,
///     end: u8,
///     pieces: &[&[u8]],
/// ) -> Result<Answer<Vec<u8>, UnexpectedParse>, SessionError> {
///     let letter = |letter: &u8, _input: &mut fed::Stream<u8>| token(*letter);
///     parse_pieces(alloc, iterate::<Vec<u8>, _, _>(alloc, b'a'..end, letter), pieces)
/// }
/// ```
///
/// With `end` `b'd'`, and the pieces `b"a"` and `b"bcx"`, it accepts `b"abc"`, with 3 tokens taken.
#[inline]
pub fn iterate<C, J, F>(alloc: Global, items: J, f: F) -> Iterate<C, J, F>
    ensures { result ≡ iterate_of alloc items f }
{
    Iterate {
        alloc,
        items,
        asked: f,
        collects: PhantomData,
    }
}
