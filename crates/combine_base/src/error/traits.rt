//! What a type of errors can do.
ghost use Rattle.std.specs.Prelude.{◌≡◌, List, Bool, length};
ghost use Rattle.combine_base.specs.Error.Items.{ErrorItem, Unexpected, Expected, Message, OfToken, Count, in_role, shown, end_of_input};
ghost use Rattle.combine_base.specs.Error.Errors.{Observers, Only, AddsItems, MovesPosition, Cleared, ClearedAfter, Merged, IsFault, TellsApart, if_kept, later_position};

use crate::error::Info;
use crate::stream::Kind;

/// What is to be said, before it is added to an error.
///
/// A type may keep what it is given, or a kind alone.
///
/// # Differences from combine
///
/// The crate's calls take whatever a text can be made of. Here what is spoken of is an `Info`, given away.
pub trait StreamError<T, R>: Drop {
    ghost use Rattle.combine_base.specs.declared.stream.Kind.{Kind};

    ghost kind: { Self → Kind };

    /// The item, where items are kept.
    ghost items: { Self → List (ErrorItem T R) };

    /// Whether items are kept.
    ghost keeps: { Bool };

    /// Returns the kind of the item. Our own.
    ///
    /// It is `Refused`, but for the end of input, of whose kind nothing is promised.
    fn kind(&self) -> Kind
        ensures { result ≡ kind self.now };

    /// Says that this token was not expected.
    fn unexpected_token(token: T) -> Self
        ensures kind { kind result ≡ Kind.Refused }
        ensures items { items result ≡ if_kept keeps (Unexpected (OfToken token)) };

    /// Says that this was not expected.
    fn unexpected(info: Info<T, R>) -> Self
        ensures kind { kind result ≡ Kind.Refused }
        ensures items { items result ≡ if_kept keeps (Unexpected (shown info)) };

    /// Says that this was expected.
    fn expected(info: Info<T, R>) -> Self
        ensures kind { kind result ≡ Kind.Refused }
        ensures items { items result ≡ if_kept keeps (Expected (shown info)) };

    /// Says this.
    fn message(info: Info<T, R>) -> Self
        ensures kind { kind result ≡ Kind.Refused }
        ensures items { items result ≡ if_kept keeps (Message (shown info)) };

    /// Says that the end of the input was not expected.
    fn end_of_input() -> Self
        ensures { items result ≡ if_kept keeps end_of_input };

    /// Says that this many elements are missing. Our own.
    ///
    /// It is a message of `Info::More`, which takes no memory.
    fn expected_more(missing: usize) -> Self
        ensures kind { kind result ≡ Kind.Refused }
        ensures items { items result ≡ if_kept keeps (Message (Count missing)) };
}

/// What an error says of something.
#[derive(Clone, Copy, Debug, PartialEq, Eq)]
pub enum Role {
    /// It was not expected.
    Unexpected,
    /// It was expected.
    Expected,
    /// It is a message.
    Message,
}

/// An error: a kind, and perhaps a position and items.
///
/// Every stream's errors are of such a type. What makes errors by hand asks `DetailedError`.
///
/// An item is added after those that are there, unless an equal one is among them; a type that keeps no items drops it. One that finds no memory makes the kind `Memory`, and then nothing is promised of the items; the position stays. An error type that asks for no memory never comes to that.
///
/// # Differences from combine
///
/// A stream makes an error, by `StreamOnce::new_error`. In the crate an error is made without the stream.
pub trait ParseError<T, R, P: Ord>: Drop {
    /// What is seen of an error.
    ghost observers: { Observers T R P Self };

    /// Returns why there is no value: a refusal, the end, or a fault. Our own.
    ///
    /// The crate tells an unexpected end alone.
    fn kind(&self) -> Kind
        ensures { result ≡ observers.kind self.now };

    /// Adds that this was not expected, that it was, or this message, if items are kept. Our own.
    ///
    /// It is copied only if items are kept. One that finds no memory makes the error one of kind `Memory`. The crate has a call for each.
    fn add_info(&mut self, role: Role, info: &Info<T, R>)
        ensures { AddsItems observers (Unit {0}) (Only (in_role role (shown info.now))) self.old self.new };

    /// Drops the items that say what was expected, from that number of items on. Our own.
    ///
    /// The items before that many all stay. The others stay in their order, and so do the kind and the position.
    fn clear_expected_after(&mut self, kept: usize)
        ensures { ClearedAfter observers kept self.old self.new };

    /// Returns how many items are kept. Our own.
    fn count_items(&self) -> usize
        ensures { result ≡ length (observers.items self.now) };

    /// Says that something to be added found no memory, which makes the kind `Memory`. Our own.
    ///
    /// The position stays, and nothing is promised of the items.
    fn out_of_memory(&mut self)
        ensures kind { observers.kind self.new ≡ Kind.Memory }
        ensures position { observers.position self.new ≡ observers.position self.old };

    /// Makes one error of two, neither of which may be a fault (`Memory`, `Read`, `Reset` or `Lost`).
    ///
    /// The position and the items are those of the one with the later position. At equal positions, and where a position is not kept, the items of the second are added to the first. The kind is `Refused` if either has it, and else `End`.
    ///
    /// # Errors
    ///
    /// An item that finds no memory makes the kind `Memory`, and then nothing else is promised.
    fn merge(self, other: Self) -> Self
        requires first { IsFault (observers.kind self) → ⊥ }
        requires second { IsFault (observers.kind other) → ⊥ }
        ensures { Merged observers (later_position P.cmp (observers.position self) (observers.position other)) self other result };

    /// Adds that this was not expected, as `add_info` does.
    #[inline(always)]
    final fn add_unexpected(&mut self, info: &Info<T, R>)
        ensures { AddsItems observers (Unit {0}) (Only (Unexpected (shown info.now))) self.old self.new }
    {
        self.add_info(Role::Unexpected, info);
    }

    /// Adds that this was expected, as `add_info` does.
    #[inline(always)]
    final fn add_expected(&mut self, info: &Info<T, R>)
        ensures { AddsItems observers (Unit {0}) (Only (Expected (shown info.now))) self.old self.new }
    {
        self.add_info(Role::Expected, info);
    }

    /// Adds this message, as `add_info` does.
    #[inline(always)]
    final fn add_message(&mut self, info: &Info<T, R>)
        ensures { AddsItems observers (Unit {0}) (Only (Message (shown info.now))) self.old self.new }
    {
        self.add_info(Role::Message, info);
    }

    /// Drops the items that say what was expected.
    ///
    /// The others stay in their order, and so do the kind and the position.
    #[inline(always)]
    final fn clear_expected(&mut self)
        ensures { Cleared observers self.old self.new }
    {
        self.clear_expected_after(0);
    }

    ghost tells_apart: { TellsApart observers };
}

/// An error whose position is known and set, and which takes items that were made before.
///
/// Of the library's parsers only `and_then` and `spanned` ask for it. So it is a trait of its own: what a stream's errors must be is shown to the prover at each parser that is built.
///
/// # Differences from combine
///
/// These are calls of `ParseError` in the crate.
pub trait DetailedError<T, R, P: Ord>: ParseError<T, R, P> {
    /// The items that `add` takes.
    type StreamError: StreamError<T, R>;

    /// Returns where the error stands, if a position is kept.
    ///
    /// In the crate it always is.
    fn position(&self) -> Option<P>
        ensures { result ≡ Self.observers.position self.now };

    /// Sets the position, if one is kept; the kind and the items stay.
    fn set_position(&mut self, position: P)
        ensures { MovesPosition Self.observers position self.old self.new };

    /// Adds the item, if items are kept.
    ///
    /// The position stays, and so does the kind, but where the item finds no memory: it is then `Memory`. The item's own kind counts for nothing.
    fn add(&mut self, item: Self::StreamError)
        ensures { AddsItems Self.observers (Unit {0}) (λ is. is ≡ Self.StreamError.items item) self.old self.new };
}
