//! Grammars that nest, with their open frames in memory.
//!
//! A grammar that nests is read step by step. What is open is a stack of frames of a caller's own type: an array whose elements come, a bracket, an operator that waits for its operand. The innermost frame chooses the parser of the next step, and takes its item: it goes on, opens a frame inside itself, is closed with a value, which the frame round it is given, or refuses.
//!
//! Nothing recurses, so no input overflows the call stack, and a parse goes on at the step where a piece ended.
ghost use Rattle.std.specs.Prelude.{◌≡◌, MatchResult};
ghost use Rattle.combine_nested.specs.Asks.{always_of, always_with_of, if_else_of};
ghost use Rattle.combine_nested.specs.NestedSteps.{nested_of};

pub mod asked;
mod steps;
pub mod types;

use asked::{Always, AlwaysWith, IfElse};
use std::alloc::{AllocError, Global};
use types::Nested;

/// What comes of a frame that was given something.
#[derive(Drop)]
pub enum Next<F, V> {
    /// It goes on as this one.
    Stay(F),
    /// It goes on as the first, and the second is opened inside it.
    Open(F, F),
    /// It is closed with this value, which the frame round it is given; that of the outermost is the value of all.
    Close(V),
    /// It refuses, with this message.
    Refuse(&'static str),
}

/// A frame that is open.
///
/// Each method takes the frame, and returns what comes of it, or `AllocError` if memory isn't found.
pub trait Frame: Drop {
    ghost use Rattle.std.specs.Prelude.{MatchResult, ◌≡◌};
    ghost use Rattle.combine_nested.specs.declared.nested.Next.{Next};

    /// What a step reads.
    type Item: Drop;

    /// What a frame that is closed is worth.
    type Value: Drop;

    /// What may come of an item. A frame that doesn't define it promises nothing.
    ghost takes: { Self → Self.Item → Next Self Self.Value → Type 0 } = { λ _ _ _. Unit {0} };

    /// What may come of the value of a frame that was opened inside this one. A frame that doesn't define it promises nothing.
    ghost joins: { Self → Self.Value → Next Self Self.Value → Type 0 } = { λ _ _ _. Unit {0} };

    /// Frames that differ in nothing that a caller can tell, for a grammar that is to have one outcome: what comes of them is alike too. A frame that doesn't define it is alike itself alone.
    ghost alike: { Self → Self → Type 0 } = { λ f g. f ≡ g };

    /// Items that frames take alike.
    ghost alike_items: { Self.Item → Self.Item → Type 0 } = { λ a b. a ≡ b };

    /// Values that frames are given alike.
    ghost alike_values: { Self.Value → Self.Value → Type 0 } = { λ v w. v ≡ w };

    /// Takes an item that was read while this was the innermost frame, and returns what comes of it.
    fn take(self, item: Self::Item) -> Result<Next<Self, Self::Value>, AllocError>
        ensures { MatchResult result (takes self item) (λ _. Unit {0}) };

    /// Takes the value with which a frame inside this one was closed, and returns what comes of it.
    fn join(self, value: Self::Value) -> Result<Next<Self, Self::Value>, AllocError>
        ensures { MatchResult result (joins self value) (λ _. Unit {0}) };
}

/// Parses steps, one after another, over frames that are open inside one another, at most `depth` of them inside the outermost.
///
/// `root: Fn() -> F, F: Frame`, or a `Maker`.
/// `step: Fn(&F) -> N, N: Parser<Input, Output = F::Item>`, or a `RefFunction`, as `always`, `always_with` and `if_else` return.
///
/// A closure for `step` has to write its parameter's type, as `|_: &Brackets| ..`. `root` makes the outermost frame. `step` returns the parser of each step, by the innermost frame, which takes its item: a function of the frame, or [`always`] and [`always_with`] for the same parser at each step, or [`if_else`] for one of two. The value is that with which the outermost frame is closed; it is committed exactly if a step was.
///
/// Open frames are kept in memory of `alloc`, one after another. To give a frame the place at which an item stood, read it with the item, as `(position(), item)`.
///
/// # Errors
///
/// - What a step's parser refuses is refused, committed if a step before it was.
/// - What a frame refuses is refused with its message, committed if this step or one before it was.
/// - A frame too many is refused committed, with the message `nesting too deep`.
/// - A step that takes no token is refused committed, with `repetition takes nothing`, unless fewer frames are open than before it.
///
/// Messages stand at the position where the step began, in the piece in which it ends.
///
/// # Partial input
///
/// The state keeps the open frames and the step that runs. Nothing is left unread where the parsers of the steps leave nothing.
///
/// # Examples
///
/// How many pairs of brackets stand inside others. `brackets.rt` of `example_callers` has it whole, with what is promised of it.
///
/// ```
/// fn take(self, item: u8) -> Result<Next<Brackets, u64>, AllocError> {
///     if item == b'(' {
///         let inside = Brackets {
///             is_outermost: false,
///             pairs: 0,
///         };
///         return Ok(Next::Open(self, inside));
///     }
///     if item == b')' && !self.is_outermost {
///         return Ok(Next::Close(self.pairs));
///     }
///     Ok(Next::Refuse("bracket expected"))
/// }
///
/// fn read_brackets(
///     alloc: Global,
///     depth: usize,
///     input: &[u8],
/// ) -> Result<(u64, &[u8]), UnexpectedParse> {
///     let root = || Brackets {
///         is_outermost: true,
///         pairs: 0,
///     };
///     let step = always(satisfy(|byte: u8| byte == b'(' || byte == b')'));
///     nested(alloc, depth, root, step).parse(input)
/// }
/// ```
#[inline]
pub fn nested<R, S>(alloc: Global, depth: usize, root: R, step: S) -> Nested<R, S>
    ensures { result ≡ nested_of alloc depth root step }
{
    Nested {
        alloc,
        depth,
        root,
        asked: step,
    }
}

/// Returns the same parser at each step.
///
/// The parser has to be `Copy`. That of a class (but `char::digit`), a text, a list of tokens, an integer or a range isn't, nor are `iterate`, `spanned`, `expected`, `message`, `silent` and `unexpected`: [`always_with`] makes one of these anew at each step.
#[inline]
pub fn always<P>(parser: P) -> Always<P>
    ensures { result ≡ always_of parser }
{
    Always(parser)
}

/// Returns the parser that `maker` makes at each step, as `always_with(|| expected(digit(), "digit"))`.
#[inline]
pub fn always_with<M>(maker: M) -> AlwaysWith<M>
    ensures { result ≡ always_with_of maker }
{
    AlwaysWith(maker)
}

/// Returns what `first` does where `test` holds of the innermost frame, and else what `second` does.
///
/// `test: Fn(&F) -> bool`, or a `RefFunction`.
/// `first: Fn(&F) -> N, N: Parser<Input>`, or a `RefFunction`, as `always`, `always_with` and `if_else` return; so is `second`.
#[inline]
pub fn if_else<C, A, B>(test: C, first: A, second: B) -> IfElse<C, A, B>
    ensures { result ≡ if_else_of test first second }
{
    IfElse(test, first, second)
}
