//! How many turns there are: a type for each kind of bounds, so that what some turns don't need isn't compiled with them.
ghost use Rattle.std.specs.Prelude.{◌≡◌, ◌-◌, ℕ, false, nat_lt, not};
ghost use Rattle.combine_base.specs.Stream.View.{View, Takes};
ghost use Rattle.combine_repeat.specs.Turns.Bounds.{counted_bounds, counted_to, cut_at, first_lack, is_first_or_takes_token, own_first_bounds, takes_token};

use combine_base::stream::{Stream, has_taken};

/// How many turns there are, for contracts: a type of `TurnBounds` says which are meant.
#[derive(Clone, Copy)]
pub enum Bounds {
    /// Any number; each takes a token.
    Unbounded,
    /// The first is a part of its own: it may take nothing, and its refusal is the answer unless there need be none. Each later one takes a token.
    OwnFirst { min: usize, max: Option<usize> },
    /// A number; they may take nothing.
    Counted { min: usize, max: usize },
}

/// The running turn: its index, counted up to the limit of the bounds, and whether it already took a token in an earlier piece.
#[derive(Clone, Copy)]
pub struct TurnIndex {
    pub(crate) number: usize,
    pub(crate) took_before: bool,
}

impl TurnIndex {
    /// Returns the place of the first turn.
    #[inline(always)]
    pub fn first() -> TurnIndex
        ensures { result ≡ record { number = 0; took_before = false } }
    {
        TurnIndex {
            number: 0,
            took_before: false,
        }
    }

    /// Returns whether `max` turns were before it.
    #[inline(always)]
    pub(crate) fn reaches(self, max: usize) -> bool
        ensures { result ≡ not (nat_lt self.number max) }
    {
        !(self.number < max)
    }

    /// Returns the place of the next turn.
    #[inline(always)]
    pub(crate) fn next(self, count_bound: usize) -> TurnIndex
        ensures { result ≡ record { number = counted_to count_bound self.number; took_before = false } }
    {
        if self.number < count_bound {
            return TurnIndex {
                number: self.number + 1,
                took_before: false,
            };
        }
        TurnIndex {
            number: count_bound,
            took_before: false,
        }
    }

    /// Returns the index of the same turn in the next piece.
    #[inline(always)]
    pub(crate) fn cut<Input: Stream>(self, since: Input::Checkpoint, input: &Input) -> TurnIndex
        ensures { (n : ℕ) (v : View Input.Position Input.Token) → Input.stands input.now since v → Takes Input.step n v (Input.view input.now) → result ≡ cut_at self n }
    {
        TurnIndex {
            number: self.number,
            took_before: has_taken(self.took_before, since, input),
        }
    }
}

/// What is missing where a turn is refused peeked.
pub enum Lack {
    /// Nothing: there are enough turns.
    Nothing,
    /// The first turn, which is a part of its own: its refusal is the result.
    First,
    /// So many turns.
    Turns(usize),
}

/// How many turns there are.
pub trait TurnBounds: Copy {
    ghost use Rattle.std.specs.Prelude.{◌≡◌, ◌≤◌, ℕ, false, Option};
    ghost use Rattle.combine_base.specs.Stream.View.{View, Takes};
    ghost use Rattle.combine_repeat.specs.Turns.Bounds.{full_at, is_unbounded, lack_at, next_at};
    ghost use Rattle.combine_repeat.specs.declared.bounds.Bounds.{Bounds};

    /// What they are.
    ghost bounds: { Self → Bounds };

    /// Returns whether there may be any number of turns.
    fn is_unbounded(self) -> bool
        ensures { result ≡ is_unbounded (bounds self) };

    /// Returns for how many values a collection asks for room: at most 1,024, and for none in a call that resumes.
    fn room(self, first: bool) -> usize
        ensures few { result ≤ 1024 }
        ensures resumes { first ≡ false → result ≡ 0 };

    /// Returns whether there are as many turns as there may be.
    fn is_full(self, index: TurnIndex) -> bool
        ensures { result ≡ full_at (bounds self) index };

    /// Returns what is missing where this turn is refused peeked.
    fn lacks(self, index: TurnIndex) -> Lack
        ensures { result ≡ lack_at (bounds self) index };

    /// Returns the place of the turn after an accepted one, or `None` where that has to take a token and took none: `since` is where its part in this piece began, `committed` how it was accepted.
    fn next<Input: Stream>(
        self,
        index: TurnIndex,
        committed: bool,
        since: Input::Checkpoint,
        input: &Input,
    ) -> Option<TurnIndex>
        ensures { (n : ℕ) (v : View Input.Position Input.Token) → Input.stands input.now since v → Takes Input.step n v (Input.view input.now) → result ≡ next_at (bounds self) index n committed };
}

/// Any number of turns, each of which takes a token.
#[derive(Clone, Copy)]
pub struct ZeroOrMore;

impl TurnBounds for ZeroOrMore {
    ghost use Rattle.combine_repeat.specs.declared.bounds.Bounds.TheVariants.{Unbounded};

    ghost bounds = { λ _. Unbounded };

    #[inline(always)]
    fn is_unbounded(self) -> bool {
        true
    }

    #[inline(always)]
    fn room(self, first: bool) -> usize {
        0
    }

    #[inline(always)]
    fn is_full(self, index: TurnIndex) -> bool {
        false
    }

    #[inline(always)]
    fn lacks(self, index: TurnIndex) -> Lack {
        Lack::Nothing
    }

    #[inline(always)]
    fn next<Input: Stream>(
        self,
        index: TurnIndex,
        committed: bool,
        since: Input::Checkpoint,
        input: &Input,
    ) -> Option<TurnIndex> {
        if takes_token(index, committed, since, input) {
            return Some(TurnIndex::first());
        }
        None
    }
}

/// Returns whether a turn is committed and took a token, now or before a cut.
#[inline(always)]
fn takes_token<Input: Stream>(
    index: TurnIndex,
    committed: bool,
    since: Input::Checkpoint,
    input: &Input,
) -> bool
    ensures { (n : ℕ) (v : View Input.Position Input.Token) → Input.stands input.now since v → Takes Input.step n v (Input.view input.now) → result ≡ takes_token index n committed }
{
    committed && has_taken(index.took_before, since, input)
}

/// Returns the same as `takes_token`, but for a first turn that is a part of its own and may take nothing.
#[inline(always)]
fn is_first_or_takes_token<Input: Stream>(
    index: TurnIndex,
    committed: bool,
    since: Input::Checkpoint,
    input: &Input,
) -> bool
    ensures { (n : ℕ) (v : View Input.Position Input.Token) → Input.stands input.now since v → Takes Input.step n v (Input.view input.now) → result ≡ is_first_or_takes_token index n committed }
{
    if index.number < 1 {
        return true;
    }
    takes_token(index, committed, since, input)
}

/// Returns what is missing of so many turns, of which the first is a part of its own.
#[inline(always)]
fn first_lacks(index: TurnIndex, min: usize) -> Lack
    ensures { result ≡ first_lack min index }
{
    if !(index.number < min) {
        return Lack::Nothing;
    }
    if 0 < index.number {
        return Lack::Turns(min - index.number);
    }
    Lack::First
}

/// At least `MIN` turns, of which the first is a part of its own.
///
/// That one may take nothing, and its refusal is the result unless there need be none. Each later one takes a token.
#[derive(Clone, Copy)]
pub struct FirstThenMore<const MIN: usize>;

impl<const MIN: usize> TurnBounds for FirstThenMore<MIN> {
    ghost use Rattle.std.specs.Prelude.{None};
    ghost use Rattle.combine_repeat.specs.declared.bounds.Bounds.TheVariants.{OwnFirst};

    ghost bounds = { λ _. OwnFirst MIN None };

    #[inline(always)]
    fn is_unbounded(self) -> bool {
        true
    }

    #[inline(always)]
    fn room(self, first: bool) -> usize {
        0
    }

    #[inline(always)]
    fn is_full(self, index: TurnIndex) -> bool {
        false
    }

    #[inline(always)]
    fn lacks(self, index: TurnIndex) -> Lack {
        first_lacks(index, MIN)
    }

    #[inline(always)]
    fn next<Input: Stream>(
        self,
        index: TurnIndex,
        committed: bool,
        since: Input::Checkpoint,
        input: &Input,
    ) -> Option<TurnIndex> {
        if is_first_or_takes_token(index, committed, since, input) {
            return Some(index.next(if MIN < 1 { 1 } else { MIN }));
        }
        None
    }
}

/// At least `min` and at most `max` turns, otherwise as `FirstThenMore`.
#[derive(Clone, Copy)]
pub struct FirstThenUpTo {
    /// How many there are at least.
    pub min: usize,
    /// How many there are at most.
    pub max: usize,
}

impl TurnBounds for FirstThenUpTo {
    ghost bounds = { own_first_bounds };

    #[inline(always)]
    fn is_unbounded(self) -> bool {
        false
    }

    #[inline(always)]
    fn room(self, first: bool) -> usize {
        0
    }

    #[inline(always)]
    fn is_full(self, index: TurnIndex) -> bool {
        index.reaches(self.max)
    }

    #[inline(always)]
    fn lacks(self, index: TurnIndex) -> Lack {
        first_lacks(index, self.min)
    }

    #[inline(always)]
    fn next<Input: Stream>(
        self,
        index: TurnIndex,
        committed: bool,
        since: Input::Checkpoint,
        input: &Input,
    ) -> Option<TurnIndex> {
        if is_first_or_takes_token(index, committed, since, input) {
            return Some(index.next(self.max));
        }
        None
    }
}

/// At least `min` and at most `max` turns, which may take nothing.
#[derive(Clone, Copy)]
pub struct MinToMax {
    /// How many there are at least.
    pub min: usize,
    /// How many there are at most.
    pub max: usize,
}

impl TurnBounds for MinToMax {
    ghost bounds = { counted_bounds };

    #[inline(always)]
    fn is_unbounded(self) -> bool {
        false
    }

    /// Returns as many as there must be, and at most 1,024, since how many there must be may be a number that was read.
    #[inline(always)]
    fn room(self, first: bool) -> usize {
        if first {
            return self.min.min(1024);
        }
        0
    }

    #[inline(always)]
    fn is_full(self, index: TurnIndex) -> bool {
        index.reaches(self.max)
    }

    #[inline(always)]
    fn lacks(self, index: TurnIndex) -> Lack {
        if index.number < self.min {
            return Lack::Turns(self.min - index.number);
        }
        Lack::Nothing
    }

    #[inline(always)]
    fn next<Input: Stream>(
        self,
        index: TurnIndex,
        committed: bool,
        since: Input::Checkpoint,
        input: &Input,
    ) -> Option<TurnIndex> {
        Some(index.next(self.max))
    }
}
