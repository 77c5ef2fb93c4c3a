//! What `take_fn` means for a function whose results stay, stated by functions that do nothing.
ghost use Rattle.std.specs.Prelude.{◌≡◌};
ghost use Rattle.combine_range.specs.KeptDistance.{items_of};
ghost use Rattle.combine_byte.specs.Search.TakeFn.{answers_as};
ghost use Rattle.combine_byte.specs.Search.SearchParsers.{take_fn_of};
ghost use Rattle.combine_byte.specs.Search.Searches.{searching};
ghost use Rattle.combine_byte.specs.Search.StableFunctions.{Stable, answered_by};
ghost use Rattle.combine_byte.specs.declared.search.TakeRange.{TakeRange};

use crate::range::types::TakeFn;
use crate::search::TakeRange;
use combine_base::function::Function;
use combine_base::parser::Parser;
use combine_range::distance::Distance;
use combine_stream::range::{Range, RangeStream};

/// The law that it has one outcome: the function answers from the tokens alone, what it finds stays on longer ranges, and from any boundary within what need not be searched again it finds the same place.
pub fn stable_has_one_outcome<
    Input: RangeStream,
    T: Into<TakeRange>,
    F: Function<Input::Range, Output = T>,
>(searcher: &F)
where
    Input::Range: Range,
    ensures { (f : _) → Stable Input.size Input.spells (answers_as (F.returns searcher.now) T.converts) f → ⟦<TakeFn<F, Input> as Parser<Input>>⟧.determined (take_fn_of searcher.now) }
{}

/// The law that it means what the function returns for all that is unread, or for all that is after the distance that is kept.
pub fn stable_means_what_it_answers<
    Input: RangeStream,
    T: Into<TakeRange>,
    F: Function<Input::Range, Output = T>,
>(searcher: &F)
where
    Input::Range: Range,
    ensures { (f : _) → Stable Input.size Input.spells (answers_as (F.returns searcher.now) T.converts) f → (d : _) (v : _) (o : _) → (⟦<TakeFn<F, Input> as Parser<Input>>⟧.meaning (take_fn_of searcher.now)).rest d v o → searching Input.size Input.spells (answered_by f) (items_of d) v o }
{}
