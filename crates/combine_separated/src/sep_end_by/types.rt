//! Names of [`SepEndRepeat`](crate::sep_end_by::SepEndRepeat) for the functions of this module.
use crate::sep_end_by::SepEndRepeat;
use combine_repeat::bounds::FirstThenMore;

/// The parser of [`sep_end_by`](crate::sep_end_by::sep_end_by).
pub type SepEndBy<F, P, S> = SepEndRepeat<F, P, S, FirstThenMore<0>>;

/// The parser of [`sep_end_by1`](crate::sep_end_by::sep_end_by1).
pub type SepEndBy1<F, P, S> = SepEndRepeat<F, P, S, FirstThenMore<1>>;
