//! Names of [`SepRepeat`](crate::sep_by::SepRepeat) for the functions of this module.

use crate::sep_by::SepRepeat;
use combine_repeat::bounds::{FirstThenMore, FirstThenUpTo};

/// The parser of [`sep_count_min_max`](crate::sep_by::sep_count_min_max).
pub type SepCountMinMax<F, P, S> = SepRepeat<F, P, S, FirstThenUpTo>;

/// The parser of [`sep_by`](crate::sep_by::sep_by).
pub type SepBy<F, P, S> = SepRepeat<F, P, S, FirstThenMore<0>>;

/// The parser of [`sep_by1`](crate::sep_by::sep_by1).
pub type SepBy1<F, P, S> = SepRepeat<F, P, S, FirstThenMore<1>>;
