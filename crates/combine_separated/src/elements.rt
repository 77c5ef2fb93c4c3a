//! How elements are gathered.
ghost use Rattle.std.specs.Prelude.{◌≡◌};
ghost use Rattle.combine_separated.specs.Elements.{each_element};
ghost use Rattle.combine_repeat.specs.Turns.SoundValues.{any_sound};

use crate::separated::Element;
use combine_base::repeat::Append;
use combine_repeat::turns::Gather;
use std::alloc::AllocError;
use std::marker::PhantomData;

/// Each element is appended; what its separator gave is dropped.
#[derive(Drop)]
pub struct EachElement<F>(PhantomData<F>);

impl<O: Drop, A, F: Append<A>> Gather<Element<O, A>> for EachElement<F> {
    type Collection = F;

    ghost Held = { F.Held };

    ghost held = { F.held };

    ghost none = { F.none };

    ghost more = { each_element (λ h a i. i ≡ F.more h a) };

    ghost sound = { λ _ _. Unit {0} };

    ghost heapless = { F.heapless };

    #[inline(always)]
    fn gather(into: F, value: Element<O, A>) -> Result<F, AllocError> {
        let mut into = into;
        match value {
            Element::First(value) => {
                into.append(value)?;
                Ok(into)
            }
            Element::Then(_separator, value) => {
                into.append(value)?;
                Ok(into)
            }
        }
    }

    ghost keeps_sound = { any_sound };
}
