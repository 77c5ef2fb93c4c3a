//! What range parsers and searches keep over a cut.

/// What a range parser or a search keeps over a cut: how many items the next call passes over.
#[derive(Drop)]
pub struct Distance {
    pub(crate) items: usize,
}

impl Default for Distance {
    ghost use Rattle.std.specs.Prelude.{◌≡◌};

    ghost is_default = { λ d. d.items ≡ 0 };

    /// Returns the distance of no items.
    #[inline]
    fn default() -> Self {
        Distance { items: 0 }
    }
}
