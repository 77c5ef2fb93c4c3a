//! What errors speak of.
ghost use Rattle.std.specs.Prelude.{◌≡◌, MatchResult};
ghost use Rattle.combine_base.specs.Error.Items.{NoText, shown};

use std::alloc::AllocError;
use std::string::String;

/// What an item speaks of.
#[derive(Debug, PartialEq, Drop)]
pub enum Info<T, R> {
    /// A token.
    Token(T),
    /// A range of tokens.
    Range(R),
    /// A fixed text, which takes no memory.
    Static(&'static str),
    /// A text of its own.
    Owned(String),
    /// How many elements are missing. Our own.
    More(usize),
}

impl<T: Copy, R: Copy> Info<T, R> {
    /// Returns an info that speaks of the same; a text of its own is cloned, which takes memory.
    pub fn copied(&self) -> Result<Info<T, R>, AllocError>
        ensures { MatchResult result (λ i. shown i ≡ shown self.now) (λ _. NoText self.now → ⊥) }
    {
        match self {
            Info::Token(token) => Ok(Info::Token(*token)),
            Info::Range(range) => Ok(Info::Range(*range)),
            Info::Static(fixed) => Ok(Info::Static(*fixed)),
            Info::Owned(own) => Ok(Info::Owned(own.clone()?)),
            Info::More(missing) => Ok(Info::More(*missing)),
        }
    }
}

impl<T, R> From<&'static str> for Info<T, R> {
    ghost use Rattle.combine_base.specs.declared.error.info.Info.TheVariants.{Static};

    ghost from_gives = { λ text info. info ≡ Static text };

    fn from(text: &'static str) -> Self {
        Info::Static(text)
    }
}

impl<T, R> From<String> for Info<T, R> {
    ghost use Rattle.combine_base.specs.declared.error.info.Info.TheVariants.{Owned};

    ghost from_gives = { λ text info. info ≡ Owned text };

    fn from(text: String) -> Self {
        Info::Owned(text)
    }
}
