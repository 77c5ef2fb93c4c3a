//! Values that hold text.
ghost use Rattle.std.specs.Prelude.{◌≡◌, MatchOption};

use std::str;
use std::string::String;

/// What holds the bytes of a text, perhaps.
///
/// It is open to callers, where the crate's is sealed.
pub trait StrLike {
    ghost use Rattle.std.specs.Prelude.{◌≡◌, ℕ, List, MatchOption};
    ghost use Rattle.std.specs.Str.{IsUtf8};

    /// The bytes.
    ghost bytes: { Self → List ℕ };

    /// Returns the text; `None` where the bytes aren't UTF-8.
    fn from_utf8(&self) -> Option<&str>
        ensures { MatchOption result (IsUtf8 (bytes self.now) → ⊥) (λ text. text.now ≡ bytes self.now) };
}

impl StrLike for String {
    ghost use Rattle.std.specs.Prelude.{string_bytes};

    ghost bytes = { string_bytes };

    #[inline]
    fn from_utf8(&self) -> Option<&str> {
        Some(self.as_str())
    }
}

impl StrLike for &str {
    ghost bytes = { λ s. s.now };

    #[inline]
    fn from_utf8(&self) -> Option<&str> {
        Some(*self)
    }
}

impl StrLike for Vec<u8> {
    ghost bytes = { λ s. s.items };

    #[inline]
    fn from_utf8(&self) -> Option<&str> {
        str::from_utf8(self.as_slice()).ok()
    }
}

impl StrLike for &[u8] {
    ghost bytes = { λ s. s.now };

    #[inline]
    fn from_utf8(&self) -> Option<&str> {
        str::from_utf8(*self).ok()
    }
}
