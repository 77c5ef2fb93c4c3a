//! In which order the bytes of a number stand. Our own: the crate writes each of its parsers with a conversion.
ghost use Rattle.std.specs.Prelude.{◌≡◌, ◌∷◌, [], ◌++◌, ◌+◌, ◌<◌, ◌^◌, length, refl};
ghost use Rattle.combine_byte.specs.Numbers.{big_endian, little_endian};

/// An order of bytes: a type of no size.
pub trait Order<T> {
    ghost use Rattle.std.specs.Prelude.{◌≡◌, ℕ, List, [], ◌∷◌, ◌++◌, ◌+◌, ◌<◌, ◌^◌, length};

    /// The number that stands in these bytes.
    ghost number: { List T → ℕ };

    /// Returns the number of `count` bytes and this one after them, from the number of the first.
    fn push(so_far: u64, count: u8, byte: T) -> u64
        requires few { count < 8 }
        requires fits { so_far < 256 ^ count }
        ensures value { (bytes : List T) → length bytes ≡ count → so_far ≡ Self.number bytes → result ≡ Self.number (bytes ++ (byte ∷ [])) }
        ensures fits { result < 256 ^ (count + 1) };

    ghost none: { number [] ≡ 0 };
}

/// The highest byte first.
#[derive(Drop)]
pub struct BigEndian;

/// The lowest byte first.
#[derive(Drop)]
pub struct LittleEndian;

impl Order<u8> for BigEndian {
    ghost number = { big_endian };

    ghost none = { refl };

    #[inline(always)]
    fn push(so_far: u64, count: u8, byte: u8) -> u64 {
        so_far * 256 + byte as u64
    }
}

impl Order<u8> for LittleEndian {
    ghost number = { little_endian };

    ghost none = { refl };

    #[inline(always)]
    fn push(so_far: u64, count: u8, byte: u8) -> u64 {
        so_far + ((byte as u64) << (8 * count))
    }
}
