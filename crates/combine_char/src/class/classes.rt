//! The classes of characters and of bytes: types of no size.
ghost use Rattle.std.specs.Prelude.{codes};
ghost use Rattle.combine_char.specs.Bytes.{is_alpha_num_byte, is_carriage_return_byte, is_digit_byte, is_hex_digit_byte, is_letter_byte, is_lower_byte, is_newline_byte, is_oct_digit_byte, is_space_byte, is_tab_byte, is_upper_byte};
ghost use Rattle.combine_char.specs.Characters.{is_alpha_num_char, is_carriage_return_char, is_digit_char, is_hex_digit_char, is_letter_char, is_lower_char, is_newline_char, is_oct_digit_char, is_space_char, is_tab_char, is_upper_char};

use crate::class::Class;
use unicode::properties::{
    GeneralCategory, GeneralCategoryGroup, is_alphabetic, is_lowercase, is_uppercase,
};

/// `0` to `9`.
#[derive(Clone, Copy, Drop)]
pub struct Digit;

impl Class<char> for Digit {
    ghost bytes = { codes "digit" };

    ghost members = { is_digit_char };

    fn text() -> &'static str {
        "digit"
    }

    fn has(token: char) -> bool {
        token.is_ascii_digit()
    }
}

impl Class<u8> for Digit {
    ghost bytes = { codes "digit" };

    ghost members = { is_digit_byte };

    fn text() -> &'static str {
        "digit"
    }

    fn has(token: u8) -> bool {
        token.is_ascii_digit()
    }
}

/// `0` to `7`.
#[derive(Clone, Copy, Drop)]
pub struct OctDigit;

impl Class<char> for OctDigit {
    ghost bytes = { codes "octal digit" };

    ghost members = { is_oct_digit_char };

    fn text() -> &'static str {
        "octal digit"
    }

    fn has(token: char) -> bool {
        matches!(token, '0'..='7')
    }
}

impl Class<u8> for OctDigit {
    ghost bytes = { codes "octal digit" };

    ghost members = { is_oct_digit_byte };

    fn text() -> &'static str {
        "octal digit"
    }

    fn has(token: u8) -> bool {
        matches!(token, b'0'..=b'7')
    }
}

/// `0` to `9`, `a` to `f`, `A` to `F`.
#[derive(Clone, Copy, Drop)]
pub struct HexDigit;

impl Class<char> for HexDigit {
    ghost bytes = { codes "hexadecimal digit" };

    ghost members = { is_hex_digit_char };

    fn text() -> &'static str {
        "hexadecimal digit"
    }

    fn has(token: char) -> bool {
        token.is_ascii_hexdigit()
    }
}

impl Class<u8> for HexDigit {
    ghost bytes = { codes "hex_digit" };

    ghost members = { is_hex_digit_byte };

    fn text() -> &'static str {
        "hex_digit"
    }

    fn has(token: u8) -> bool {
        token.is_ascii_hexdigit()
    }
}

/// Of characters: white space, as std's `char::is_whitespace`. Of bytes: tab, line feed, form feed, carriage return and space.
#[derive(Clone, Copy, Drop)]
pub struct Space;

impl Class<char> for Space {
    ghost bytes = { codes "whitespace" };

    ghost members = { is_space_char };

    fn text() -> &'static str {
        "whitespace"
    }

    fn has(token: char) -> bool {
        token.is_whitespace()
    }
}

impl Class<u8> for Space {
    ghost bytes = { codes "space" };

    ghost members = { is_space_byte };

    fn text() -> &'static str {
        "space"
    }

    fn has(token: u8) -> bool {
        token.is_ascii_whitespace()
    }
}

/// Line feed.
#[derive(Clone, Copy, Drop)]
pub struct Newline;

impl Class<char> for Newline {
    ghost bytes = { codes "lf newline" };

    ghost members = { is_newline_char };

    fn text() -> &'static str {
        "lf newline"
    }

    fn has(token: char) -> bool {
        token == '\n'
    }
}

impl Class<u8> for Newline {
    ghost bytes = { codes "lf newline" };

    ghost members = { is_newline_byte };

    fn text() -> &'static str {
        "lf newline"
    }

    fn has(token: u8) -> bool {
        token == b'\n'
    }
}

/// Carriage return.
#[derive(Clone, Copy, Drop)]
pub struct CarriageReturn;

impl Class<char> for CarriageReturn {
    ghost bytes = { codes "carriage return" };

    ghost members = { is_carriage_return_char };

    fn text() -> &'static str {
        "carriage return"
    }

    fn has(token: char) -> bool {
        token == '\r'
    }
}

impl Class<u8> for CarriageReturn {
    ghost bytes = { codes "carriage return" };

    ghost members = { is_carriage_return_byte };

    fn text() -> &'static str {
        "carriage return"
    }

    fn has(token: u8) -> bool {
        token == b'\r'
    }
}

/// Tab.
#[derive(Clone, Copy, Drop)]
pub struct Tab;

impl Class<char> for Tab {
    ghost bytes = { codes "tab" };

    ghost members = { is_tab_char };

    fn text() -> &'static str {
        "tab"
    }

    fn has(token: char) -> bool {
        token == '\t'
    }
}

impl Class<u8> for Tab {
    ghost bytes = { codes "tab" };

    ghost members = { is_tab_byte };

    fn text() -> &'static str {
        "tab"
    }

    fn has(token: u8) -> bool {
        token == b'\t'
    }
}

/// Of characters: the property Uppercase. Of bytes: `A` to `Z`.
#[derive(Clone, Copy, Drop)]
pub struct Upper;

impl Class<char> for Upper {
    ghost bytes = { codes "uppercase letter" };

    ghost members = { is_upper_char };

    fn text() -> &'static str {
        "uppercase letter"
    }

    fn has(token: char) -> bool {
        is_uppercase(token)
    }
}

impl Class<u8> for Upper {
    ghost bytes = { codes "upper" };

    ghost members = { is_upper_byte };

    fn text() -> &'static str {
        "upper"
    }

    fn has(token: u8) -> bool {
        token.is_ascii_uppercase()
    }
}

/// Of characters: the property Lowercase. Of bytes: `a` to `z`.
#[derive(Clone, Copy, Drop)]
pub struct Lower;

impl Class<char> for Lower {
    ghost bytes = { codes "lowercase letter" };

    ghost members = { is_lower_char };

    fn text() -> &'static str {
        "lowercase letter"
    }

    fn has(token: char) -> bool {
        is_lowercase(token)
    }
}

impl Class<u8> for Lower {
    ghost bytes = { codes "lower" };

    ghost members = { is_lower_byte };

    fn text() -> &'static str {
        "lower"
    }

    fn has(token: u8) -> bool {
        token.is_ascii_lowercase()
    }
}

/// Of characters: the property Alphabetic. Of bytes: `A` to `Z` and `a` to `z`.
#[derive(Clone, Copy, Drop)]
pub struct Letter;

impl Class<char> for Letter {
    ghost bytes = { codes "letter" };

    ghost members = { is_letter_char };

    fn text() -> &'static str {
        "letter"
    }

    fn has(token: char) -> bool {
        // Looking in the table takes longer.
        if token.is_ascii_alphabetic() {
            return true;
        }
        is_alphabetic(token)
    }
}

impl Class<u8> for Letter {
    ghost bytes = { codes "letter" };

    ghost members = { is_letter_byte };

    fn text() -> &'static str {
        "letter"
    }

    fn has(token: u8) -> bool {
        token.is_ascii_alphabetic()
    }
}

/// Of characters: the property Alphabetic, or a general category of numbers (Nd, Nl or No). Of bytes: letters and digits of ASCII.
#[derive(Clone, Copy, Drop)]
pub struct AlphaNum;

impl Class<char> for AlphaNum {
    ghost bytes = { codes "letter or digit" };

    ghost members = { is_alpha_num_char };

    fn text() -> &'static str {
        "letter or digit"
    }

    fn has(token: char) -> bool {
        <Letter as Class<char>>::has(token)
            || GeneralCategoryGroup::Number.contains(GeneralCategory::for_char(token))
    }
}

impl Class<u8> for AlphaNum {
    ghost bytes = { codes "alpha_num" };

    ghost members = { is_alpha_num_byte };

    fn text() -> &'static str {
        "alpha_num"
    }

    fn has(token: u8) -> bool {
        token.is_ascii_alphanumeric()
    }
}
