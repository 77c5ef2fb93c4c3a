//! A digit.
ghost use Rattle.std.specs.Prelude.{◌≡◌, ◌+◌, ◌-◌, ◌∷◌, true, IfOk};
ghost use Rattle.std.specs.Char.{is_ascii_digit};

use crate::slices::is_digit;
use combine::error::UnexpectedParse;
use combine::parser::Parser;
use combine::parser::combinator::map;
use combine::parser::token::satisfy;

/// Returns the number that the first byte says, a digit, and what stands behind it.
pub fn first_digit(input: &[u8]) -> Result<(u8, &[u8]), UnexpectedParse>
    ensures { IfOk result (λ p. input.now ≡ (p.0 + 48) ∷ p.1.now) }
{
    map(satisfy(is_digit), digit_value).parse(input)
}

/// Returns the number that a digit says.
fn digit_value(digit: u8) -> u8
    requires { is_ascii_digit digit ≡ true }
    ensures { result + 48 ≡ digit }
{
    digit - b'0'
}
