//! Which characters each parser takes, stated by a function that does nothing: a parser of another class would be of a right type too.
ghost use Rattle.std.specs.Prelude.{codes};
ghost use Rattle.combine_base.specs.Parser.Meaning.{MeansSame};
ghost use Rattle.combine_char.specs.Characters.{is_alpha_num_char, is_carriage_return_char, is_digit_char, is_hex_digit_char, is_letter_char, is_lower_char, is_newline_char, is_oct_digit_char, is_space_char, is_tab_char, is_upper_char};
ghost use Rattle.combine_char.specs.Classes.{takes_crlf, takes_member};
ghost use Rattle.combine_char.specs.NamedParser.{named};
ghost use Rattle.combine_char.specs.TextParsers.{in_class_parser, named_parser, whole_pair_parser};
ghost use Rattle.combine_repeat.specs.ManyParsers.{skip_many_of};
ghost use Rattle.combine_repeat.specs.Repetition.{skip_many};

use super::types::{
    AlphaNum, CrLf, Digit, HexDigit, Letter, Lower, Newline, OctDigit, Space, Spaces, Tab, Upper,
};
use combine_base::error::ParseError;
use combine_base::parser::Parser;
use combine_base::stream::Stream;

/// The law of the classes: one character of that set, and the text that errors say was expected.
///
/// `crlf` is a carriage return and then a line feed, and `spaces` as many of `space` as there are.
#[inline]
pub fn classes<Input: Stream<Token = char>>()
where
    Input::Error: ParseError<char, Input::Range, Input::Position>,
    ensures digit { MeansSame (⟦<Digit<Input> as Parser<Input>>⟧.meaning in_class_parser) (takes_member Input.Error.observers is_digit_char (codes "digit")) }
    ensures oct_digit { MeansSame (⟦<OctDigit<Input> as Parser<Input>>⟧.meaning in_class_parser) (takes_member Input.Error.observers is_oct_digit_char (codes "octal digit")) }
    ensures hex_digit { MeansSame (⟦<HexDigit<Input> as Parser<Input>>⟧.meaning in_class_parser) (takes_member Input.Error.observers is_hex_digit_char (codes "hexadecimal digit")) }
    ensures space { MeansSame (⟦<Space<Input> as Parser<Input>>⟧.meaning in_class_parser) (takes_member Input.Error.observers is_space_char (codes "whitespace")) }
    ensures newline { MeansSame (⟦<Newline<Input> as Parser<Input>>⟧.meaning in_class_parser) (takes_member Input.Error.observers is_newline_char (codes "lf newline")) }
    ensures tab { MeansSame (⟦<Tab<Input> as Parser<Input>>⟧.meaning in_class_parser) (takes_member Input.Error.observers is_tab_char (codes "tab")) }
    ensures upper { MeansSame (⟦<Upper<Input> as Parser<Input>>⟧.meaning in_class_parser) (takes_member Input.Error.observers is_upper_char (codes "uppercase letter")) }
    ensures lower { MeansSame (⟦<Lower<Input> as Parser<Input>>⟧.meaning in_class_parser) (takes_member Input.Error.observers is_lower_char (codes "lowercase letter")) }
    ensures letter { MeansSame (⟦<Letter<Input> as Parser<Input>>⟧.meaning in_class_parser) (takes_member Input.Error.observers is_letter_char (codes "letter")) }
    ensures alpha_num { MeansSame (⟦<AlphaNum<Input> as Parser<Input>>⟧.meaning in_class_parser) (takes_member Input.Error.observers is_alpha_num_char (codes "letter or digit")) }
    ensures crlf { MeansSame (⟦<CrLf<Input> as Parser<Input>>⟧.meaning (named_parser (whole_pair_parser (in_class_parser, in_class_parser)))) (takes_crlf Input.step Input.Error.observers is_carriage_return_char is_newline_char) }
    ensures spaces { MeansSame (⟦<Spaces<Input> as Parser<Input>>⟧.meaning (named_parser (skip_many_of in_class_parser))) (named (codes "whitespaces") (skip_many Input.step Input.Error.observers (takes_member Input.Error.observers is_space_char (codes "whitespace")))) }
{}
