//! Which bytes each parser takes, stated by a function that does nothing: a parser of another class would be of a right type too.
ghost use Rattle.std.specs.Prelude.{codes};
ghost use Rattle.combine_base.specs.Parser.Meaning.{MeansSame};
ghost use Rattle.combine_char.specs.Bytes.{is_alpha_num_byte, is_carriage_return_byte, is_digit_byte, is_hex_digit_byte, is_letter_byte, is_lower_byte, is_newline_byte, is_oct_digit_byte, is_space_byte, is_tab_byte, is_upper_byte};
ghost use Rattle.combine_char.specs.Classes.{takes_crlf, takes_member};
ghost use Rattle.combine_char.specs.NamedParser.{named};
ghost use Rattle.combine_char.specs.TextParsers.{in_class_parser, named_parser, whole_pair_parser};
ghost use Rattle.combine_repeat.specs.ManyParsers.{skip_many_of};
ghost use Rattle.combine_repeat.specs.Repetition.{skip_many};

use super::types::{
    AlphaNum, CrLf, Digit, HexDigit, Letter, Lower, Newline, OctDigit, Space, Spaces, Tab, Upper,
};
use combine_base::error::ParseError;
use combine_base::parser::Parser;
use combine_base::stream::Stream;

/// The law of the classes: one byte of that set, and the text that errors say was expected.
///
/// `crlf` is a carriage return and then a line feed, and `spaces` as many of `space` as there are.
#[inline]
pub fn classes<Input: Stream<Token = u8>>()
where
    Input::Error: ParseError<u8, Input::Range, Input::Position>,
    ensures digit { MeansSame (⟦<Digit<Input> as Parser<Input>>⟧.meaning in_class_parser) (takes_member Input.Error.observers is_digit_byte (codes "digit")) }
    ensures oct_digit { MeansSame (⟦<OctDigit<Input> as Parser<Input>>⟧.meaning in_class_parser) (takes_member Input.Error.observers is_oct_digit_byte (codes "octal digit")) }
    ensures hex_digit { MeansSame (⟦<HexDigit<Input> as Parser<Input>>⟧.meaning in_class_parser) (takes_member Input.Error.observers is_hex_digit_byte (codes "hex_digit")) }
    ensures space { MeansSame (⟦<Space<Input> as Parser<Input>>⟧.meaning in_class_parser) (takes_member Input.Error.observers is_space_byte (codes "space")) }
    ensures newline { MeansSame (⟦<Newline<Input> as Parser<Input>>⟧.meaning in_class_parser) (takes_member Input.Error.observers is_newline_byte (codes "lf newline")) }
    ensures tab { MeansSame (⟦<Tab<Input> as Parser<Input>>⟧.meaning in_class_parser) (takes_member Input.Error.observers is_tab_byte (codes "tab")) }
    ensures upper { MeansSame (⟦<Upper<Input> as Parser<Input>>⟧.meaning in_class_parser) (takes_member Input.Error.observers is_upper_byte (codes "upper")) }
    ensures lower { MeansSame (⟦<Lower<Input> as Parser<Input>>⟧.meaning in_class_parser) (takes_member Input.Error.observers is_lower_byte (codes "lower")) }
    ensures letter { MeansSame (⟦<Letter<Input> as Parser<Input>>⟧.meaning in_class_parser) (takes_member Input.Error.observers is_letter_byte (codes "letter")) }
    ensures alpha_num { MeansSame (⟦<AlphaNum<Input> as Parser<Input>>⟧.meaning in_class_parser) (takes_member Input.Error.observers is_alpha_num_byte (codes "alpha_num")) }
    ensures crlf { MeansSame (⟦<CrLf<Input> as Parser<Input>>⟧.meaning (named_parser (whole_pair_parser (in_class_parser, in_class_parser)))) (takes_crlf Input.step Input.Error.observers is_carriage_return_byte is_newline_byte) }
    ensures spaces { MeansSame (⟦<Spaces<Input> as Parser<Input>>⟧.meaning (named_parser (skip_many_of in_class_parser))) (named (codes "whitespaces") (skip_many Input.step Input.Error.observers (takes_member Input.Error.observers is_space_byte (codes "space")))) }
{}
