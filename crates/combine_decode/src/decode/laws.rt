//! What messages are beside one another, and what a frame is. The functions do nothing: their contracts are the laws.
ghost use Rattle.std.specs.Global.{Vec};
ghost use Rattle.std.specs.Prelude.{ℕ};
ghost use Rattle.combine_base.specs.Parser.Outcome.{Outcome};
ghost use Rattle.combine_base.specs.Stream.View.{View};
ghost use Rattle.combine_decode.specs.Frames.{frame_of, framed};
ghost use Rattle.combine_decode.specs.MessageLaws.{AreOne, CutsAgree, GoOn};
ghost use Rattle.combine_decode.specs.Messages.{IsMade, SharesMeaning, made_reading};

use crate::decode::types::Frame;
use combine_base::error::ParseError;
use combine_base::function::Maker;
use combine_base::parser::Parser;
use combine_base::stream::{Stream, fed};
use std::alloc::Global;

/// The law that the messages of tokens with more after them begin with those of the tokens, and go on with those of what was left and the rest.
pub fn messages_go_on<F: Maker<Output = P>, P: Parser<fed::Stream<T>>, T: Copy + 'static>(maker: &F)
    requires { IsMade (F.returns maker.now) P.lawful }
    ensures { GoOn (made_reading P.meaning (F.returns maker.now)) }
{}

/// The law that tokens have one division into messages, and one end, where the maker's parsers share one meaning that has one outcome.
///
/// A message's value is any that the meaning allows. How many tokens a refusal counts is not said by a meaning, so ends are compared without it.
pub fn messages_are_one<F: Maker<Output = P>, P: Parser<fed::Stream<T>>, T: Copy + 'static>(
    maker: &F,
)
    requires lawful { IsMade (F.returns maker.now) P.lawful }
    requires determined { IsMade (F.returns maker.now) P.determined }
    requires shared { SharesMeaning P.meaning (F.returns maker.now) }
    ensures { AreOne (made_reading P.meaning (F.returns maker.now)) }
{}

/// The law that however the same tokens are cut into pieces, there are as many messages, and the same end, where the maker's parsers share one meaning that has one outcome.
///
/// The ends may differ in how many tokens a refusal counts.
pub fn cuts_agree<F: Maker<Output = P>, P: Parser<fed::Stream<T>>, T: Copy + 'static>(maker: &F)
    requires lawful { IsMade (F.returns maker.now) P.lawful }
    requires determined { IsMade (F.returns maker.now) P.determined }
    requires shared { SharesMeaning P.meaning (F.returns maker.now) }
    ensures { CutsAgree (made_reading P.meaning (F.returns maker.now)) }
{}

/// The law that the value of `frame` is exactly the bytes after a length, as many as it says.
///
/// If some are missing more is asked for, or ended input is refused; nothing else is.
pub fn frame_is_a_length_and_its_bytes<Input: Stream<Token = u8>>(alloc: Global)
where
    Input::Error: ParseError<u8, Input::Range, Input::Position>,
    ensures { (v : View Input.Position ℕ) (o : Outcome (Vec ℕ)) → (⟦<Frame<Input> as Parser<Input>>⟧.meaning (frame_of alloc)).whole v o → framed v o }
{}
