//! The laws of decoders, cited of frames.
ghost use Rattle.std.specs.Prelude.{◌≡◌};
ghost use Rattle.combine_decode.specs.Frames.{frame_of};

use combine::decode::frame;
use combine::decode::laws::{cuts_agree, messages_are_one, messages_go_on};
use combine::decode::types::Frame;
use combine::stream::fed;
use std::alloc::Global;

/// However bytes are cut, the frames in them are the same, and no others; and they stay where more bytes follow.
fn frames(alloc: Global) {
    let maker = || -> Frame<fed::Stream<u8>>
        ensures { result ≡ frame_of alloc }
    { frame(alloc) };
    messages_go_on(&maker);
    messages_are_one(&maker);
    cuts_agree(&maker);
}
