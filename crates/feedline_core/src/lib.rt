//! What the program `feedline` does: it reads piece sizes and an input, feeds the input piece by piece to a parser of messages, and writes a line for each piece that needs more and one for the decision; or it feeds a decoder of frames, and writes a line for each of them.
#![tactic(auto)]

mod args;
mod decoding;
mod fault;
mod feeding;
mod input;
mod lines;
mod message;
mod pieces;

pub use args::{Args, read_args};
pub use decoding::run_frames;
pub use fault::Fault;
pub use feeding::{run, run_limited};
pub use input::{MAX_INPUT, read_input};
pub use message::Message;
