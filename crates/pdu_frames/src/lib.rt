//! Whole PDUs out of a stream of octets that comes in any pieces.
#![tactic(auto)]

mod framer;
mod laws;

pub use framer::Framer;
pub use laws::{all_frames_are_given, first_frames_are_given, frames_are_one, stream_has_frames};
