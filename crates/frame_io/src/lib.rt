//! Frames from any reader.
#![tactic(auto)]

mod fault;
mod reading;

pub use fault::FrameFault;
pub use reading::next_frame;
