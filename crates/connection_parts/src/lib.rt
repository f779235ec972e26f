//! What a server keeps of one connection with an ESME: the frames that wait to be written, and the places of the workers that deliver over it.
#![tactic(auto)]

mod fitting;
mod frame;
mod frame_queue;
mod laws;
mod moments;
mod outbox;
mod place;
mod stamp;
mod tally;
mod timepiece;

pub use fitting::without_optional;
pub use frame::Frame;
pub use frame_queue::{FrameQueue, MANY_FRAMES, MOST_FRAMES};
pub use laws::{
    no_frame_of_another_session_is_taken, only_what_was_sent_is_answered,
    time_is_near_left_or_awaited, what_was_taken_back_is_never_taken,
};
pub use moments::moment_at;
pub use outbox::{Outbox, Withdrawal};
pub use place::{Job, Place};
pub use stamp::stamp_at;
pub use tally::Tally;
pub use timepiece::Timepiece;
