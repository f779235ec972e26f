//! What a node is made of: what it keeps of one message, the shelf of its messages, and what comes to it and goes out.
#![tactic(auto)]

mod attempts;
mod awake;
mod comparing;
mod copies;
mod fault;
mod grant_refusal;
mod input;
mod list_room;
mod listing;
mod may_begin;
mod message;
mod message_ids;
mod message_room;
mod message_shelf;
mod noted;
mod outputs;
mod reach;
mod renewal;
mod roll;
mod ruling;
mod sleepers;
mod turn;

pub use fault::StepFault;
pub use grant_refusal::GrantRefusal;
pub use input::{Input, sender};
pub use may_begin::MayBegin;
pub use message::Message;
pub use message_ids::MessageIds;
pub use message_room::MessageRoom;
pub use message_shelf::{MessageShelf, lower_of};
pub use outputs::Outputs;
pub use reach::Reach;
pub use ruling::Ruling;
pub use synod_learner::Recount;
pub use turn::Turn;
