//! The learner of the synod: which chains were chosen, by the votes of which it was told (Paxos Made Simple, section 2.3).
#![tactic(auto)]

mod laws;
mod learner;
mod recount;
mod tally;

pub use laws::{other_packets_teach_nothing, what_is_heard_is_known};
pub use learner::Learner;
pub use recount::Recount;
