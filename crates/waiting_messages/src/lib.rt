//! The messages that wait on a server, for a worker or for their next attempt, and what says which of them are next.
#![tactic(auto)]

mod accounts;
mod attempt;
mod backlog;
mod lane;
mod lanes;
mod laws;
mod naming;
mod presence;
mod queue;
mod spread;

pub use backlog::Backlog;
pub use lanes::Lanes;
pub use laws::one_node_begins;
pub use naming::Naming;
pub use presence::Presence;
pub use spread::Spread;
