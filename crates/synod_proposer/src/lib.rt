//! The proposer of the synod: the rounds of one message (Paxos Made Simple, sections 2.2 and 2.5).
#![tactic(auto)]

mod fault;
mod laws;
mod proposer;
mod round;

pub use fault::ProposerFault;
pub use laws::{a_majority_has_promised, promises_are_counted};
pub use proposer::Proposer;
