//! Nodes, incarnations, moments, message ids and ballots, of which only those in range exist; slots, and sets of nodes.
#![tactic(auto)]

mod ballot;
mod fault;
mod id;
mod node_set;
mod number;
mod slot;

pub use ballot::Ballot;
pub use fault::TypeFault;
pub use id::{LAST_SERIAL, MsgId, ids_are_their_texts};
pub use node_set::NodeSet;
pub use number::{Incarnation, LAST_INCARNATION, MOST_NODES, Moment, NodeNo};
pub use slot::Slot;
