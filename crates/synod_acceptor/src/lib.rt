//! The acceptor of the synod, its records, and the packets that nodes send (Paxos Made Simple, sections 2.2 and 2.5).
#![tactic(auto)]

mod acceptor;
mod laws;
mod packet;
mod record;
mod room;
mod vote;

pub use acceptor::{Acceptor, Verdict};
pub use fate_chain::{Author, Chain, MOST_DECREES};
pub use laws::verdicts_keep_the_rule;
pub use packet::{Name, Packet};
pub use record::{Change, Record};
pub use room::RecordRoom;
pub use vote::{Report, Vote};
