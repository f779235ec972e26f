//! Workers, which deliver the attempts of messages over a cluster of nodes in threads.
#![tactic(auto)]

mod attempting;
mod carrying;
mod hinting;
mod home;
mod working;

pub use attempting::{Heard, tried};
pub use hinting::hint;
pub use home::Home;
pub use node_threads::{
    Action, Attempt, Begins, Cluster, Defaults, Journal, Life, Loaded, MOST_SEATS, MayBegin,
    MessageIds, Node, Outputs, Packet, Past, Reach, Refusal, Seat, Slip, StartFault, Step,
    all_parts_are_one, begin_nodes, closed_journals_go_on, load_nodes,
};
pub use working::worker;
