//! The nodes of a cluster in threads.
#![tactic(auto)]

mod action;
mod attempting;
mod carrying;
mod closing;
mod cluster;
mod defaults;
mod going_on;
mod hinting;
mod loading;
mod opened;
mod opening;
mod permitting;
mod start_fault;
mod taking;

pub use action::Action;
pub use attempting::Attempt;
pub use closing::{SeatsFault, SeatsOut};
pub use cluster::Cluster;
pub use defaults::Defaults;
pub use journal_parts::{
    Begins, Done, Entry, Journal, MOST_SEATS, MayBegin, MessageIds, Packet, Past, Reach, Refusal,
    Seat, Slip, Step, Unfinished, all_parts_are_one, closed_journals_go_on,
};
pub use loading::{begin_nodes, load_nodes};
pub use node_core::{Life, Loaded, Node, Outputs, Permit};
pub use opened::Opened;
pub use opening::{open_nodes, opened_nodes_begin};
pub use start_fault::StartFault;
