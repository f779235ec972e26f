//! The packets between the nodes of a cluster.
#![tactic(auto)]

mod packets;

pub use packets::Packets;
