//! The configuration of a centre's nodes.

use accounts::{Accounts, Routes};
use pdu_codec::SystemId;
use std::net::SocketAddrV4;

/// Where a node listens, and where it keeps its records.
#[derive(Drop)]
pub struct NodeConfig {
    /// The address and the port.
    pub listen: SocketAddrV4,
    /// The path of a file; none: in memory.
    pub store: Option<String>,
}

/// For how many seconds a message is kept that asks for no time, if the text says nothing of it: three days.
pub(crate) const DEFAULT_VALIDITY: u32 = 259_200;

/// What the text of a configuration says.
#[derive(Drop)]
pub struct Config {
    /// The centre's system_id, 1 to 15 octets.
    pub system_id: SystemId,
    /// For how long a message is kept that asks for no time, in seconds, 1 to 31,536,000.
    pub default_validity: u32,
    /// The serial of the first message, 1 to 99999.
    pub first_serial: u32,
    /// After how many sessions the centre ends; 0: never.
    pub stop_after: u64,
    /// The nodes, from that of number 1 on, no more than nine.
    pub nodes: Vec<NodeConfig>,
    /// The accounts, in the order of the text.
    pub accounts: Accounts,
    /// The routes, in the order of the text, each to one of the accounts.
    pub routes: Routes,
}
