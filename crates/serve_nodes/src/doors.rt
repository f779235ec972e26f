//! Where a server listens, and the lives of its nodes.

use node_core::Life;
use serve_sessions::Entrance;
use std::hash::RandomState;

/// Where its nodes listen, that of node 1 first, and their lives; and where the server tells of itself, if anywhere.
#[derive(Drop)]
pub struct Doors {
    pub entrances: Vec<Entrance>,
    pub lives: Vec<Life>,
    pub status: Option<StatusDoor>,
}

/// Where a server tells of itself, and the keys by which the names in requests are kept.
#[derive(Drop)]
pub struct StatusDoor {
    pub entrance: Entrance,
    pub keys: RandomState,
}
