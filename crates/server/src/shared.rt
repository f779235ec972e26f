//! What the threads of the nodes share in a part of the journal.

use crate::seat_pool::SeatPool;
use node_workers::{Begins, Cluster};
use serve_nodes::House;
use stable_store::GroupStore;
use std::sync::Arc;

/// What the threads of the nodes share in a part of the journal.
#[derive(Drop)]
pub(crate) struct Shared<S: GroupStore, L: Begins> {
    pub(crate) house: Arc<House>,
    pub(crate) cluster: Cluster<S, L>,
    pub(crate) seats: SeatPool<L>,
}
