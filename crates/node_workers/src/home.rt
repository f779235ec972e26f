//! Where a worker has attempts granted.

use node_threads::{Begins, Cluster, Life};
use stable_store::StableStore;

/// Where a worker has attempts granted: in a life of one node of a cluster.
#[derive(Drop)]
pub struct Home<'a, S: StableStore, L: Begins> {
    pub cluster: &'a Cluster<S, L>,
    pub life: &'a Life,
}
