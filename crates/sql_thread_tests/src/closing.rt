//! The end of a cluster over stores on disk.

use node_threads::{Begins, Cluster, Journal, Seat};
use stable_store::StableStore;
use std::process::Abort;

/// Its journal, as it closes with all seats that have slips.
pub fn closed<S: StableStore + Drop, L: Begins>(
    rt: &impl Abort,
    cluster: Cluster<S, L>,
    seats: Vec<Seat<L>>,
) -> Journal<S> {
    match cluster.close(seats) {
        Ok(journal) => journal,
        Err(_) => panic!(rt; "no seat is missing"),
    }
}
