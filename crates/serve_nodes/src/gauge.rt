//! What is told of a node.

use mc_types::NodeNo;
use status_page::NodeStatus;
use std::sync::atomic::{AtomicU64, Ordering};
use std::sync::{Mutex, Wait};

/// What is told of a node: what stood at its site behind its last tick, so that who asks waits for no lock that is held for long; its incarnation; and how many
/// ticks came, and how many milliseconds the last one took with its rounds.
#[derive(Drop)]
pub struct Gauge {
    site: Mutex<NodeStatus>,
    incarnation: AtomicU64,
    ticks: AtomicU64,
    taken: AtomicU64,
}

impl Gauge {
    /// Nothing is told yet of the node.
    pub(crate) fn none(node: NodeNo) -> Gauge {
        Gauge {
            site: Mutex::new(NodeStatus::none(node.number())),
            incarnation: AtomicU64::new(0),
            ticks: AtomicU64::new(0),
            taken: AtomicU64::new(0),
        }
    }

    /// Its incarnation of this number goes on.
    pub fn live(&self, incarnation: u16) {
        self.incarnation
            .store(u64::from(incarnation), Ordering::SeqCst);
    }

    /// The rounds are through that its last tick began, so many milliseconds ago.
    pub fn pass(&self, taken: u64) {
        self.taken.store(taken, Ordering::SeqCst);
    }

    /// Another tick came, behind which this stands at its site.
    pub fn show<R: Wait>(&self, rt: &R, site: NodeStatus) {
        let _ = self.ticks.fetch_add(1, Ordering::SeqCst);
        let mut shown = self.site.lock(rt);
        *shown = site;
    }

    /// What is told.
    pub fn status<R: Wait>(&self, rt: &R) -> NodeStatus {
        NodeStatus {
            incarnation: self.incarnation.load(Ordering::SeqCst),
            ticks: self.ticks.load(Ordering::SeqCst),
            tick_milliseconds: self.taken.load(Ordering::SeqCst),
            ..*self.site.lock(rt)
        }
    }
}
