//! What wakes the thread in which a node ticks.

use serve_sessions::Signal;
use std::sync::Wait;
use std::sync::atomic::{AtomicU64, Ordering};

/// What wakes the thread in which a node ticks: that something is due there, so that it is to tick at once, that packets have come which it waits for, or that the
/// life of the node is over.
#[derive(Drop)]
pub struct Bell {
    // Of what is due first, the number of the first packet that need not have come before the node ticks at once; 0 if nothing is due.
    due: AtomicU64,
    // The same of what was due last.
    last: AtomicU64,
    signal: Signal,
}

impl Bell {
    /// It is silent, and nothing is due.
    pub fn silent() -> Bell {
        Bell {
            due: AtomicU64::new(0),
            last: AtomicU64::new(0),
            signal: Signal::silent(),
        }
    }

    /// Something is due at the node once the packets up to this number have come to it.
    pub fn call(&self, number: u64) {
        let behind = number.saturating_add(1);
        let _ = self.last.fetch_max(behind, Ordering::SeqCst);
        if !self.call_alone(behind) {
            let _ = self.due.fetch_min(behind, Ordering::SeqCst);
        }
        self.ring();
    }

    /// If nothing is due, something is from now on; whether nothing was.
    fn call_alone(&self, behind: u64) -> bool {
        self.due
            .compare_exchange(0, behind, Ordering::SeqCst, Ordering::SeqCst)
            .is_ok()
    }

    /// Whether something is due at a node that the packets below this number have come to.
    pub fn is_due(&self, next: u64) -> bool {
        let due = self.due.load(Ordering::SeqCst);
        due > 0 && due <= next
    }

    /// Whether something is due at the node behind this packet.
    pub fn awaits(&self, number: u64) -> bool {
        self.due.load(Ordering::SeqCst) == number.saturating_add(1)
    }

    /// The node ticks, and the packets below this number have come to it: what waits for another one alone is still due.
    pub fn tick(&self, next: u64) {
        self.due.store(0, Ordering::SeqCst);
        let last = self.last.load(Ordering::SeqCst);
        if last > next {
            let _ = self.call_alone(last);
        }
    }

    /// The thread wakes, if it waits, and else does not wait the next time.
    pub fn ring(&self) {
        self.signal.ring();
    }

    /// Waits until it rings, so many milliseconds at most. It may end before that.
    pub fn wait<R: Wait>(&self, rt: &R, most: u64) {
        self.signal.wait(rt, most);
    }
}
