//! How far the rounds are that the last tick of a node began.

use std::sync::atomic::{AtomicU64, Ordering};

/// How many packets of a round come one behind the other (Paxos Made Simple, section 2.2): it asks for promises, has them, proposes, and is voted for.
const PHASES: u64 = 4;

/// How far the rounds are that the last tick of a node began: so many of their phases are left, and the packets up to this number are to come before the next
/// one. They outlast a part of the journal.
#[derive(Drop)]
pub struct Rounds {
    left: AtomicU64,
    awaited: AtomicU64,
}

impl Rounds {
    /// None was begun, or all are through.
    pub fn none() -> Rounds {
        Rounds {
            left: AtomicU64::new(0),
            awaited: AtomicU64::new(0),
        }
    }

    /// A tick began rounds, by packets up to this number.
    pub fn begin(&self, newest: u64) {
        self.awaited.store(newest, Ordering::SeqCst);
        self.left.store(PHASES, Ordering::SeqCst);
    }

    /// Up to which number packets are to come. None if the rounds are through.
    pub fn awaited(&self) -> Option<u64> {
        (self.left.load(Ordering::SeqCst) > 0).then_some(self.awaited.load(Ordering::SeqCst))
    }

    /// Whether they wait for this packet, and for none behind it.
    pub fn awaits(&self, number: u64) -> bool {
        self.awaited() == Some(number)
    }

    /// Those packets have come, by which others were sent, up to this number.
    pub fn pass(&self, newest: u64) {
        self.awaited.store(newest, Ordering::SeqCst);
        let left = self.left.load(Ordering::SeqCst);
        self.left.store(left.saturating_sub(1), Ordering::SeqCst);
    }

    /// Nobody waits for them any more.
    pub fn give_up(&self) {
        self.left.store(0, Ordering::SeqCst);
    }
}
