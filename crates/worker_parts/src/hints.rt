//! Hints of what to attempt.

use crate::queue::Queue;
use mc_types::MsgId;
use std::alloc::{AllocError, Global};
use std::sync::{Condvar, Mutex, Wait};

/// What workers hear of: the messages of which an attempt may be granted, by their ids. Threads share it by reference.
///
/// They are hints, on which nothing rests. A worker asks for each attempt, and skips what is not granted; a message of which no worker
/// heard is found again at a later tick, since it is still due then.
///
/// The queue under the lock keeps no more ids than it has room for, and takes none that waits already (`Queue`). No clause can name that
/// queue outside of the lock, so none says here what is put and taken.
#[derive(Drop)]
pub struct Hints {
    queue: Mutex<Queue>,
    changed: Condvar,
}

impl Hints {
    /// No hint, and room for so many, for which memory is taken now and never again. A `put` compares its id with each that waits, under the
    /// lock: choose no more room than that is worth, as 10,000.
    pub fn make(alloc: Global, room: usize) -> Result<Hints, AllocError> {
        Ok(Hints {
            queue: Mutex::new(Queue::make(alloc, room)?),
            changed: Condvar::new(),
        })
    }

    /// Puts an id after the others, unless it waits already, and wakes one who waits to take it. False if it does not wait now: there was no
    /// room, or the hints are shut. Nothing is lost by that: what is still due is found again at the next tick.
    pub fn put(&self, rt: &impl Wait, id: MsgId) -> bool {
        let waits = self.queue.lock(rt).put(id);
        if waits {
            self.changed.notify_one();
        }
        waits
    }

    /// Takes the oldest id. It waits while there is none and the hints are not shut; None if they are shut and there is none, which stays so.
    pub fn take(&self, rt: &impl Wait) -> Option<MsgId> {
        let queue = self.queue.lock(rt);
        let mut queue = self.changed.wait_while(rt, queue, |queue| queue.is_idle());
        queue.take()
    }

    /// Shuts the hints: none is put any more, what waits can be taken, and nobody waits to take one.
    pub fn shut(&self, rt: &impl Wait) {
        self.queue.lock(rt).shut();
        self.changed.notify_all();
    }
}
