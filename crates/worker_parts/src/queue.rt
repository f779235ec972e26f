//! The ids that wait for a worker.

ghost use Rattle.std.specs.Prelude.{◌≡◌, [], drop, false, true, IfNone, IfOk};
ghost use Rattle.std.specs.List.{slice_get};
ghost use Rattle.worker_parts.specs.Queue.{after_put, can_wait, is_idle, shut};

use mc_types::MsgId;
use std::alloc::{AllocError, Global};
use std::collections::VecDeque;
use std::marker::Model;

/// The ids of messages that wait for a worker, the oldest first, with room for so many; it may be shut.
#[derive(Drop)]
pub struct Queue {
    ids: VecDeque<MsgId>,
    is_shut: bool,
}

impl Model for Queue {
    ghost use Rattle.std.specs.Prelude.{◌≤◌, length};
    ghost use Rattle.std.specs.VecDeque.{deque_capacity};
    ghost use Rattle.worker_parts.specs.Queue.{Queue};

    ghost Value = { Queue };

    ghost view = { λ q. record {
      ids = q.ids.items;
      room = deque_capacity q.ids;
      is_shut = q.is_shut;
    } };

    ghost invariant = { λ q. length q.ids.items ≤ deque_capacity q.ids };
}

impl Queue {
    /// No id, and room for so many. It is not shut.
    pub fn make(alloc: Global, room: usize) -> Result<Queue, AllocError>
        ensures ids { IfOk result (λ queue. queue.ids ≡ []) }
        ensures room { IfOk result (λ queue. queue.room ≡ room) }
        ensures open { IfOk result (λ queue. queue.is_shut ≡ false) }
    {
        Ok(Queue {
            ids: VecDeque::with_capacity(alloc, room)?,
            is_shut: false,
        })
    }

    /// Puts an id at the end, unless it waits already; whether it waits now. It does not if the queue is shut, or if there is no room for it.
    /// It looks at each id that waits, and takes no memory.
    pub fn put(&mut self, id: MsgId) -> bool
        ensures waits { result ≡ can_wait self.old id }
        ensures put { self.new ≡ after_put self.old id }
    {
        if self.is_shut {
            return false;
        }
        if self.ids.contains(&id) {
            return true;
        }
        if self.ids.len() == self.ids.capacity() {
            return false;
        }
        self.ids.push_back_reserved(id);
        true
    }

    /// Whether who takes an id has to wait: none is there, and the queue is not shut.
    pub fn is_idle(&self) -> bool
        ensures { result ≡ is_idle self.now }
    {
        self.ids.is_empty() && !self.is_shut
    }

    /// Takes the oldest id; none if the queue is shut and empty. It is asked only if nobody has to wait.
    pub fn take(&mut self) -> Option<MsgId>
        requires { is_idle self.old ≡ false }
        ensures oldest { result ≡ slice_get self.old.ids 0 }
        ensures others { self.new.ids ≡ drop 1 self.old.ids }
        ensures none { IfNone result ((self.old.is_shut ≡ true) × (self.old.ids ≡ [])) }
        ensures room { self.new.room ≡ self.old.room }
        ensures shut { self.new.is_shut ≡ self.old.is_shut }
    {
        self.ids.pop_front()
    }

    /// Shuts the queue: none is put any more. What waits can be taken.
    pub fn shut(&mut self)
        ensures { self.new ≡ shut self.old }
    {
        self.is_shut = true;
    }
}
