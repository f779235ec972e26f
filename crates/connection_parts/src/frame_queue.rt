//! The frames that wait on a connection.

ghost use Rattle.std.specs.Prelude.{◌≡◌, [], false, IfOk};
ghost use Rattle.std.specs.List.{slice_get};
ghost use Rattle.connection_parts.specs.FrameQueues.{after_put, after_take, can_put, cut, has_room, is_idle, shut};

use crate::frame::Frame;
use std::alloc::{AllocError, Global};
use std::collections::VecDeque;
use std::marker::Model;

/// How many frames may wait in a queue.
pub const MOST_FRAMES: usize = 64;
/// From how many frames on that wait in a queue nothing is to be done by which another may come.
pub const MANY_FRAMES: usize = 32;

/// Frames that wait on a connection, to be written or to be served, the oldest first; it may be shut. Room for 64 is made once.
#[derive(Drop)]
pub struct FrameQueue<F: Drop> {
    frames: VecDeque<F>,
    is_shut: bool,
}

impl<F: Drop> Model for FrameQueue<F> {
    ghost use Rattle.std.specs.Prelude.{◌≡◌, ◌≤◌, length};
    ghost use Rattle.std.specs.VecDeque.{deque_capacity};
    ghost use Rattle.connection_parts.specs.FrameQueues.{FrameQueue};

    ghost Value = { FrameQueue F };

    ghost view = { λ queue. record { frames = queue.frames.items; is_shut = queue.is_shut } };

    ghost invariant = { λ queue. (length queue.frames.items ≤ 64) × (deque_capacity queue.frames ≡ 64) };
}

impl<F: Drop> FrameQueue<F> {
    /// No frame, and room for 64. It is not shut.
    pub fn make(alloc: Global) -> Result<FrameQueue<F>, AllocError>
        ensures frames { IfOk result (λ queue. queue.frames ≡ []) }
        ensures open { IfOk result (λ queue. queue.is_shut ≡ false) }
    {
        Ok(FrameQueue {
            frames: VecDeque::with_capacity(alloc, MOST_FRAMES)?,
            is_shut: false,
        })
    }

    /// Puts a frame at the end. False, and it is dropped, if the queue is shut or 64 frames wait. It takes no memory.
    pub fn put(&mut self, frame: F) -> bool
        ensures put { result ≡ can_put self.old }
        ensures after { self.new ≡ after_put self.old frame }
    {
        if self.is_shut || self.frames.len() >= MOST_FRAMES {
            return false;
        }
        self.frames.push_back_reserved(frame);
        true
    }

    /// Takes the oldest frame; none if none waits.
    pub fn take(&mut self) -> Option<F>
        ensures oldest { result ≡ slice_get self.old.frames 0 }
        ensures others { self.new ≡ after_take self.old }
    {
        self.frames.pop_front()
    }

    /// Whether who takes frames has to wait: none waits, and the queue is not shut.
    pub fn is_idle(&self) -> bool
        ensures { result ≡ is_idle self.now }
    {
        self.frames.is_empty() && !self.is_shut
    }

    /// Whether what brings frames need not wait: fewer than 32 wait, or the queue is shut.
    pub fn has_room(&self) -> bool
        ensures { result ≡ has_room self.now }
    {
        self.frames.len() < MANY_FRAMES || self.is_shut
    }

    /// Whether the queue is shut.
    pub fn is_shut(&self) -> bool
        ensures { result ≡ self.now.is_shut }
    {
        self.is_shut
    }

    /// Shuts the queue: no frame is put any more. What waits can be taken.
    pub fn shut(&mut self)
        ensures { self.new ≡ shut self.old }
    {
        self.is_shut = true;
    }

    /// Shuts the queue, and drops what waits.
    pub fn cut(&mut self)
        ensures { self.new ≡ cut self.old }
    {
        self.shut();
        self.frames.clear();
    }
}

impl FrameQueue<Frame> {
    ghost use Rattle.connection_parts.specs.Outboxes.{frames_without, waits_for};

    /// The deliver_sm of the attempt that was pushed with this sequence_number waits no more. Whether it did.
    pub(crate) fn take_back(&mut self, sequence: u32) -> bool
        ensures waited { result ≡ waits_for self.old sequence }
        ensures after { self.new ≡ frames_without self.old sequence }
    {
        let waited = self.frames.iter().any(|frame| frame.is_of(sequence));
        self.frames.retain(|frame| !frame.is_of(sequence));
        waited
    }
}
