//! What waits to be written on a connection.

ghost use Rattle.std.specs.Prelude.{◌≡◌, [], None, false, IfOk};
ghost use Rattle.std.specs.List.{slice_get};
ghost use Rattle.connection_parts.specs.FrameQueues.{cut, has_room, is_idle, shut};
ghost use Rattle.connection_parts.specs.Outboxes.{after_put, after_take, can_put, withdrawal, without};

use crate::frame::Frame;
use crate::frame_queue::FrameQueue;
use std::alloc::{AllocError, Global};
use std::marker::Model;

/// What becomes of the deliver_sm of an attempt that is given up.
#[derive(Clone, Copy, Debug, PartialEq, Eq)]
pub enum Withdrawal {
    /// It waited to be written, and waits no more: it never goes out.
    Withdrawn,
    /// It is being written.
    UnderWay,
    /// It neither waits nor is being written.
    Over,
}

/// What waits to be written on the connection of a session, and which attempt's deliver_sm is being written.
#[derive(Drop)]
pub struct Outbox {
    number: u8,
    frames: FrameQueue<Frame>,
    in_hand: Option<u32>,
}

impl Model for Outbox {
    ghost use Rattle.connection_parts.specs.Outboxes.{Outbox};

    ghost Value = { Outbox };

    ghost view = { λ outbox. record { number = outbox.number; frames = outbox.frames; in_hand = outbox.in_hand } };
}

impl Outbox {
    /// That of the session of a number: nothing waits, and nothing is being written.
    pub fn make(alloc: Global, number: u8) -> Result<Outbox, AllocError>
        ensures number { IfOk result (λ outbox. outbox.number ≡ number) }
        ensures frames { IfOk result (λ outbox. outbox.frames ≡ record { frames = []; is_shut = false }) }
        ensures in_hand { IfOk result (λ outbox. outbox.in_hand ≡ None) }
    {
        Ok(Outbox {
            number,
            frames: FrameQueue::make(alloc)?,
            in_hand: None,
        })
    }

    /// Puts a frame at the end. False, and it is dropped, if it is one of another session, the outbox is shut or 64 frames wait. It takes no memory.
    pub fn put(&mut self, frame: Frame) -> bool
        ensures put { result ≡ can_put self.old frame }
        ensures after { self.new ≡ after_put self.old frame }
    {
        if frame.number() != self.number {
            drop(frame);
            return false;
        }
        self.frames.put(frame)
    }

    /// Takes the oldest frame, which is being written from then on; none if none waits. What was being written is.
    pub fn take(&mut self) -> Option<Frame>
        ensures oldest { result ≡ slice_get self.old.frames.frames 0 }
        ensures others { self.new ≡ after_take self.old }
    {
        let frame = self.frames.take();
        self.in_hand = frame.as_ref().and_then(|frame| frame.attempt());
        frame
    }

    /// The frame that was taken last is written.
    pub fn written(&mut self)
        ensures { self.new ≡ record self.old { in_hand = None } }
    {
        self.in_hand = None;
    }

    /// The attempt that was pushed with this sequence_number is given up: what becomes of its deliver_sm, which waits no more.
    pub fn take_back(&mut self, sequence: u32) -> Withdrawal
        ensures withdrawal { result ≡ withdrawal self.old sequence }
        ensures after { self.new ≡ without self.old sequence }
    {
        if self.frames.take_back(sequence) {
            return Withdrawal::Withdrawn;
        }
        if self.in_hand == Some(sequence) {
            Withdrawal::UnderWay
        } else {
            Withdrawal::Over
        }
    }

    /// Whether who writes has to wait: no frame waits, and the outbox is not shut.
    pub fn is_idle(&self) -> bool
        ensures { result ≡ is_idle self.now.frames }
    {
        self.frames.is_idle()
    }

    /// Whether what brings frames need not wait: fewer than 32 wait, or the outbox is shut.
    pub fn has_room(&self) -> bool
        ensures { result ≡ has_room self.now.frames }
    {
        self.frames.has_room()
    }

    /// Whether the outbox is shut.
    pub fn is_shut(&self) -> bool
        ensures { result ≡ self.now.frames.is_shut }
    {
        self.frames.is_shut()
    }

    /// Shuts the outbox: no frame is put any more. What waits can be taken.
    pub fn shut(&mut self)
        ensures { self.new ≡ record self.old { frames = shut self.old.frames } }
    {
        self.frames.shut();
    }

    /// Shuts the outbox, and drops what waits.
    pub fn cut(&mut self)
        ensures { self.new ≡ record self.old { frames = cut self.old.frames } }
    {
        self.frames.cut();
    }
}
