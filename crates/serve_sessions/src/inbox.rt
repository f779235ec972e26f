//! What came on a connection and waits to be served.

ghost use Rattle.std.specs.Prelude.{◌≡◌, [], None, false, IfOk};
ghost use Rattle.connection_parts.specs.FrameQueues.{after_put, has_room, is_idle};
ghost use Rattle.serve_sessions.specs.Inboxes.{after_next, cut, ended, next};

use crate::notice::Reason;
use connection_parts::FrameQueue;
use std::alloc::{AllocError, Global};
use std::marker::Model;

/// What comes next on a connection for who serves it.
#[derive(Drop)]
pub enum Next {
    /// The octets of a PDU.
    Frame(Vec<u8>),
    /// Nothing more, for this reason.
    End(Reason),
    /// Nothing in this life of the node: it goes on in the next one.
    Rest,
}

/// What came on a connection and waits to be served: PDUs, and why nothing more comes, once that is so.
#[derive(Drop)]
pub(crate) struct Inbox {
    frames: FrameQueue<Vec<u8>>,
    end: Option<Reason>,
}

impl Model for Inbox {
    ghost use Rattle.serve_sessions.specs.Inboxes.{Inbox};

    ghost Value = { Inbox };

    ghost view = { λ inbox. record { frames = inbox.frames; end = inbox.end } };
}

impl Inbox {
    /// Nothing came. An `Err` is want of memory.
    pub(crate) fn make(alloc: Global) -> Result<Inbox, AllocError>
        ensures frames { IfOk result (λ inbox. inbox.frames ≡ record { frames = []; is_shut = false }) }
        ensures end { IfOk result (λ inbox. inbox.end ≡ None) }
    {
        Ok(Inbox {
            frames: FrameQueue::make(alloc)?,
            end: None,
        })
    }

    /// A PDU came. It is dropped if nobody serves any more.
    pub(crate) fn put(&mut self, frame: Vec<u8>)
        ensures { self.new ≡ record self.old { frames = after_put self.old.frames frame } }
    {
        let _ = self.frames.put(frame);
    }

    /// Nothing more comes, for this reason, unless that is so for another.
    pub(crate) fn end(&mut self, reason: Reason)
        ensures { self.new ≡ ended self.old reason }
    {
        if self.end.is_none() {
            self.end = Some(reason);
        }
        self.frames.shut();
    }

    /// Nobody serves any more what came.
    pub(crate) fn cut(&mut self)
        ensures { self.new ≡ cut self.old }
    {
        self.frames.cut();
    }

    /// Whether who reads may read on.
    pub(crate) fn has_room(&self) -> bool
        ensures { result ≡ has_room self.now.frames }
    {
        self.frames.has_room()
    }

    /// Whether nobody serves any more, or nothing more comes.
    pub(crate) fn is_shut(&self) -> bool
        ensures { result ≡ self.now.frames.is_shut }
    {
        self.frames.is_shut()
    }

    /// Whether who serves has to wait.
    pub(crate) fn is_idle(&self) -> bool
        ensures { result ≡ is_idle self.now.frames }
    {
        self.frames.is_idle()
    }

    /// What comes next, which is Rest if nothing does yet.
    pub(crate) fn next(&mut self) -> Next
        ensures next { result ≡ next self.old }
        ensures after { self.new ≡ after_next self.old }
    {
        match (self.frames.take(), self.end) {
            (Some(frame), _) => Next::Frame(frame),
            (None, Some(reason)) => Next::End(reason),
            (None, None) => Next::Rest,
        }
    }
}
