//! What is put for the sessions of a node, before it goes onto their connections.

ghost use Rattle.std.specs.Prelude.{◌≡◌, ◌++◌, [], OnErr, OnOk};
ghost use Rattle.serve_nodes.specs.Frames.{those};

use connection_parts::Frame;
use esme_service::Sending;
use esme_site::Outlet;
use pdu_codec::SystemId;
use sessions::Outgoing;
use std::alloc::{AllocError, Global};
use waiting_requests::{Answer, Reply};

/// How many numbers there are of which a session may have one.
const NUMBERS: usize = 256;

/// What is put for the sessions of a node by one call, before it goes onto their connections: frames, the oldest first; whether some sessions are lost, since there
/// was no memory for what they were to get, and which; and how many receipts and final states were put.
#[derive(Drop)]
pub struct Frames {
    alloc: Global,
    pub(crate) frames: Vec<Frame>,
    pub(crate) has_lost: bool,
    pub(crate) lost: [bool; NUMBERS],
    pub(crate) receipts: u64,
    pub(crate) fates: u64,
}

impl Frames {
    /// Nothing was put.
    pub(crate) fn none(alloc: Global) -> Frames
        ensures { result.frames.items ≡ [] }
    {
        Frames {
            alloc,
            frames: Vec::new(alloc),
            has_lost: false,
            lost: [false; NUMBERS],
            receipts: 0,
            fates: 0,
        }
    }

    /// A frame is put behind the others, if there is one. An `Err` is want of memory; then it is dropped.
    fn push(&mut self, frame: Option<Frame>) -> Result<(), AllocError>
        ensures put { OnOk result (self.new.frames.items ≡ self.old.frames.items ++ those frame) }
        ensures err { OnErr result (self.new.frames.items ≡ self.old.frames.items) }
    {
        match frame {
            Some(frame) => self.frames.push(frame)?,
            None => {}
        }
        Ok(())
    }

    /// What goes out is counted.
    fn count(&mut self, sending: &Sending)
        ensures { self.new.frames ≡ self.old.frames }
    {
        let (receipts, fates) = match sending {
            Sending::Reply(_, reply) => (0, final_states(reply)),
            Sending::Attempt(..) => (0, 0),
            Sending::Receipt(..) => (1, 1),
        };
        self.receipts = self.receipts.saturating_add(receipts);
        self.fates = self.fates.saturating_add(fates);
    }
}

impl Outlet for Frames {
    ghost use Rattle.serve_nodes.specs.Frames.{Puts, puts_both, puts_none};

    ghost puts = { λ before prints lost after. Puts before.frames.items prints after.frames.items };

    fn put(&mut self, sending: &Sending) -> Result<(), AllocError> {
        let frame = Frame::of_sending(self.alloc, sending)?;
        self.push(frame)?;
        self.count(sending);
        Ok(())
    }

    fn respond(
        &mut self,
        system_id: &SystemId,
        number: u8,
        outgoing: Outgoing,
    ) -> Result<(), AllocError> {
        let frame = Frame::of_response(self.alloc, system_id, number, outgoing)?;
        self.push(Some(frame))
    }

    /// No frame tells it: its connection ends.
    fn end(&mut self, _number: u8) -> Result<(), AllocError> {
        Ok(())
    }

    fn lose(&mut self, number: u8) {
        self.has_lost = true;
        self.lost[usize::from(number)] = true;
    }

    ghost rests = { λ at. puts_none at.frames.items };

    ghost follows = { λ before between after first last lost more one two.
        puts_both before.frames.items between.frames.items after.frames.items first last one two };
}

/// How many final states a reply tells.
fn final_states(reply: &Reply) -> u64 {
    match reply.answer() {
        Answer::Shown(chain) | Answer::Removed(chain) if chain.fate().is_some() => 1,
        _ => 0,
    }
}
