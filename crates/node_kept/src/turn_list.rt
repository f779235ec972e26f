//! What a tick makes of several messages.

ghost use Rattle.std.specs.Prelude.{◌≡◌, [], OnOk};
ghost use Rattle.node_kept.specs.Ticking.{IsAdded};

use crate::step::Put;
use mc_types::MsgId;
use node_parts::Turn;
use std::alloc::{AllocError, Global};
use synod_acceptor::Packet;

/// What a tick leaves of the messages that are not kept as they were, and the Prepares of the rounds that start, both in the order of the
/// messages.
#[derive(Drop)]
pub struct TurnList {
    pub messages: Vec<Put>,
    pub packets: Vec<Packet>,
}

impl TurnList {
    /// Of no message. It takes no memory.
    pub fn empty(alloc: Global) -> TurnList
        ensures messages { result.messages.items ≡ [] }
        ensures packets { result.packets.items ≡ [] }
    {
        TurnList {
            messages: Vec::new(alloc),
            packets: Vec::new(alloc),
        }
    }

    /// Adds what a tick makes of the message of this id. An `Err` is want of memory.
    pub fn add(&mut self, alloc: Global, id: MsgId, turn: Turn) -> Result<(), AllocError>
        ensures { OnOk result (IsAdded self.old id turn self.new) }
    {
        let Turn { message, packet } = turn;
        let message = Box::new(alloc, message)?;
        self.messages.push(Put { id, message })?;
        if let Some(packet) = packet {
            self.packets.push(packet)?;
        }
        Ok(())
    }
}
