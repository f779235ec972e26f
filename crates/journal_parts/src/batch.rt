//! Packets that are handed in to a node at once.

ghost use Rattle.std.specs.Prelude.{◌≡◌, ◌+◌, [], IfOk, false, length, true};
ghost use Rattle.journal_parts.specs.Batches.{IsOneMore};

use std::alloc::{AllocError, Global};
use synod_acceptor::Packet;

/// The most packets that are handed in at once.
pub const MOST_AT_ONCE: u64 = 64;

/// The numbers of packets that are handed in to a node at once: of those by which it may save something, no two of one message, and of the others.
#[derive(Drop)]
pub struct Batch {
    pub saving: Vec<u64>,
    pub others: Vec<u64>,
    // The messages of those that save.
    messages: Vec<u64>,
}

impl Batch {
    /// None.
    pub(crate) fn none(alloc: Global) -> Batch
        ensures saving { result.saving.items ≡ [] }
        ensures others { result.others.items ≡ [] }
    {
        Batch {
            saving: Vec::new(alloc),
            others: Vec::new(alloc),
            messages: Vec::new(alloc),
        }
    }

    /// How many there are.
    pub fn len(&self) -> u64
        ensures { result ≡ length self.now.saving.items + length self.now.others.items }
    {
        self.saving.len() as u64 + self.others.len() as u64
    }

    /// Adds the packet of a number; whether it does: not if one of its message is there by which the node may save something, and neither may come before the
    /// other is through. An `Err` is want of memory.
    pub(crate) fn add(&mut self, number: u64, packet: &Packet) -> Result<bool, AllocError>
        ensures added { IfOk result (λ added. added ≡ true →
            IsOneMore number self.old.saving.items self.old.others.items self.new.saving.items self.new.others.items) }
        ensures stays { IfOk result (λ added. added ≡ false → self.new ≡ self.old) }
    {
        let Some(message) = message_of(packet) else {
            self.others.push(number)?;
            return Ok(true);
        };
        if self.messages.as_slice().contains(&message) {
            return Ok(false);
        }
        self.messages.push(message)?;
        self.saving.push(number)?;
        Ok(true)
    }
}

/// The message of a packet by which a node may save something.
fn message_of(packet: &Packet) -> Option<u64> {
    match packet {
        Packet::Prepare { slot, .. } => Some(slot.id.number()),
        Packet::Propose { vote, .. } => Some(vote.chain.id().number()),
        _ => None,
    }
}
