//! A step that was taken.

ghost use Rattle.std.specs.Prelude.{◌≡◌, ◌↔◌, IfOk, IsTrue};
ghost use Rattle.journal_parts.specs.Entries.{IsLike};

use node_core::Outputs;
use node_entry::Step;
use std::alloc::AllocError;
use synod_acceptor::Packet;

/// A step that a node took: what came to it, the packet that came by it, if one did, and what it gave out. The step of a start anew has the packet in the save
/// of whose step the node stopped, if it did.
#[derive(Drop)]
pub struct Done {
    pub step: Step,
    pub packet: Option<Packet>,
    pub outputs: Outputs,
}

impl Done {
    /// Whether the other is the same step, by the same packet, which gave out the same. It takes no memory.
    pub fn is(&self, other: &Done) -> bool
        ensures { IsTrue result ↔ IsLike self.now other.now }
    {
        self.step.is(&other.step)
            && is_same_packet(&self.packet, &other.packet)
            && self.outputs.is(&other.outputs)
    }

    /// Its packet once more. An `Err` is want of memory.
    pub(crate) fn packet_again(&self) -> Result<Option<Packet>, AllocError>
        ensures { IfOk result (λ packet. packet ≡ self.now.packet) }
    {
        match &self.packet {
            Some(packet) => Ok(Some(packet.copy()?)),
            None => Ok(None),
        }
    }
}

/// Whether both are the same packet, or none.
fn is_same_packet(packet: &Option<Packet>, other: &Option<Packet>) -> bool
    ensures { IsTrue result ↔ (other.now ≡ packet.now) }
{
    match (packet, other) {
        (Some(packet), Some(other)) => other.is(packet),
        (None, None) => true,
        _ => false,
    }
}
