//! What comes to a node.

ghost use Rattle.std.specs.Prelude.{◌≡◌};
ghost use Rattle.node_model.specs.Stepped.{sender_of};
ghost use Rattle.synod_acceptor.specs.Packets.{packet_of};

use crate::reach::Reach;
use delivery::Outcome;
use desk::Request;
use mc_types::{Moment, MsgId, NodeNo, Slot};
use pdu_codec::SystemId;
use synod_acceptor::Packet;

/// What comes to a node.
#[derive(Drop)]
pub enum Input {
    /// A request of an account: a submit_sm, with the account that a route leads to, if one does, a query_sm or a cancel_sm.
    Request(SystemId, Request),
    /// A packet that a node sent, or that anybody made up.
    Packet(Packet),
    /// The attempt in which the known chain of a message ends is asked for.
    Grant(MsgId),
    /// What came of the attempt in a slot.
    Answered(Slot, Outcome),
    /// Time passes: the moment, with the accounts of which a session may receive, and the messages of which an attempt may begin.
    Tick(Moment, Reach),
}

/// The node that sent a packet, as the packet says.
pub fn sender(packet: &Packet) -> NodeNo
    ensures { result ≡ sender_of (packet_of packet.now) }
{
    match packet {
        Packet::Prepare { from, .. }
        | Packet::Promise { from, .. }
        | Packet::Propose { from, .. }
        | Packet::Voted { from, .. }
        | Packet::Refused { from, .. }
        | Packet::Ask { from, .. }
        | Packet::Tell { from, .. } => *from,
    }
}
