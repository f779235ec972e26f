//! A step in a group.

use crate::step::{Next, Step};
use mc_types::MsgId;
use std::snapshot::Snapshot;
use synod_acceptor::Packet;

/// The step of a packet in a group: the message for which the packet asks, and what is kept after it, but for its change, which waits with those of
/// the others, and for room.
#[derive(Drop)]
pub struct GroupedStep {
    pub(crate) packet: Packet,
    pub(crate) id: MsgId,
    pub(crate) next: Next,
    // The step as it was prepared.
    pub(crate) whole: Snapshot<Step>,
}
