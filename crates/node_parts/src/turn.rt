//! What a tick makes of a message.

use crate::message::Message;
use synod_acceptor::Packet;

/// What a tick leaves of a message that is not kept as it was, and the Prepare of the round that starts, if one does.
#[derive(Drop)]
pub struct Turn {
    pub message: Message,
    pub packet: Option<Packet>,
}
