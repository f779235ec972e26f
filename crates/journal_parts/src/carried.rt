//! A packet of an earlier part of the journal.

use synod_acceptor::Packet;

/// A packet of an earlier part of the journal that may still come, under its number.
#[derive(Drop)]
pub struct Carried {
    pub number: u64,
    pub packet: Packet,
}
