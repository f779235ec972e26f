//! A save that a stop cut short.

ghost use Rattle.std.specs.Prelude.{◌≡◌, ◌↔◌, IfSome, IsTrue, option_map};
ghost use Rattle.std.specs.Option.{option_copied};
ghost use Rattle.mc_model.specs.synod.Acceptor.{after_vote};
ghost use Rattle.synod_acceptor.specs.Packets.{packet_of};
ghost use Rattle.synod_acceptor.specs.Records.{or_blank};
ghost use Rattle.synod_acceptor.specs.Votes.{record_of, slot_in, slot_recorded, vote_of};
ghost use Rattle.node_kept.specs.declared.stopped.Found.TheVariants.{After};
ghost use Rattle.node_kept.specs.Keeping.{records_of};
ghost use Rattle.node_kept.specs.Finding.{HasSaved, IsFound};

use crate::kept::Kept;
use mc_types::{Ballot, Slot};
use synod_acceptor::{Packet, Record, Vote};

/// What is stored after a save that failed: what was stored before it, or what it was to store.
#[derive(Clone, Copy, Debug, PartialEq, Eq)]
pub enum Found {
    Before,
    After,
}

/// The packet in the save of whose step a node stopped, and what was stored once it opened again.
#[derive(Drop)]
pub struct Stopped {
    pub packet: Packet,
    pub found: Found,
}

/// What is told of the save of a packet's step that failed, if one did, by what is kept of the store once it opened again.
pub fn told(kept: &Kept, unfinished: Option<Packet>) -> Option<Stopped>
    ensures { IsFound (records_of kept.now.messages.entries) unfinished result }
{
    let packet = unfinished?;
    let found = kept.found(&packet);
    Some(Stopped { packet, found })
}

impl Kept {
    /// After exactly if it keeps what a packet asks to be saved: a promise at its ballot, or its vote. It takes no memory.
    fn found(&self, packet: &Packet) -> Found
        ensures { (result ≡ After) ↔ HasSaved (records_of self.now.messages.entries) (packet_of packet.now) }
    {
        let saved = match packet {
            Packet::Prepare { slot, ballot, .. } => self.has_promised(*slot, *ballot),
            Packet::Propose { vote, .. } => self.has_voted(vote),
            _ => false,
        };
        if saved { Found::After } else { Found::Before }
    }

    /// Whether what it promised in a slot is this ballot. It takes no memory.
    fn has_promised(&self, slot: Slot, ballot: Ballot) -> bool
        ensures { IsTrue result ↔ ((records_of self.now.messages.entries slot).promised ≡ ballot) }
    {
        match self.record(slot) {
            Some(record) => record.promised() == ballot,
            None => false,
        }
    }

    /// Whether its record of the slot of a vote is the one that the vote leaves. It takes no memory.
    fn has_voted(&self, vote: &Vote) -> bool
        ensures { IsTrue result ↔ (records_of self.now.messages.entries (slot_in vote.now) ≡ after_vote (vote_of vote.now)) }
    {
        match self.record(vote.slot()) {
            Some(record) => record.is_left_by(vote),
            None => false,
        }
    }

    /// The record of a slot; none if nothing was promised and nothing voted there. It takes no memory.
    fn record(&self, slot: Slot) -> Option<&Record>
        ensures record { or_blank (option_map record_of (option_copied result)) ≡ records_of self.now.messages.entries slot }
        ensures slot { IfSome (option_copied result) (λ kept. slot_recorded kept ≡ slot) }
    {
        self.find(slot.id)?.record(slot)
    }
}
