//! Slots.

ghost use Rattle.std.specs.Prelude.{◌<◌};

use crate::id::MsgId;
use std::marker::Model;

/// A place in the chain of a message, which one synod settles (Paxos Made Simple, section 2): at place p stand chains of
/// p + 1 decrees.
#[derive(Clone, Copy, Debug, PartialEq, Eq)]
pub struct Slot {
    pub id: MsgId,
    pub place: u8,
}

impl Model for Slot {
    ghost use Rattle.mc_model.specs.synod.Packet.{Slot, slot_at};

    ghost Value = { Slot };

    ghost view = { λ slot. slot_at slot.id slot.place };

    ghost inverse = { λ slot. record { id = slot.id; place = slot.place } };
}

impl Slot {
    /// What a proof takes of it: its place is a number below 256. The call does nothing.
    pub fn bounds(self)
        ensures { self.place < 256 }
    {}
}
