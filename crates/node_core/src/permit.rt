//! The leave to deliver one attempt.

ghost use Rattle.std.specs.Prelude.{◌≡◌};

use crate::life::Life;
use mc_types::{MsgId, Slot};
use std::marker::Model;

/// The leave to deliver the attempt in a slot, which a node granted in the incarnation of a `Life`. It can't be copied, and can't be let go:
/// `Node::answered` spends it with what came of the attempt, or `abandon` without. While it is out, its `Life` is borrowed. Contracts see the
/// life and the slot.
pub struct Permit<'l> {
    life: &'l Life,
    slot: Slot,
}

impl<'l> Model for Permit<'l> {
    ghost use Rattle.node_core.specs.Permits.{Permitted};

    ghost Value = { Permitted };

    ghost view = { λ p. record { life = p.life.now; slot = p.slot } };
}

impl<'l> Permit<'l> {
    /// The permit of a slot in a life.
    pub(crate) fn of(life: &'l Life, slot: Slot) -> Permit<'l>
        ensures life { result.life ≡ life.entry.now }
        ensures slot { result.slot ≡ slot }
    {
        Permit { life, slot }
    }

    /// The message of its attempt.
    pub fn id(&self) -> MsgId
        ensures { result ≡ self.now.slot.id }
    {
        self.slot.id
    }

    /// The slot of its attempt.
    pub fn slot(&self) -> Slot
        ensures { result ≡ self.now.slot }
    {
        self.slot
    }

    /// The life in which it was granted.
    pub fn life(&self) -> &'l Life
        ensures { result.now ≡ self.now.life }
    {
        self.life
    }

    /// Spends it, and does nothing else: its attempt stays granted, and is not granted again, until the node opens again.
    pub fn abandon(self) {
        let Permit { life: _, slot: _ } = self;
    }
}
