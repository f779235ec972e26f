//! On which terms a message is taken.

ghost use Rattle.std.specs.Prelude.{◌<◌, ◌↔◌, IsTrue};
ghost use Rattle.mc_model.specs.message.Receipts.{AsksReceipt};
ghost use Rattle.fate_chain.specs.Kinds.{final_of};
ghost use Rattle.fate_chain.specs.Marks.{bare_message};

use crate::decree::Final;
use mc_types::Moment;

/// What of a message that was taken decides which decrees may follow.
#[derive(Clone, Copy)]
pub struct Terms {
    /// From this moment on it is tried.
    pub schedule: Moment,
    /// From this moment on it is no longer tried.
    pub expiry: Moment,
    /// Of which final states a receipt is asked.
    pub registered_delivery: u8,
}

impl Terms {
    /// Whether a message of these terms may be taken then.
    pub fn may_begin(self, moment: Moment) -> bool
        ensures { IsTrue result ↔ (moment < self.expiry) × (self.schedule < self.expiry) }
    {
        moment < self.expiry && self.schedule < self.expiry
    }

    /// Whether a receipt of this final state is asked: of every one, or of every one but DELIVERED (SMPP 3.4, section 5.2.17).
    pub fn asks_receipt(self, last: Final) -> bool
        ensures { IsTrue result ↔ AsksReceipt (final_of last) (bare_message self) }
    {
        match self.registered_delivery % 4 {
            1 => true,
            2 => last != Final::Delivered,
            _ => false,
        }
    }
}
