//! Why there is no receipt.

ghost use Rattle.std.specs.Prelude.{◌≡◌};
ghost use Rattle.receipts.specs.declared.fault.ReceiptFault.TheVariants.{Memory};

use std::alloc::AllocError;

/// Why there is no receipt of a chain; of several reasons the first.
#[derive(Clone, Copy, Debug, PartialEq, Eq)]
pub enum ReceiptFault {
    /// 1: the message has no final state.
    NoFate,
    /// 2: the submit_sm asked for no receipt of that state.
    NotAsked,
    /// 3: no Told stands behind it.
    NotTold,
    /// There was no memory for it.
    Memory,
}

impl From<AllocError> for ReceiptFault {
    ghost from_gives = { λ _ fault. fault ≡ Memory };

    fn from(_error: AllocError) -> ReceiptFault {
        ReceiptFault::Memory
    }
}
