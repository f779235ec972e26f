//! Why there is no deliver_sm.

ghost use Rattle.std.specs.Prelude.{◌≡◌};
ghost use Rattle.delivery.specs.declared.fault.DeliverFault.TheVariants.{Memory};

use std::alloc::AllocError;

/// Why there is no deliver_sm of an attempt.
#[derive(Clone, Copy, Debug, PartialEq, Eq)]
pub enum DeliverFault {
    /// 1: the newest decree is no attempt.
    NoAttempt,
    /// There was no memory for it.
    Memory,
}

impl From<AllocError> for DeliverFault {
    ghost from_gives = { λ _ fault. fault ≡ Memory };

    fn from(_error: AllocError) -> DeliverFault {
        DeliverFault::Memory
    }
}
