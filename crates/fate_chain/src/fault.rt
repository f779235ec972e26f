//! Why a chain is refused.

ghost use Rattle.std.specs.Prelude.{◌≡◌};
ghost use Rattle.fate_chain.specs.declared.fault.ChainFault.TheVariants.{Memory};

use std::alloc::{AllocError, AllocFailed};

/// Why there is no such chain.
#[derive(Clone, Copy, Debug, PartialEq, Eq)]
pub enum ChainFault {
    /// 1: a decree may not stand there.
    NotPermitted,
    /// 2: the octets are no text of an id and decrees.
    NotBytes,
    /// There was no memory for it.
    Memory,
}

impl From<AllocError> for ChainFault {
    ghost from_gives = { λ _ fault. fault ≡ Memory };

    fn from(_error: AllocError) -> ChainFault {
        ChainFault::Memory
    }
}

impl<T: Drop> From<AllocFailed<T>> for ChainFault {
    ghost from_gives = { λ _ fault. fault ≡ Memory };

    fn from(_error: AllocFailed<T>) -> ChainFault {
        ChainFault::Memory
    }
}
