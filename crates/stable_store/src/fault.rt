//! Why a store does not answer.

ghost use Rattle.std.specs.Prelude.{◌≡◌};
ghost use Rattle.stable_store.specs.declared.fault.StoreFault.TheVariants.{Memory};

use std::alloc::{AllocError, AllocFailed};

/// Why a store does not answer.
#[derive(Clone, Copy, Debug, PartialEq, Eq)]
pub enum StoreFault {
    /// 1: the device failed. The store holds what it held before the call or what the call was to leave, and is to be opened
    /// again.
    Device,
    /// 2: what is stored can't be read.
    Damaged,
    /// 3: all 9,999 incarnations were used.
    Incarnations,
    /// There was no memory for it.
    Memory,
}

impl From<AllocError> for StoreFault {
    ghost from_gives = { λ _ fault. fault ≡ Memory };

    fn from(_error: AllocError) -> StoreFault {
        StoreFault::Memory
    }
}

impl<T: Drop> From<AllocFailed<T>> for StoreFault {
    ghost from_gives = { λ _ fault. fault ≡ Memory };

    fn from(_error: AllocFailed<T>) -> StoreFault {
        StoreFault::Memory
    }
}
