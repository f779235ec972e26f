//! Why the limits of one account can't be read.

ghost use Rattle.std.specs.Prelude.{◌≡◌};
ghost use Rattle.config_limits.specs.declared.row_fault.RowFault.TheVariants as faults;

use crate::key::LimitKey;
use std::alloc::{AllocError, AllocFailed};

/// Why the limits of one account can't be read.
#[derive(Clone, Copy, Debug, PartialEq, Eq)]
pub(crate) enum RowFault {
    /// A key has a value that it may not have.
    BadValue(LimitKey),
    /// There was no memory.
    Memory,
}

impl From<AllocError> for RowFault {
    ghost from_gives = { λ _ fault. fault ≡ faults.Memory };

    fn from(_error: AllocError) -> RowFault {
        RowFault::Memory
    }
}

impl<T: Drop> From<AllocFailed<T>> for RowFault {
    ghost from_gives = { λ _ fault. fault ≡ faults.Memory };

    fn from(_error: AllocFailed<T>) -> RowFault {
        RowFault::Memory
    }
}
