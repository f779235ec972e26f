ghost use Rattle.std.specs.Prelude.{◌≡◌};
ghost use Rattle.accounts.specs.declared.fault.AccountsFault.TheVariants as faults;

use std::alloc::{AllocError, AllocFailed};

/// Why an account or a route was not added.
#[derive(Clone, Copy, Debug, PartialEq, Eq)]
pub enum AccountsFault {
    /// The system_id has an account already, or the prefix a route.
    Repeated,
    /// Want of memory.
    Memory,
}

impl From<AllocError> for AccountsFault {
    ghost from_gives = { λ _ fault. fault ≡ faults.Memory };

    fn from(_error: AllocError) -> AccountsFault {
        AccountsFault::Memory
    }
}

impl<T: Drop> From<AllocFailed<T>> for AccountsFault {
    ghost from_gives = { λ _ fault. fault ≡ faults.Memory };

    fn from(_error: AllocFailed<T>) -> AccountsFault {
        AccountsFault::Memory
    }
}
