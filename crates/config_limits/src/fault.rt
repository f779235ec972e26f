//! Why the limits of a configuration can't be read.

ghost use Rattle.std.specs.Prelude.{◌≡◌};
ghost use Rattle.config_limits.specs.declared.fault.LimitsFault.TheVariants as faults;

use crate::key::LimitKey;
use std::alloc::{AllocError, AllocFailed};
use std::fmt;

/// Why the limits of a configuration can't be read.
#[derive(Clone, Copy, Debug, PartialEq, Eq)]
pub enum LimitsFault {
    /// A key has a value that it may not have, in the table of this place, the first of which is 0.
    BadValue(LimitKey, usize),
    /// There was no memory.
    Memory,
}

impl fmt::Display for LimitsFault {
    fn fmt<W: fmt::Write>(&self, f: &mut fmt::Formatter<W>) -> fmt::Result {
        match self {
            LimitsFault::BadValue(key, row) => {
                let number = row.saturating_add(1);
                write!(f, "bad value: {key} (account {number})")
            }
            LimitsFault::Memory => f.write_str("there was not enough memory"),
        }
    }
}

impl From<AllocError> for LimitsFault {
    ghost from_gives = { λ _ fault. fault ≡ faults.Memory };

    fn from(_error: AllocError) -> LimitsFault {
        LimitsFault::Memory
    }
}

impl<T: Drop> From<AllocFailed<T>> for LimitsFault {
    ghost from_gives = { λ _ fault. fault ≡ faults.Memory };

    fn from(_error: AllocFailed<T>) -> LimitsFault {
        LimitsFault::Memory
    }
}
