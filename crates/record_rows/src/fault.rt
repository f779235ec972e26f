//! Why a call on the tables does not do what it is asked to.

use std::alloc::{AllocError, AllocFailed};

/// Why a row is not stored.
#[derive(Clone, Copy, Debug, PartialEq, Eq)]
pub enum Fault {
    /// There was no memory for it. The connection is open, and the tables are as they were.
    Memory,
    /// The disk failed, or the statement was refused. The connection is open, and the tables are as they were.
    Undone,
    /// The connection refused even a statement that does nothing, or had no memory for it: it may be shut. Of its tables nothing is said until the file is
    /// opened again.
    Shut,
}

/// Why rows are not read.
#[derive(Clone, Copy, Debug, PartialEq, Eq)]
pub enum ReadFault {
    /// A row has a value of another type, or two rows have one key. The connection is open, and the tables are as they were.
    Damaged,
    /// There was no memory, or the connection answered a fault.
    Failed(Fault),
}

impl From<Fault> for ReadFault {
    ghost use Rattle.std.specs.Prelude.{◌≡◌};
    ghost use Rattle.record_rows.specs.declared.fault.ReadFault.TheVariants.{Failed};

    ghost from_gives = { λ fault e. e ≡ Failed fault };

    fn from(fault: Fault) -> ReadFault {
        ReadFault::Failed(fault)
    }
}

impl From<AllocError> for ReadFault {
    ghost use Rattle.std.specs.Prelude.{◌≡◌};
    ghost use Rattle.record_rows.specs.declared.fault.Fault.TheVariants.{Memory};
    ghost use Rattle.record_rows.specs.declared.fault.ReadFault.TheVariants.{Failed};

    ghost from_gives = { λ _ e. e ≡ Failed Memory };

    fn from(_error: AllocError) -> ReadFault {
        ReadFault::Failed(Fault::Memory)
    }
}

impl<T: Drop> From<AllocFailed<T>> for ReadFault {
    ghost use Rattle.std.specs.Prelude.{◌≡◌};
    ghost use Rattle.record_rows.specs.declared.fault.Fault.TheVariants.{Memory};
    ghost use Rattle.record_rows.specs.declared.fault.ReadFault.TheVariants.{Failed};

    ghost from_gives = { λ _ e. e ≡ Failed Memory };

    fn from(_error: AllocFailed<T>) -> ReadFault {
        ReadFault::Failed(Fault::Memory)
    }
}
