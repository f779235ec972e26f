//! Why the nodes of a cluster do not open.

ghost use Rattle.std.specs.Prelude.{◌≡◌};
ghost use Rattle.node_threads.specs.declared.start_fault.StartFault.TheVariants.{Memory};

use mc_types::NodeNo;
use stable_store::StoreFault;
use std::alloc::{AllocError, AllocFailed};

/// Why the nodes of a cluster do not open over their stores.
#[derive(Clone, Copy, Debug, PartialEq, Eq)]
pub enum StartFault {
    /// 1: the store of this node could not be opened, for this reason, which is not want of memory.
    Open(NodeNo, StoreFault),
    /// 2: there is no store, or there are more than nine.
    Nodes,
    /// 3: there was no memory for it.
    Memory,
}

impl From<AllocError> for StartFault {
    ghost from_gives = { λ _ fault. fault ≡ Memory };

    fn from(_error: AllocError) -> StartFault {
        StartFault::Memory
    }
}

impl<T: Drop> From<AllocFailed<T>> for StartFault {
    ghost from_gives = { λ _ fault. fault ≡ Memory };

    fn from(_error: AllocFailed<T>) -> StartFault {
        StartFault::Memory
    }
}
