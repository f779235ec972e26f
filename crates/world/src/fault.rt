//! Why a world does not take a step, or does not start.

ghost use Rattle.std.specs.Prelude.{◌≡◌};
ghost use Rattle.world.specs.declared.fault.StartFault.TheVariants as starts;
ghost use Rattle.world.specs.declared.fault.WorldFault.TheVariants.{Memory};
ghost use Rattle.world.specs.Members.{fault_from, fault_of_store};
ghost use Rattle.world.specs.Runs.{fault_number};

use node_runs::{GrantRefusal, StepFault};
use stable_store::StoreFault;
use std::alloc::AllocError;

/// Why a world does not take a step. A step that is not taken changes nothing.
#[derive(Clone, Copy, Debug, PartialEq, Eq)]
pub enum WorldFault {
    /// 1: no packet with this number was sent.
    NoSuchPacket,
    /// 2: there is no such node.
    NoSuchNode,
    /// 3: the attempt is not granted, for this reason.
    Grant(GrantRefusal),
    /// 4: the node is down.
    Down,
    /// 5: what came of an attempt that was not granted in this incarnation, or that is closed.
    NotGranted,
    /// 6: the node has begun its last incarnation.
    Spent,
    /// 7: there was no memory for it.
    Memory,
}

impl WorldFault {
    /// Its number, 1 to 7.
    pub fn number(self) -> u8
        ensures { result ≡ fault_number self }
    {
        match self {
            WorldFault::NoSuchPacket => 1,
            WorldFault::NoSuchNode => 2,
            WorldFault::Grant(_) => 3,
            WorldFault::Down => 4,
            WorldFault::NotGranted => 5,
            WorldFault::Spent => 6,
            WorldFault::Memory => 7,
        }
    }
}

impl From<AllocError> for WorldFault {
    ghost from_gives = { λ _ fault. fault ≡ Memory };

    fn from(_error: AllocError) -> WorldFault {
        WorldFault::Memory
    }
}

impl From<StepFault> for WorldFault {
    ghost from_gives = { λ step fault. fault ≡ fault_from step };

    fn from(fault: StepFault) -> WorldFault {
        match fault {
            StepFault::Grant(refusal) => WorldFault::Grant(refusal),
            StepFault::NotGranted => WorldFault::NotGranted,
            StepFault::Broken | StepFault::Device | StepFault::StrangeLife | StepFault::Memory => {
                WorldFault::Memory
            }
        }
    }
}

impl From<StoreFault> for WorldFault {
    ghost from_gives = { λ store fault. fault ≡ fault_of_store store };

    fn from(fault: StoreFault) -> WorldFault {
        match fault {
            StoreFault::Incarnations => WorldFault::Spent,
            StoreFault::Device | StoreFault::Damaged | StoreFault::Memory => WorldFault::Memory,
        }
    }
}

/// Why a world does not start.
#[derive(Clone, Copy, Debug, PartialEq, Eq)]
pub enum StartFault {
    /// There are no stores, or more than nine.
    Nodes,
    /// The first serial is not 1 to 99,999.
    Serial,
    /// There was no memory for it.
    Memory,
}

impl From<AllocError> for StartFault {
    ghost from_gives = { λ _ fault. fault ≡ starts.Memory };

    fn from(_error: AllocError) -> StartFault {
        StartFault::Memory
    }
}
