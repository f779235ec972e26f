//! What a refusal of the cluster means to the server.

use esme_site::AskFault;
use node_workers::Refusal;
use std::alloc::AllocError;

/// What a refusal of the cluster means to the server.
#[derive(Clone, Copy, Debug, PartialEq, Eq)]
pub(crate) enum Trouble {
    /// The journal is full: the server ends.
    Full,
    /// The store of the node failed: the node starts anew.
    Store,
    /// There was no memory: what was asked for is not done.
    Memory,
    /// It has no use for what was handed in: nothing is done.
    Nothing,
}

impl From<Refusal> for Trouble {
    fn from(refusal: Refusal) -> Trouble {
        match refusal {
            Refusal::Full => Trouble::Full,
            Refusal::Broken | Refusal::Device => Trouble::Store,
            Refusal::Memory | Refusal::NoSeat => Trouble::Memory,
            Refusal::Grant(_)
            | Refusal::NoSuchPacket
            | Refusal::NotGranted
            | Refusal::StrangeLife
            | Refusal::NoSuchNode
            | Refusal::Spent
            | Refusal::Damaged => Trouble::Nothing,
        }
    }
}

impl From<AllocError> for Trouble {
    fn from(_error: AllocError) -> Trouble {
        Trouble::Memory
    }
}

impl From<AskFault<Refusal>> for Trouble {
    fn from(fault: AskFault<Refusal>) -> Trouble {
        match fault {
            AskFault::Memory => Trouble::Memory,
            AskFault::Step(refusal) => Trouble::from(refusal),
        }
    }
}
