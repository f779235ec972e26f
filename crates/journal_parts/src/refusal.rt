//! Why a call on a cluster of nodes in threads does nothing.

ghost use Rattle.std.specs.Prelude.{◌≡◌};
ghost use Rattle.journal_parts.specs.declared.refusal.Refusal.TheVariants.{Memory};
ghost use Rattle.journal_parts.specs.Refusals.{refusal_number, refused_as, unopened_as};

use node_core::{GrantRefusal, StepFault};
use stable_store::StoreFault;
use std::alloc::AllocError;

/// Why a call on a cluster of nodes in threads does nothing. Of several reasons NoSuchNode and StrangeLife are told first, then the one with the lowest number,
/// and Memory last.
#[derive(Clone, Copy, Debug, PartialEq, Eq)]
pub enum Refusal {
    /// 1: the journal has room for no other step.
    Full,
    /// 2: a save of the node failed, or the store that it was opened over again had an incarnation that was used; it takes no step until it starts anew.
    Broken,
    /// 3: there was no memory for it.
    Memory,
    /// 4: the attempt is not granted, for this reason.
    Grant(GrantRefusal),
    /// 5: no seat is left.
    NoSeat,
    /// 6: no packet with this number was sent, or it was let go.
    NoSuchPacket,
    /// 7: what came of an attempt that was not granted in this incarnation, or that is closed.
    NotGranted,
    /// 8: the life is of another node or another incarnation.
    StrangeLife,
    /// 9: the device of the node's store failed; the node is Broken from now on.
    Device,
    /// 10: there is no such node.
    NoSuchNode,
    /// 11: the node has begun its last incarnation.
    Spent,
    /// 12: what is in the node's store was never saved there, or an incarnation was used that it has as the next one.
    Damaged,
}

impl Refusal {
    /// Its number, 1 to 12.
    pub fn number(self) -> u8
        ensures { result ≡ refusal_number self }
    {
        match self {
            Refusal::Full => 1,
            Refusal::Broken => 2,
            Refusal::Memory => 3,
            Refusal::Grant(_) => 4,
            Refusal::NoSeat => 5,
            Refusal::NoSuchPacket => 6,
            Refusal::NotGranted => 7,
            Refusal::StrangeLife => 8,
            Refusal::Device => 9,
            Refusal::NoSuchNode => 10,
            Refusal::Spent => 11,
            Refusal::Damaged => 12,
        }
    }
}

impl From<AllocError> for Refusal {
    ghost from_gives = { λ _ refusal. refusal ≡ Memory };

    fn from(_error: AllocError) -> Refusal {
        Refusal::Memory
    }
}

impl From<StoreFault> for Refusal {
    ghost from_gives = { λ fault refusal. refusal ≡ unopened_as fault };

    fn from(fault: StoreFault) -> Refusal {
        match fault {
            StoreFault::Device => Refusal::Device,
            StoreFault::Damaged => Refusal::Damaged,
            StoreFault::Incarnations => Refusal::Spent,
            StoreFault::Memory => Refusal::Memory,
        }
    }
}

impl From<StepFault> for Refusal {
    ghost from_gives = { λ fault refusal. refusal ≡ refused_as fault };

    fn from(fault: StepFault) -> Refusal {
        match fault {
            StepFault::Broken => Refusal::Broken,
            StepFault::Grant(reason) => Refusal::Grant(reason),
            StepFault::NotGranted => Refusal::NotGranted,
            StepFault::Device => Refusal::Device,
            StepFault::StrangeLife => Refusal::StrangeLife,
            StepFault::Memory => Refusal::Memory,
        }
    }
}
