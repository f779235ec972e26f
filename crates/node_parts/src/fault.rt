//! Why a node does not take a step.

ghost use Rattle.std.specs.Prelude.{◌≡◌};
ghost use Rattle.node_parts.specs.declared.fault.StepFault.TheVariants.{Grant, Memory};

use crate::grant_refusal::GrantRefusal;
use std::alloc::AllocError;

/// Why a node does not take a step.
#[derive(Clone, Copy, Debug, PartialEq, Eq)]
pub enum StepFault {
    /// 1: a save failed before; the node is to be opened again.
    Broken,
    /// 2: the attempt is not granted, for this reason.
    Grant(GrantRefusal),
    /// 3: what came of an attempt that was not granted in this incarnation, or that is closed.
    NotGranted,
    /// 4: the device of the store failed. What was to be saved is saved or not, and the node is Broken.
    Device,
    /// 5: the life or the permit is of another node or another incarnation.
    StrangeLife,
    /// There was no memory for it.
    Memory,
}

impl From<AllocError> for StepFault {
    ghost from_gives = { λ _ fault. fault ≡ Memory };

    fn from(_error: AllocError) -> StepFault {
        StepFault::Memory
    }
}

impl From<GrantRefusal> for StepFault {
    ghost from_gives = { λ refusal fault. fault ≡ Grant refusal };

    fn from(refusal: GrantRefusal) -> StepFault {
        StepFault::Grant(refusal)
    }
}
