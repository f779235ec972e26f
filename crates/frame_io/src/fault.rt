//! Why no frame was read.

ghost use Rattle.std.specs.Prelude.{◌≡◌};
ghost use Rattle.frame_io.specs.declared.fault.FrameFault.TheVariants as faults;

use octet_io::ReadFault;
use thiserror::Error;

/// Why no frame was read.
#[derive(Clone, Copy, Debug, PartialEq, Eq, Error)]
pub enum FrameFault {
    /// 1: a read failed, or all the reads that may be made were made.
    #[error("a read failed")]
    Read,
    /// 2: a command_length below 16 or above 8,192 came.
    #[error("a command_length is wrong")]
    Length,
    /// 3: the input ended within a frame.
    #[error("the input ended within a PDU")]
    Short,
    /// 4: there was no memory for the frame.
    #[error("there was not enough memory")]
    Memory,
}

impl From<ReadFault> for FrameFault {
    ghost from_gives = { λ _ fault. fault ≡ faults.Read };

    fn from(_fault: ReadFault) -> FrameFault {
        FrameFault::Read
    }
}
