//! Why a text is no pattern of senders.

ghost use Rattle.std.specs.Prelude.{◌≡◌};
ghost use Rattle.account_limits.specs.declared.sender_fault.SenderFault.TheVariants as faults;

use std::alloc::AllocError;
use std::fmt;

/// Why a text is no pattern of senders: the first that fits, and `Memory` if none does.
#[derive(Clone, Copy, Debug, PartialEq, Eq)]
pub enum SenderFault {
    /// It has more than 20 octets, without the star at its end.
    TooLong,
    /// An octet is zero, or a star stands before the end.
    BadOctet,
    /// There was no memory.
    Memory,
}

impl fmt::Display for SenderFault {
    fn fmt<W: fmt::Write>(&self, f: &mut fmt::Formatter<W>) -> fmt::Result {
        f.write_str(match self {
            SenderFault::TooLong => "more than 20 octets",
            SenderFault::BadOctet => "an octet that is zero, or a star before the end",
            SenderFault::Memory => "there was not enough memory",
        })
    }
}

impl From<AllocError> for SenderFault {
    ghost from_gives = { λ _ fault. fault ≡ faults.Memory };

    fn from(_error: AllocError) -> SenderFault {
        SenderFault::Memory
    }
}
