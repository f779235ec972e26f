//! An address.

use crate::texts::AddressDigits;
use std::alloc::AllocError;

/// An address of an SME, with its type of number and its numbering plan (sections 5.2.5, 5.2.6, 5.2.8).
#[derive(PartialEq, Eq, Drop)]
pub struct Address {
    pub ton: u8,
    pub npi: u8,
    pub digits: AddressDigits,
}

impl Address {
    ghost use Rattle.std.specs.Prelude.{◌≡◌, IfOk};

    /// The same address once more. An `Err` is want of memory.
    pub fn copy(&self) -> Result<Address, AllocError>
        ensures { IfOk result (λ copy. copy ≡ self.now) }
    {
        let digits = self.digits.copy()?;
        Ok(Address {
            ton: self.ton,
            npi: self.npi,
            digits,
        })
    }
}
