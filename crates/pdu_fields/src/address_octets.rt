//! An address as it stands in octets.

ghost use Rattle.std.specs.Prelude.{◌≡◌, IfOk};
ghost use Rattle.pdu_fields.specs.Text.{IsText};
ghost use Rattle.pdu_fields.specs.Grammar.{IsRead};
ghost use Rattle.pdu_fields.specs.Addresses as spec;

use crate::address::Address;
use crate::fault::{Field, PduFault};
use crate::fields::{octet_at, text_at};
use crate::text::Text;
use pdu_tables::limits;
use std::alloc::{AllocError, Global};

/// An address whose digits stand in octets.
#[derive(Clone, Copy)]
pub struct AddressOctets<'a> {
    /// Its type of number (SMPP 3.4, section 5.2.5).
    pub ton: u8,
    /// Its numbering plan (section 5.2.6).
    pub npi: u8,
    /// Its digits, without a zero octet.
    pub digits: &'a [u8],
}

impl AddressOctets<'_> {
    /// The address. An `Err` is want of memory.
    pub fn address(&self, alloc: Global) -> Result<Address, AllocError>
        requires { IsText 21 self.now.digits.now }
        ensures { IfOk result (λ address.
            address ≡ record { ton = self.now.ton; npi = self.now.npi; digits = self.now.digits.now }) }
    {
        Ok(Address {
            ton: self.ton,
            npi: self.npi,
            digits: Text::of(alloc, self.digits)?,
        })
    }
}

/// The source address at the front of octets, and the octets after it. It takes no memory.
pub fn source_at(octets: &[u8]) -> Result<(AddressOctets<'_>, &[u8]), PduFault>
    ensures read { IsRead (λ x. (spec.address_contents x.0, x.1.now)) result (spec.source_at octets.now) }
    ensures text { IfOk result (λ x. IsText 21 x.0.digits.now) }
{
    address_at(
        Field::SourceAddrTon,
        Field::SourceAddrNpi,
        Field::SourceAddr,
        octets,
    )
}

/// The destination address at the front of octets, and the octets after it. It takes no memory.
pub fn destination_at(octets: &[u8]) -> Result<(AddressOctets<'_>, &[u8]), PduFault>
    ensures read { IsRead (λ x. (spec.address_contents x.0, x.1.now)) result (spec.destination_at octets.now) }
    ensures text { IfOk result (λ x. IsText 21 x.0.digits.now) }
{
    address_at(
        Field::DestAddrTon,
        Field::DestAddrNpi,
        Field::DestinationAddr,
        octets,
    )
}

/// An address that has these fields.
#[tactic(auto, unfolding(crate::specs::Addresses::address_at))]
fn address_at(
    ton: Field,
    npi: Field,
    digits: Field,
    octets: &[u8],
) -> Result<(AddressOctets<'_>, &[u8]), PduFault>
    ensures read { IsRead (λ x. (spec.address_contents x.0, x.1.now)) result
        (spec.address_at ton npi digits octets.now) }
    ensures text { IfOk result (λ x. IsText 21 x.0.digits.now) }
{
    let (ton, rest) = octet_at(ton, octets)?;
    let (npi, rest) = octet_at(npi, rest)?;
    let (digits, rest) = text_at(digits, limits::ADDRESS, rest)?;
    Ok((AddressOctets { ton, npi, digits }, rest))
}
