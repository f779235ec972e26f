//! The body of a bind (SMPP 3.4, sections 4.1.1, 4.1.3 and 4.1.5), read to its last octet. Memory is taken once the whole body
//! is found to be one.

ghost use Rattle.std.specs.Prelude.{◌≡◌, IfOk};
ghost use Rattle.pdu_fields.specs.Grammar.{IsRead, AreWithin, contents_at, bind_parts};
ghost use Rattle.pdu_bodies.specs.Contents.{bind_contents};
ghost use Rattle.pdu_bodies.specs.Made.{IsMade};
ghost use Rattle.pdu_bodies.specs.Pieces as pieces;

use crate::pdu::Bind;
use pdu_fields::{Field, PduFault, Text, nothing_at, octet_at, text_at};
use pdu_tables::limits;
use std::alloc::{AllocError, Global};

/// A bind whose texts stand in octets.
#[derive(Clone, Copy)]
struct BindOctets<'a> {
    system_id: &'a [u8],
    password: &'a [u8],
    system_type: &'a [u8],
    interface_version: u8,
    addr_ton: u8,
    addr_npi: u8,
    address_range: &'a [u8],
}

impl BindOctets<'_> {
    fn bind(&self, alloc: Global) -> Result<Bind, AllocError>
        requires { AreWithin bind_parts (pieces.bind_seen self.now) }
        ensures { IfOk result (λ bind. bind_contents bind ≡ pieces.bind_seen self.now) }
    {
        Ok(Bind {
            system_id: Text::of(alloc, self.system_id)?,
            password: Text::of(alloc, self.password)?,
            system_type: Text::of(alloc, self.system_type)?,
            interface_version: self.interface_version,
            addr_ton: self.addr_ton,
            addr_npi: self.addr_npi,
            address_range: Text::of(alloc, self.address_range)?,
        })
    }
}

/// What a bind has.
pub fn bind_of(alloc: Global, octets: &[u8]) -> Result<Bind, PduFault>
    ensures { IsMade bind_contents result (contents_at bind_parts octets.now) }
{
    let read = bind_at(octets)?;
    let bind = read.bind(alloc)?;
    Ok(bind)
}

fn bind_at(octets: &[u8]) -> Result<BindOctets<'_>, PduFault>
    ensures { IsRead pieces.bind_seen result (contents_at bind_parts octets.now) }
{
    let (system_id, rest) = text_at(Field::SystemId, limits::SYSTEM_ID, octets)?;
    let (password, rest) = text_at(Field::Password, limits::PASSWORD, rest)?;
    let (system_type, rest) = text_at(Field::SystemType, limits::SYSTEM_TYPE, rest)?;
    let (interface_version, rest) = octet_at(Field::InterfaceVersion, rest)?;
    let (addr_ton, rest) = octet_at(Field::AddrTon, rest)?;
    let (addr_npi, rest) = octet_at(Field::AddrNpi, rest)?;
    let (address_range, rest) = text_at(Field::AddressRange, limits::ADDRESS_RANGE, rest)?;
    nothing_at(rest)?;
    Ok(BindOctets {
        system_id,
        password,
        system_type,
        interface_version,
        addr_ton,
        addr_npi,
        address_range,
    })
}
