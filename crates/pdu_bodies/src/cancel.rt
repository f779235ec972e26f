//! The body of a cancel_sm (SMPP 3.4, section 4.9.1), read to its last octet. Memory is taken once the whole body is found to
//! be one.

ghost use Rattle.std.specs.Prelude.{◌≡◌, IfOk};
ghost use Rattle.pdu_fields.specs.Grammar.{IsRead, AreWithin, contents_at, cancel_parts};
ghost use Rattle.pdu_bodies.specs.Contents.{cancel_contents};
ghost use Rattle.pdu_bodies.specs.Made.{IsMade};
ghost use Rattle.pdu_bodies.specs.Pieces as pieces;

use crate::pdu::Cancel;
use pdu_fields::{
    AddressOctets, Field, PduFault, Text, destination_at, nothing_at, source_at, text_at,
};
use pdu_tables::limits;
use std::alloc::{AllocError, Global};

/// A cancel_sm whose texts stand in octets.
#[derive(Clone, Copy)]
struct CancelOctets<'a> {
    service_type: &'a [u8],
    message_id: &'a [u8],
    source: AddressOctets<'a>,
    destination: AddressOctets<'a>,
}

impl CancelOctets<'_> {
    fn cancel(&self, alloc: Global) -> Result<Cancel, AllocError>
        requires { AreWithin cancel_parts (pieces.cancel_seen self.now) }
        ensures { IfOk result (λ cancel. cancel_contents cancel ≡ pieces.cancel_seen self.now) }
    {
        Ok(Cancel {
            service_type: Text::of(alloc, self.service_type)?,
            message_id: Text::of(alloc, self.message_id)?,
            source: self.source.address(alloc)?,
            destination: self.destination.address(alloc)?,
        })
    }
}

/// What a cancel_sm has.
pub fn cancel_of(alloc: Global, octets: &[u8]) -> Result<Cancel, PduFault>
    ensures { IsMade cancel_contents result (contents_at cancel_parts octets.now) }
{
    cancel_in_pieces(alloc, octets)
}

fn cancel_in_pieces(alloc: Global, octets: &[u8]) -> Result<Cancel, PduFault>
    ensures { IsMade cancel_contents result (pieces.cancel_at octets.now) }
{
    let read = cancel_at(octets)?;
    let cancel = read.cancel(alloc)?;
    Ok(cancel)
}

#[tactic(auto, unfolding(crate::specs::Pieces::cancel_at))]
fn cancel_at(octets: &[u8]) -> Result<CancelOctets<'_>, PduFault>
    ensures { IsRead pieces.cancel_seen result (pieces.cancel_at octets.now) }
{
    let (service_type, rest) = text_at(Field::ServiceType, limits::SERVICE_TYPE, octets)?;
    let (message_id, rest) = text_at(Field::MessageId, limits::MESSAGE_ID, rest)?;
    let (source, rest) = source_at(rest)?;
    let (destination, rest) = destination_at(rest)?;
    nothing_at(rest)?;
    Ok(CancelOctets {
        service_type,
        message_id,
        source,
        destination,
    })
}
