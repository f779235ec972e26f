//! A deliver_sm for an ESME that knows no optional parameters.

ghost use Rattle.std.specs.Prelude.{◌≡◌, ℕ, true, false, Some, option_map, IfOk, IsOk, OnErr};
ghost use Rattle.pdu_bodies.specs.declared.pdu.Message.{Message as Carried};
ghost use Rattle.pdu_codec.specs.Pdu.{Fits, octets_of, read_pdu};
ghost use Rattle.esme_service.specs.Pushes.{deliver_sm};
ghost use Rattle.connection_parts.specs.Fitting.{fitted, fitted_read};

use pdu_codec::{Body, Message, Pdu, PduFault, Tlvs, decode};
use sessions::encoded;
use std::alloc::{AllocError, Global};

/// The octets of a deliver_sm (SMPP 3.4, section 4.6.1) without its optional parameters, for an ESME that knows none (section 5.2.4). None if
/// the octets are no deliver_sm. An `Err` is want of memory, which only a PDU needs.
pub fn without_optional(alloc: Global, octets: &[u8]) -> Result<Option<Vec<u8>>, AllocError>
    ensures delivery { (sequence : ℕ) (message : Carried) → Fits (deliver_sm sequence true message)
        → octets.now ≡ octets_of (deliver_sm sequence true message)
        → IfOk result (λ made. option_map (λ vec. vec.items) made ≡ Some (octets_of (deliver_sm sequence false message))) }
    ensures exact { IfOk result (λ made. option_map (λ vec. vec.items) made ≡ fitted_read (read_pdu octets.now)) }
    ensures memory { OnErr result (IsOk (read_pdu octets.now)) }
{
    match decode(alloc, octets) {
        Ok(pdu) => fitted(alloc, pdu),
        Err(PduFault::Memory) => Err(AllocError),
        Err(_) => Ok(None),
    }
}

/// The octets of a PDU without optional parameters, if it is a deliver_sm.
fn fitted(alloc: Global, pdu: Pdu) -> Result<Option<Vec<u8>>, AllocError>
    ensures { IfOk result (λ made. option_map (λ vec. vec.items) made ≡ fitted pdu) }
{
    let Pdu {
        status,
        sequence,
        body,
    } = pdu;
    let Body::DeliverSm(message) = body else {
        return Ok(None);
    };
    let body = Body::DeliverSm(Message {
        tlvs: Tlvs::empty(alloc),
        ..message
    });
    let pdu = Pdu {
        status,
        sequence,
        body,
    };
    Ok(Some(encoded(alloc, pdu)?))
}
