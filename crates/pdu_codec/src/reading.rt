//! From octets to a PDU.

ghost use Rattle.std.specs.Prelude.{◌≡◌, Ok, IfOk, IsOk};
ghost use Rattle.pdu_bodies.specs.declared.pdu.Pdu.{Pdu};
ghost use Rattle.pdu_codec.specs.Pdu.{Fits, Gives, octets_of, read_pdu};

use crate::header::read_header;
use pdu_bodies::{Pdu, body_of};
use pdu_fields::PduFault;
use pdu_tables::{Command, limits};
use std::alloc::Global;

/// The PDU that the octets are, or their first fault, with the clauses of which those of `decode` follow.
#[tactic(auto, unfolding(crate::specs::Pdu::read_pdu))]
fn pdu_of(alloc: Global, octets: &[u8]) -> Result<Pdu, PduFault>
    ensures exact { Gives result (read_pdu octets.now) }
    ensures memory { result ≡ Err PduFault.Memory → IsOk (read_pdu octets.now) }
{
    let Some(header) = read_header(octets) else {
        return Err(PduFault::Length);
    };
    if octets.len() > limits::PDU || header.length as usize != octets.len() {
        return Err(PduFault::Length);
    }
    let Some(command) = Command::of_code(header.command) else {
        return Err(PduFault::Command);
    };
    let body = body_of(alloc, command, &octets[limits::HEADER..])?;
    Ok(Pdu {
        status: header.status,
        sequence: header.sequence,
        body,
    })
}

/// The PDU that the octets are, or their first fault.
pub fn decode(alloc: Global, octets: &[u8]) -> Result<Pdu, PduFault>
    // What is read is spelled so, and its fields are within their limits.
    ensures read { IfOk result (λ pdu. octets.now ≡ octets_of pdu) }
    ensures fits { IfOk result Fits }
    // What is spelled so is read, unless memory runs out.
    ensures only { (pdu : Pdu) → Fits pdu → octets.now ≡ octets_of pdu → Gives result (Ok pdu) }
    // Which fault it is.
    ensures exact { Gives result (read_pdu octets.now) }
    // Memory runs out only for octets that are a PDU.
    ensures memory { result ≡ Err PduFault.Memory → IsOk (read_pdu octets.now) }
{
    pdu_of(alloc, octets)
}
