//! What goes out on a session in answer to a PDU, and the PDU that it is.

ghost use Rattle.std.specs.Prelude.{◌≡◌, IfOk, OnErr};
ghost use Rattle.pdu_codec.specs.Pdu.{octets_of};
ghost use Rattle.sessions.specs.Responses.{AnswersBind, pdu_of, pdu_with, bound_answer, bound_body};

use crate::requested::Requested;
use accounts::Role;
use pdu_codec::{BindAnswer, Body, Pdu, SystemId, Tlvs, encode};
use pdu_tables::{Status, Tag};
use std::alloc::{AllocError, Global};

/// The first interface_version of an ESME that knows optional parameters (SMPP 3.4, section 5.2.4).
pub(crate) const KNOWS_OPTIONAL: u8 = 0x34;

/// What answers a PDU in its own step, but for its sequence_number. It stands for a PDU until that is written, since it is
/// small and can be copied.
#[derive(Clone, Copy, Debug, PartialEq, Eq)]
pub enum Response {
    /// A generic_nack with this status (section 4.3.1).
    Nack(Status),
    /// The request is refused with this status: a header alone.
    Refused(Requested, Status),
    /// The session is bound in this role, for an ESME of this interface_version (section 4.1.6).
    Bound(Role, u8),
    /// The session is unbound (section 4.2.2).
    Unbound,
    /// The link is there (section 4.11.2).
    Linked,
}

/// A response and the sequence_number with which it goes out.
#[derive(Clone, Copy, Debug, PartialEq, Eq)]
pub struct Outgoing {
    pub sequence: u32,
    pub response: Response,
}

impl Outgoing {
    /// The octets of its PDU. The centre has this system_id. An `Err` is want of memory.
    pub fn octets(self, alloc: Global, system_id: &SystemId) -> Result<Vec<u8>, AllocError>
        ensures { IfOk result (λ octets. octets.items ≡ octets_of (pdu_of system_id.now self)) }
    {
        encoded(alloc, self.pdu(alloc, system_id)?)
    }

    /// Its PDU. The centre has this system_id. An `Err` is want of memory, which only the answer to a bind that succeeds needs.
    pub fn pdu(self, alloc: Global, system_id: &SystemId) -> Result<Pdu, AllocError>
        ensures pdu { IfOk result (λ pdu. pdu ≡ pdu_of system_id.now self) }
        ensures memory { OnErr result (AnswersBind self.response) }
    {
        match self.response {
            Response::Nack(status) => Ok(pdu_with(status, self.sequence, Body::GenericNack)),
            Response::Refused(requested, status) => {
                Ok(pdu_with(status, self.sequence, requested.refusal_body()))
            }
            Response::Bound(role, interface_version) => {
                let answer = bind_answer(alloc, system_id, interface_version)?;
                Ok(pdu_with(Status::Ok, self.sequence, body_of_bound(role, answer)))
            }
            Response::Unbound => Ok(pdu_with(Status::Ok, self.sequence, Body::UnbindResp)),
            Response::Linked => Ok(pdu_with(Status::Ok, self.sequence, Body::EnquireLinkResp)),
        }
    }
}

/// A PDU with this status, sequence_number and body.
pub fn pdu_with(status: Status, sequence: u32, body: Body) -> Pdu
    ensures { result ≡ pdu_with status sequence body }
{
    Pdu {
        status: status.code(),
        sequence,
        body,
    }
}

/// The response to the bind in a role.
fn body_of_bound(role: Role, answer: BindAnswer) -> Body
    ensures { result ≡ bound_body role answer }
{
    match role {
        Role::Transmitter => Body::BindTransmitterResp(Some(answer)),
        Role::Receiver => Body::BindReceiverResp(Some(answer)),
        Role::Transceiver => Body::BindTransceiverResp(Some(answer)),
    }
}

/// What a bind is answered that succeeds: the centre's system_id, and its version if the ESME knows optional parameters.
fn bind_answer(
    alloc: Global,
    system_id: &SystemId,
    interface_version: u8,
) -> Result<BindAnswer, AllocError>
    ensures { IfOk result (λ answer. answer ≡ bound_answer system_id.now interface_version) }
{
    let system_id = system_id.copy()?;
    let mut tlvs = Tlvs::empty(alloc);
    if interface_version >= KNOWS_OPTIONAL {
        tlvs.push(Tag::ScInterfaceVersion.code(), &[KNOWS_OPTIONAL])?;
    }
    Ok(BindAnswer { system_id, tlvs })
}

/// The octets of a PDU. It is let go by a call, since the walk over what it holds is then made once, and not on each way out. An
/// `Err` is want of memory.
pub fn encoded(alloc: Global, pdu: Pdu) -> Result<Vec<u8>, AllocError>
    ensures { IfOk result (λ octets. octets.items ≡ octets_of pdu) }
{
    let mut octets = Vec::new(alloc);
    let written = encode(&pdu, &mut octets);
    drop(pdu);
    written?;
    Ok(octets)
}
