//! The body of a PDU, by its command.

ghost use Rattle.std.specs.Prelude.{Some};
ghost use Rattle.pdu_bodies.specs.Bodies.{bare_at, body_at};
ghost use Rattle.pdu_bodies.specs.Made.{IsMade};

use crate::bind::bind_of;
use crate::bodies::{bind_answer_of, message_id_of, query_answer_of, query_of};
use crate::cancel::cancel_of;
use crate::message::message_of;
use crate::pdu::Body;
use pdu_fields::{PduFault, nothing_at};
use pdu_tables::Command;
use std::alloc::Global;

/// The body of a PDU of this command, which the octets behind its header are, or their first fault. `Memory` comes only for octets that are
/// such a body.
#[tactic(auto, unfolding(crate::specs::Bodies::body_at))]
pub fn body_of(alloc: Global, command: Command, octets: &[u8]) -> Result<Body, PduFault>
    ensures { IsMade (λ body. body) result (body_at (Some command) octets.now) }
{
    match command {
        Command::BindReceiver => bind_of(alloc, octets).map(Body::BindReceiver),
        Command::BindReceiverResp => bind_answer_of(alloc, octets).map(Body::BindReceiverResp),
        Command::BindTransmitter => bind_of(alloc, octets).map(Body::BindTransmitter),
        Command::BindTransmitterResp => bind_answer_of(alloc, octets).map(
            Body::BindTransmitterResp,
        ),
        Command::BindTransceiver => bind_of(alloc, octets).map(Body::BindTransceiver),
        Command::BindTransceiverResp => bind_answer_of(alloc, octets).map(
            Body::BindTransceiverResp,
        ),
        Command::SubmitSm => message_of(alloc, octets).map(Body::SubmitSm),
        Command::SubmitSmResp => message_id_of(alloc, octets).map(Body::SubmitSmResp),
        Command::DeliverSm => message_of(alloc, octets).map(Body::DeliverSm),
        Command::DeliverSmResp => message_id_of(alloc, octets).map(Body::DeliverSmResp),
        Command::QuerySm => query_of(alloc, octets).map(Body::QuerySm),
        Command::QuerySmResp => query_answer_of(alloc, octets).map(Body::QuerySmResp),
        Command::CancelSm => cancel_of(alloc, octets).map(Body::CancelSm),
        Command::CancelSmResp => bare(Body::CancelSmResp, octets),
        Command::Unbind => bare(Body::Unbind, octets),
        Command::UnbindResp => bare(Body::UnbindResp, octets),
        Command::EnquireLink => bare(Body::EnquireLink, octets),
        Command::EnquireLinkResp => bare(Body::EnquireLinkResp, octets),
        Command::GenericNack => bare(Body::GenericNack, octets),
    }
}

/// A body of no field, if no octet stands after the header.
fn bare(body: Body, octets: &[u8]) -> Result<Body, PduFault>
    ensures { IsMade (λ body. body) result (bare_at body octets.now) }
{
    nothing_at(octets).and(Ok(body))
}
