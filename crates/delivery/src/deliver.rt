//! The deliver_sm of an attempt.

ghost use Rattle.std.specs.Prelude.{◌≡◌, ◌↔◌, IfOk, IsErrOf, IsTrue};
ghost use Rattle.fate_chain.specs.Kinds.{kind_of};
ghost use Rattle.fate_chain.specs.Submissions.{address_of};
ghost use Rattle.delivery.specs.Deliveries.{EndsInAttempt, IsAttempt, IsDelivery, delivered_message, parameters_of, short_of};
ghost use Rattle.delivery.specs.declared.fault.DeliverFault.TheVariants.{NoAttempt};

use crate::fault::DeliverFault;
use fate_chain::{Chain, Content, Kind, Submission};
use pdu_codec::{Body, Message, Pdu, ShortMessage, Text, Tlvs};
use pdu_tables::Tag;
use std::alloc::{AllocError, Global};

/// The features UDHI and reply path of esm_class (SMPP 3.4, section 5.2.12).
const FEATURES: u8 = 0xc0;

/// The deliver_sm (SMPP 3.4, section 4.6.1) of the attempt that is the chain's newest decree, with this sequence_number: what was
/// taken, with its optional parameters. A text of more than 254 octets is its message_payload, before them. NoAttempt exactly if the newest decree is
/// no attempt, before any memory is taken.
pub fn deliver_pdu(alloc: Global, chain: &Chain, sequence: u32) -> Result<Pdu, DeliverFault>
    ensures pdu { IfOk result (IsDelivery chain.now.decrees sequence) }
    ensures refused { IsErrOf result NoAttempt ↔ (EndsInAttempt chain.now.decrees → ⊥) }
{
    if !is_attempt(&chain.newest().kind) {
        return Err(DeliverFault::NoAttempt);
    }
    Ok(Pdu {
        status: 0,
        sequence,
        body: Body::DeliverSm(delivered(alloc, chain.submission())?),
    })
}

/// Whether it begins an attempt.
fn is_attempt(kind: &Kind) -> bool
    ensures { IsTrue result ↔ IsAttempt (kind_of kind.now) }
{
    matches!(kind, Kind::Attempt(_))
}

/// The message of the deliver_sm.
fn delivered(alloc: Global, taken: &Submission) -> Result<Message, AllocError>
    ensures { IfOk result (λ message. message ≡ delivered_message taken.now) }
{
    Ok(Message {
        service_type: taken.service_type.copy()?,
        source: taken.source.copy()?,
        destination: taken.destination.copy()?,
        esm_class: taken.esm_class & FEATURES,
        protocol_id: taken.protocol_id,
        priority_flag: taken.priority_flag,
        schedule_delivery_time: Text::of(alloc, b"")?,
        validity_period: Text::of(alloc, b"")?,
        registered_delivery: 0,
        replace_if_present_flag: 0,
        data_coding: taken.data_coding,
        sm_default_msg_id: 0,
        short_message: short_message(alloc, &taken.content)?,
        tlvs: parameters(alloc, &taken.content)?,
    })
}

/// The text, unless it is too long for a short_message.
fn short_message(alloc: Global, content: &Content) -> Result<ShortMessage, AllocError>
    ensures { IfOk result (λ message. message ≡ short_of content.now.text) }
{
    if content.is_long() {
        ShortMessage::of(alloc, b"")
    } else {
        ShortMessage::of(alloc, content.text())
    }
}

/// The text, if it is too long for a short_message, and what is passed on.
fn parameters(alloc: Global, content: &Content) -> Result<Tlvs, AllocError>
    ensures { IfOk result (λ tlvs. tlvs ≡ parameters_of content.now.text content.now.passed) }
{
    if !content.is_long() {
        return content.passed().copy();
    }
    let mut tlvs = Tlvs::empty(alloc);
    tlvs.push(Tag::MessagePayload.code(), content.text())?;
    tlvs.extend(content.passed())?;
    Ok(tlvs)
}
