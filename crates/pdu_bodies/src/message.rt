//! The body of a submit_sm or a deliver_sm (SMPP 3.4, sections 4.4.1 and 4.6.1), read to its last octet in three pieces. Memory is taken once
//! the whole body is found to be one.

ghost use Rattle.std.specs.Prelude.{◌≡◌, IfOk, IsOk};
ghost use Rattle.pdu_fields.specs.Text.{IsText};
ghost use Rattle.pdu_fields.specs.Grammar.{message_parts, contents_at, optional_at, IsRead, AreWithin};
ghost use Rattle.pdu_bodies.specs.Contents.{message_contents};
ghost use Rattle.pdu_bodies.specs.Made.{IsMade};
ghost use Rattle.pdu_bodies.specs.Pieces as pieces;

use crate::pdu::Message;
use pdu_fields::{
    Address, AddressOctets, Field, HandlingOctets, PduFault, ServiceType, ShortMessage, Text,
    TimeText, Tlvs, check_optional, counted_at, destination_at, handling_at, source_at, text_at,
};
use pdu_tables::limits;
use std::alloc::{AllocError, Global};

/// From whom a message is and to whom.
#[derive(Drop)]
struct Parties {
    service_type: ServiceType,
    source: Address,
    destination: Address,
}

/// When a message is to be delivered, and until when.
#[derive(Drop)]
struct Times {
    schedule_delivery_time: TimeText,
    validity_period: TimeText,
}

/// From whom a message is and to whom, as it stands in octets.
#[derive(Clone, Copy)]
struct Envelope<'a> {
    service_type: &'a [u8],
    source: AddressOctets<'a>,
    destination: AddressOctets<'a>,
}

impl Envelope<'_> {
    fn parties(&self, alloc: Global) -> Result<Parties, AllocError>
        requires service_type { IsText 6 self.now.service_type.now }
        requires source { IsText 21 self.now.source.digits.now }
        requires destination { IsText 21 self.now.destination.digits.now }
        ensures { IfOk result (λ parties. pieces.parties_contents parties ≡ pieces.envelope_contents self.now) }
    {
        Ok(Parties {
            service_type: Text::of(alloc, self.service_type)?,
            source: self.source.address(alloc)?,
            destination: self.destination.address(alloc)?,
        })
    }
}

/// The times of a message that is to be handled so.
fn times_of(alloc: Global, handling: &HandlingOctets<'_>) -> Result<Times, AllocError>
    requires schedule { IsText 17 handling.now.schedule_delivery_time.now }
    requires validity { IsText 17 handling.now.validity_period.now }
    ensures schedule { IfOk result (λ times.
        times.schedule_delivery_time ≡ handling.now.schedule_delivery_time.now) }
    ensures validity { IfOk result (λ times. times.validity_period ≡ handling.now.validity_period.now) }
{
    Ok(Times {
        schedule_delivery_time: Text::of(alloc, handling.schedule_delivery_time)?,
        validity_period: Text::of(alloc, handling.validity_period)?,
    })
}

/// A message, as it stands in octets.
#[derive(Clone, Copy)]
struct MessageOctets<'a> {
    envelope: Envelope<'a>,
    handling: HandlingOctets<'a>,
    short_message: &'a [u8],
    tlvs: &'a [u8],
}

impl MessageOctets<'_> {
    #[tactic(auto, unfolding(pdu_fields::specs::Tlv::tlvs_in))]
    fn message(&self, alloc: Global) -> Result<Message, AllocError>
        requires within { AreWithin message_parts (pieces.message_seen self.now) }
        requires tlvs { IsOk (optional_at self.now.tlvs.now) }
        ensures { IfOk result (λ message. message_contents message ≡ pieces.message_seen self.now) }
    {
        let handling = self.handling;
        let tlvs = Tlvs::of(alloc, self.tlvs)?;
        let short_message = ShortMessage::of(alloc, self.short_message)?;
        let times = times_of(alloc, &handling)?;
        let parties = self.envelope.parties(alloc)?;
        Ok(Message {
            service_type: parties.service_type,
            source: parties.source,
            destination: parties.destination,
            esm_class: handling.esm_class,
            protocol_id: handling.protocol_id,
            priority_flag: handling.priority_flag,
            schedule_delivery_time: times.schedule_delivery_time,
            validity_period: times.validity_period,
            registered_delivery: handling.registered_delivery,
            replace_if_present_flag: handling.replace_if_present_flag,
            data_coding: handling.data_coding,
            sm_default_msg_id: handling.sm_default_msg_id,
            short_message,
            tlvs,
        })
    }
}

#[tactic(auto, unfolding(crate::specs::Pieces::envelope_at))]
fn envelope_at(octets: &[u8]) -> Result<(Envelope<'_>, &[u8]), PduFault>
    ensures { IsRead (λ x. (pieces.envelope_contents x.0, x.1.now)) result (pieces.envelope_at octets.now) }
{
    let (service_type, rest) = text_at(Field::ServiceType, limits::SERVICE_TYPE, octets)?;
    let (source, rest) = source_at(rest)?;
    let (destination, rest) = destination_at(rest)?;
    let envelope = Envelope {
        service_type,
        source,
        destination,
    };
    Ok((envelope, rest))
}

#[tactic(auto, unfolding(crate::specs::Pieces::message_at, pdu_fields::specs::Tlv::tlvs_in))]
fn message_at(octets: &[u8]) -> Result<MessageOctets<'_>, PduFault>
    ensures read { IsRead pieces.message_seen result (pieces.message_at octets.now) }
    ensures tlvs { IfOk result (λ message. IsOk (optional_at message.tlvs.now)) }
{
    let (envelope, rest) = envelope_at(octets)?;
    let (handling, rest) = handling_at(rest)?;
    let (short_message, tlvs) = counted_at(rest)?;
    check_optional(tlvs)?;
    Ok(MessageOctets {
        envelope,
        handling,
        short_message,
        tlvs,
    })
}

/// What a submit_sm and a deliver_sm have.
pub fn message_of(alloc: Global, octets: &[u8]) -> Result<Message, PduFault>
    ensures { IsMade message_contents result (contents_at message_parts octets.now) }
{
    message_in_pieces(alloc, octets)
}

fn message_in_pieces(alloc: Global, octets: &[u8]) -> Result<Message, PduFault>
    ensures { IsMade message_contents result (pieces.message_at octets.now) }
{
    let read = message_at(octets)?;
    let message = read.message(alloc)?;
    Ok(message)
}
