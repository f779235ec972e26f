//! How a message is to be handled, as it stands in octets.

ghost use Rattle.pdu_fields.specs.Grammar.{IsRead, front_at, handling_parts};
ghost use Rattle.pdu_fields.specs.Handling.{handling_contents};

use crate::fault::{Field, PduFault};
use crate::fields::{octets_at, text_at};
use pdu_tables::limits;

/// How a message is to be handled; its times stand in octets.
#[derive(Clone, Copy)]
pub struct HandlingOctets<'a> {
    /// What the message is (SMPP 3.4, section 5.2.12).
    pub esm_class: u8,
    /// The protocol of its network (section 5.2.13).
    pub protocol_id: u8,
    /// How urgent it is (section 5.2.14).
    pub priority_flag: u8,
    /// When it is to be delivered (section 5.2.15), without a zero octet.
    pub schedule_delivery_time: &'a [u8],
    /// Until when it is worth delivering (section 5.2.16), without a zero octet.
    pub validity_period: &'a [u8],
    /// Which receipts are asked for (section 5.2.17).
    pub registered_delivery: u8,
    /// Whether an older message is to be replaced (section 5.2.18).
    pub replace_if_present_flag: u8,
    /// In what its text is written (section 5.2.19).
    pub data_coding: u8,
    /// Which text of the centre's own it has (section 5.2.20).
    pub sm_default_msg_id: u8,
}

/// How a message is to be handled, at the front of octets, and the octets after it. It takes no memory.
pub fn handling_at(octets: &[u8]) -> Result<(HandlingOctets<'_>, &[u8]), PduFault>
    ensures { IsRead (λ x. (handling_contents x.0, x.1.now)) result (front_at handling_parts octets.now) }
{
    let class = [Field::EsmClass, Field::ProtocolId, Field::PriorityFlag];
    let ([esm_class, protocol_id, priority_flag], rest) = octets_at(class, octets)?;
    let (schedule_delivery_time, rest) = text_at(Field::ScheduleDeliveryTime, limits::TIME, rest)?;
    let (validity_period, rest) = text_at(Field::ValidityPeriod, limits::TIME, rest)?;
    let flags = [
        Field::RegisteredDelivery,
        Field::ReplaceIfPresentFlag,
        Field::DataCoding,
        Field::SmDefaultMsgId,
    ];
    let (
        [
            registered_delivery,
            replace_if_present_flag,
            data_coding,
            sm_default_msg_id,
        ],
        rest,
    ) = octets_at(flags, rest)?;
    let handling = HandlingOctets {
        esm_class,
        protocol_id,
        priority_flag,
        schedule_delivery_time,
        validity_period,
        registered_delivery,
        replace_if_present_flag,
        data_coding,
        sm_default_msg_id,
    };
    Ok((handling, rest))
}
