//! PDUs, and what their bodies have (SMPP 3.4, section 4).

use pdu_fields::{
    Address, AddressRange, MessageIdText, Password, ServiceType, ShortMessage, SystemId,
    SystemType, TimeText, Tlvs,
};
use pdu_tables::Command;
use std::fmt;

/// A PDU: its status, of any number, its sequence_number, of any number, and its body.
#[derive(Debug, PartialEq, Eq, Drop)]
pub struct Pdu {
    /// command_status (section 5.1.3).
    pub status: u32,
    /// sequence_number (section 5.1.4).
    pub sequence: u32,
    /// What follows the header, by the command_id in it.
    pub body: Body,
}

/// The body of a PDU, by its command. A response whose fields may be left out is, without them, another PDU than one whose
/// texts are empty.
#[derive(PartialEq, Eq, Drop)]
pub enum Body {
    BindReceiver(Bind),
    BindReceiverResp(Option<BindAnswer>),
    BindTransmitter(Bind),
    BindTransmitterResp(Option<BindAnswer>),
    BindTransceiver(Bind),
    BindTransceiverResp(Option<BindAnswer>),
    SubmitSm(Message),
    /// With the message_id.
    SubmitSmResp(Option<MessageIdText>),
    DeliverSm(Message),
    /// With the message_id, which an ESME leaves empty.
    DeliverSmResp(Option<MessageIdText>),
    QuerySm(Query),
    QuerySmResp(Option<QueryAnswer>),
    CancelSm(Cancel),
    CancelSmResp,
    Unbind,
    UnbindResp,
    EnquireLink,
    EnquireLinkResp,
    GenericNack,
}

impl Body {
    ghost use Rattle.std.specs.Prelude.{◌≡◌};
    ghost use Rattle.pdu_bodies.specs.Bodies.{command_in};

    /// Its command.
    pub fn command(&self) -> Command
        ensures { result ≡ command_in self.now }
    {
        match self {
            Body::BindReceiver(_) => Command::BindReceiver,
            Body::BindReceiverResp(_) => Command::BindReceiverResp,
            Body::BindTransmitter(_) => Command::BindTransmitter,
            Body::BindTransmitterResp(_) => Command::BindTransmitterResp,
            Body::BindTransceiver(_) => Command::BindTransceiver,
            Body::BindTransceiverResp(_) => Command::BindTransceiverResp,
            Body::SubmitSm(_) => Command::SubmitSm,
            Body::SubmitSmResp(_) => Command::SubmitSmResp,
            Body::DeliverSm(_) => Command::DeliverSm,
            Body::DeliverSmResp(_) => Command::DeliverSmResp,
            Body::QuerySm(_) => Command::QuerySm,
            Body::QuerySmResp(_) => Command::QuerySmResp,
            Body::CancelSm(_) => Command::CancelSm,
            Body::CancelSmResp => Command::CancelSmResp,
            Body::Unbind => Command::Unbind,
            Body::UnbindResp => Command::UnbindResp,
            Body::EnquireLink => Command::EnquireLink,
            Body::EnquireLinkResp => Command::EnquireLinkResp,
            Body::GenericNack => Command::GenericNack,
        }
    }
}

/// Its command alone: what it has is not for a log, as the password of a bind.
impl fmt::Debug for Body {
    fn fmt<W: fmt::Write>(&self, f: &mut fmt::Formatter<W>) -> fmt::Result {
        self.command().fmt(f)
    }
}

/// What a bind has (section 4.1.5).
#[derive(PartialEq, Eq, Drop)]
pub struct Bind {
    pub system_id: SystemId,
    pub password: Password,
    pub system_type: SystemType,
    pub interface_version: u8,
    pub addr_ton: u8,
    pub addr_npi: u8,
    pub address_range: AddressRange,
}

/// What the response to a bind has (section 4.1.6).
#[derive(PartialEq, Eq, Drop)]
pub struct BindAnswer {
    pub system_id: SystemId,
    pub tlvs: Tlvs,
}

/// What a submit_sm and a deliver_sm have (sections 4.4.1 and 4.6.1).
#[derive(PartialEq, Eq, Drop)]
pub struct Message {
    pub service_type: ServiceType,
    pub source: Address,
    pub destination: Address,
    pub esm_class: u8,
    pub protocol_id: u8,
    pub priority_flag: u8,
    pub schedule_delivery_time: TimeText,
    pub validity_period: TimeText,
    pub registered_delivery: u8,
    pub replace_if_present_flag: u8,
    pub data_coding: u8,
    pub sm_default_msg_id: u8,
    pub short_message: ShortMessage,
    pub tlvs: Tlvs,
}

/// What a query_sm has (section 4.8.1).
#[derive(PartialEq, Eq, Drop)]
pub struct Query {
    pub message_id: MessageIdText,
    pub source: Address,
}

/// What the response to a query_sm has (section 4.8.2).
#[derive(PartialEq, Eq, Drop)]
pub struct QueryAnswer {
    pub message_id: MessageIdText,
    pub final_date: TimeText,
    pub message_state: u8,
    pub error_code: u8,
}

/// What a cancel_sm has (section 4.9.1).
#[derive(PartialEq, Eq, Drop)]
pub struct Cancel {
    pub service_type: ServiceType,
    pub message_id: MessageIdText,
    pub source: Address,
    pub destination: Address,
}
