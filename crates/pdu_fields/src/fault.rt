//! Why octets are no PDU.

ghost use Rattle.std.specs.Prelude.{◌≡◌};
ghost use Rattle.pdu_fields.specs.declared.fault.PduFault.TheVariants.{Memory};

use std::alloc::AllocError;
use std::fmt;
use thiserror::Error;

/// A field of a PDU's body, by its name in SMPP 3.4 (section 4).
#[derive(Clone, Copy, PartialEq, Eq)]
pub enum Field {
    SystemId,
    Password,
    SystemType,
    InterfaceVersion,
    AddrTon,
    AddrNpi,
    AddressRange,
    ServiceType,
    SourceAddrTon,
    SourceAddrNpi,
    SourceAddr,
    DestAddrTon,
    DestAddrNpi,
    DestinationAddr,
    EsmClass,
    ProtocolId,
    PriorityFlag,
    ScheduleDeliveryTime,
    ValidityPeriod,
    RegisteredDelivery,
    ReplaceIfPresentFlag,
    DataCoding,
    SmDefaultMsgId,
    SmLength,
    ShortMessage,
    MessageId,
    FinalDate,
    MessageState,
    ErrorCode,
    OptionalParameters,
}

impl Field {
    /// Its name in SMPP 3.4.
    fn name(self) -> &'static str {
        match self {
            Field::SystemId => "system_id",
            Field::Password => "password",
            Field::SystemType => "system_type",
            Field::InterfaceVersion => "interface_version",
            Field::AddrTon => "addr_ton",
            Field::AddrNpi => "addr_npi",
            Field::AddressRange => "address_range",
            Field::ServiceType => "service_type",
            Field::SourceAddrTon => "source_addr_ton",
            Field::SourceAddrNpi => "source_addr_npi",
            Field::SourceAddr => "source_addr",
            Field::DestAddrTon => "dest_addr_ton",
            Field::DestAddrNpi => "dest_addr_npi",
            Field::DestinationAddr => "destination_addr",
            Field::EsmClass => "esm_class",
            Field::ProtocolId => "protocol_id",
            Field::PriorityFlag => "priority_flag",
            Field::ScheduleDeliveryTime => "schedule_delivery_time",
            Field::ValidityPeriod => "validity_period",
            Field::RegisteredDelivery => "registered_delivery",
            Field::ReplaceIfPresentFlag => "replace_if_present_flag",
            Field::DataCoding => "data_coding",
            Field::SmDefaultMsgId => "sm_default_msg_id",
            Field::SmLength => "sm_length",
            Field::ShortMessage => "short_message",
            Field::MessageId => "message_id",
            Field::FinalDate => "final_date",
            Field::MessageState => "message_state",
            Field::ErrorCode => "error_code",
            Field::OptionalParameters => "the optional parameters",
        }
    }
}

/// The name of the field in SMPP 3.4.
impl fmt::Display for Field {
    fn fmt<W: fmt::Write>(&self, f: &mut fmt::Formatter<W>) -> fmt::Result {
        f.write_str(self.name())
    }
}

/// Its name as `Display` writes it.
impl fmt::Debug for Field {
    fn fmt<W: fmt::Write>(&self, f: &mut fmt::Formatter<W>) -> fmt::Result {
        f.write_str(self.name())
    }
}

/// The first fault of a PDU, from its first octet to its last.
#[derive(Clone, Copy, Debug, PartialEq, Eq, Error)]
pub enum PduFault {
    /// 1: fewer than 16 octets, more than 8,192, or not as many as command_length says.
    #[error("the PDU has not 16 to 8192 octets, or not as many as its command_length says")]
    Length,
    /// 2: a command_id that isn't served.
    #[error("the command_id is not known")]
    Command,
    /// 3: the PDU ends before the field does.
    #[error("the PDU ends before {0} does")]
    Cut(Field),
    /// 4: no zero octet is among as many as the limit of the text.
    #[error("{0} is not ended by a zero octet within its limit")]
    LongText(Field),
    /// 5: sm_length is above 254.
    #[error("sm_length is above 254")]
    TextLength,
    /// 6: the optional parameters are cut, or have more than 7,000 octets.
    #[error("the optional parameters are cut, or have more than 7000 octets")]
    Tlvs,
    /// 7: octets follow the last field.
    #[error("octets follow the last field")]
    Extra,
    /// There was no memory for the PDU.
    #[error("there was not enough memory")]
    Memory,
}

impl From<AllocError> for PduFault {
    ghost from_gives = { λ _ fault. fault ≡ Memory };

    fn from(_error: AllocError) -> PduFault {
        PduFault::Memory
    }
}
