//! What tells of octets that are no PDU.

ghost use Rattle.std.specs.Prelude.{◌≡◌};
ghost use Rattle.sessions.specs.Faults.{refused_with, status_of_long, told_of};

use crate::requested::Requested;
use crate::response::Response;
use pdu_codec::{Field, PduFault};
use pdu_tables::Status;

/// What tells of a fault in the octets of this request, or of what is no request. Nothing tells of a fault in what is no request
/// but a wrong length and an unknown command, nor of want of memory.
pub(crate) fn told_of_fault(fault: PduFault, requested: Option<Requested>) -> Option<Response>
    ensures { result ≡ told_of fault requested }
{
    match fault {
        PduFault::Length => Some(Response::Nack(Status::InvalidCommandLength)),
        PduFault::Command => Some(Response::Nack(Status::InvalidCommandId)),
        PduFault::Cut(_) | PduFault::Extra => {
            requested.map(|_| Response::Nack(Status::InvalidCommandLength))
        }
        PduFault::LongText(field) => refused(requested, status_of_long_field(field)),
        PduFault::TextLength => refused(requested, Status::InvalidMessageLength),
        PduFault::Tlvs => refused(requested, Status::InvalidOptionalParameters),
        PduFault::Memory => None,
    }
}

/// The request, if there is one, is refused with this status.
fn refused(requested: Option<Requested>, status: Status) -> Option<Response>
    ensures { result ≡ refused_with status requested }
{
    requested.map(|requested| Response::Refused(requested, status))
}

/// The status that tells that a field is too long. Those after the first ten are no texts of a request, so none of them is too long.
fn status_of_long_field(field: Field) -> Status
    ensures { result ≡ status_of_long field }
{
    match field {
        Field::ServiceType => Status::InvalidServiceType,
        Field::SourceAddr => Status::InvalidSourceAddress,
        Field::DestinationAddr => Status::InvalidDestinationAddress,
        Field::MessageId => Status::InvalidMessageId,
        Field::ScheduleDeliveryTime => Status::InvalidSchedule,
        Field::ValidityPeriod => Status::InvalidExpiry,
        Field::SystemId => Status::InvalidSystemId,
        Field::Password => Status::InvalidPassword,
        Field::SystemType => Status::InvalidSystemType,
        Field::AddressRange => Status::BindFailed,
        Field::InterfaceVersion
        | Field::AddrTon
        | Field::AddrNpi
        | Field::SourceAddrTon
        | Field::SourceAddrNpi
        | Field::DestAddrTon
        | Field::DestAddrNpi
        | Field::EsmClass
        | Field::ProtocolId
        | Field::PriorityFlag
        | Field::RegisteredDelivery
        | Field::ReplaceIfPresentFlag
        | Field::DataCoding
        | Field::SmDefaultMsgId
        | Field::SmLength
        | Field::ShortMessage
        | Field::FinalDate
        | Field::MessageState
        | Field::ErrorCode
        | Field::OptionalParameters => Status::InvalidMessageLength,
    }
}
