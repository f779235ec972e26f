//! The requests of an ESME, by their commands.

ghost use Rattle.std.specs.Prelude.{◌≡◌};
ghost use Rattle.pdu_tables.specs.CommandCodes.{command_of};
ghost use Rattle.sessions.specs.Responses.{bind_request, requested_by, refusal_body};

use accounts::Role;
use pdu_codec::Body;
use pdu_tables::Command;

/// A request of an ESME, by its command (SMPP 3.4, section 5.1.2.1).
#[derive(Clone, Copy, Debug, PartialEq, Eq)]
pub enum Requested {
    BindReceiver,
    BindTransmitter,
    BindTransceiver,
    SubmitSm,
    DeliverSm,
    QuerySm,
    CancelSm,
    Unbind,
    EnquireLink,
}

impl Requested {
    /// The request that a command_id names, if it names one.
    pub fn of_command(command: u32) -> Option<Requested>
        ensures { result ≡ requested_by (command_of command) }
    {
        match Command::of_code(command) {
            Some(Command::BindReceiver) => Some(Requested::BindReceiver),
            Some(Command::BindTransmitter) => Some(Requested::BindTransmitter),
            Some(Command::BindTransceiver) => Some(Requested::BindTransceiver),
            Some(Command::SubmitSm) => Some(Requested::SubmitSm),
            Some(Command::DeliverSm) => Some(Requested::DeliverSm),
            Some(Command::QuerySm) => Some(Requested::QuerySm),
            Some(Command::CancelSm) => Some(Requested::CancelSm),
            Some(Command::Unbind) => Some(Requested::Unbind),
            Some(Command::EnquireLink) => Some(Requested::EnquireLink),
            _ => None,
        }
    }

    /// The bind in a role.
    pub(crate) fn of_role(role: Role) -> Requested
        ensures { result ≡ bind_request role }
    {
        match role {
            Role::Transmitter => Requested::BindTransmitter,
            Role::Receiver => Requested::BindReceiver,
            Role::Transceiver => Requested::BindTransceiver,
        }
    }

    /// The body of the response that refuses it: none after the header.
    pub fn refusal_body(self) -> Body
        ensures { result ≡ refusal_body self }
    {
        match self {
            Requested::BindReceiver => Body::BindReceiverResp(None),
            Requested::BindTransmitter => Body::BindTransmitterResp(None),
            Requested::BindTransceiver => Body::BindTransceiverResp(None),
            Requested::SubmitSm => Body::SubmitSmResp(None),
            Requested::DeliverSm => Body::DeliverSmResp(None),
            Requested::QuerySm => Body::QuerySmResp(None),
            Requested::CancelSm => Body::CancelSmResp,
            Requested::Unbind => Body::UnbindResp,
            Requested::EnquireLink => Body::EnquireLinkResp,
        }
    }
}
