ghost use Rattle.std.specs.Prelude.{◌≡◌, IfSome, Some};
ghost use Rattle.pdu_tables.specs.CommandCodes.{command_code, command_of};

use crate::codes::{code_of, one_of};

/// A command of SMPP 3.4 (section 5.1.2.1) that the centre knows, by its command_id. The rest are answered by a
/// generic_nack.
#[derive(Clone, Copy, Debug, PartialEq, Eq)]
pub enum Command {
    /// `generic_nack`, 0x8000_0000.
    GenericNack,
    /// `bind_receiver`, 0x0000_0001.
    BindReceiver,
    /// `bind_receiver_resp`, 0x8000_0001.
    BindReceiverResp,
    /// `bind_transmitter`, 0x0000_0002.
    BindTransmitter,
    /// `bind_transmitter_resp`, 0x8000_0002.
    BindTransmitterResp,
    /// `query_sm`, 0x0000_0003.
    QuerySm,
    /// `query_sm_resp`, 0x8000_0003.
    QuerySmResp,
    /// `submit_sm`, 0x0000_0004.
    SubmitSm,
    /// `submit_sm_resp`, 0x8000_0004.
    SubmitSmResp,
    /// `deliver_sm`, 0x0000_0005.
    DeliverSm,
    /// `deliver_sm_resp`, 0x8000_0005.
    DeliverSmResp,
    /// `unbind`, 0x0000_0006.
    Unbind,
    /// `unbind_resp`, 0x8000_0006.
    UnbindResp,
    /// `cancel_sm`, 0x0000_0008.
    CancelSm,
    /// `cancel_sm_resp`, 0x8000_0008.
    CancelSmResp,
    /// `bind_transceiver`, 0x0000_0009.
    BindTransceiver,
    /// `bind_transceiver_resp`, 0x8000_0009.
    BindTransceiverResp,
    /// `enquire_link`, 0x0000_0015.
    EnquireLink,
    /// `enquire_link_resp`, 0x8000_0015.
    EnquireLinkResp,
}

/// The command_ids.
macro_rules! commands {
    ($way:ident, $what:expr) => {
        $way!($what;
            Command::GenericNack = 0x8000_0000,
            Command::BindReceiver = 0x0000_0001,
            Command::BindReceiverResp = 0x8000_0001,
            Command::BindTransmitter = 0x0000_0002,
            Command::BindTransmitterResp = 0x8000_0002,
            Command::QuerySm = 0x0000_0003,
            Command::QuerySmResp = 0x8000_0003,
            Command::SubmitSm = 0x0000_0004,
            Command::SubmitSmResp = 0x8000_0004,
            Command::DeliverSm = 0x0000_0005,
            Command::DeliverSmResp = 0x8000_0005,
            Command::Unbind = 0x0000_0006,
            Command::UnbindResp = 0x8000_0006,
            Command::CancelSm = 0x0000_0008,
            Command::CancelSmResp = 0x8000_0008,
            Command::BindTransceiver = 0x0000_0009,
            Command::BindTransceiverResp = 0x8000_0009,
            Command::EnquireLink = 0x0000_0015,
            Command::EnquireLinkResp = 0x8000_0015)
    };
}

impl Command {
    ghost use Rattle.pdu_tables.specs.declared.command.Command.{Command};

    /// The command_id that stands for it.
    pub fn code(self) -> u32
        ensures { result ≡ command_code self }
    {
        commands!(code_of, self)
    }

    /// What a command_id stands for; none if it is not in the table.
    pub fn of_code(code: u32) -> Option<Command>
        ensures table { result ≡ command_of code }
        ensures known { IfSome result (λ command. command_code command ≡ code) }
        ensures only { (command : Command) → command_code command ≡ code → result ≡ Some command }
    {
        commands!(one_of, code)
    }
}
