//! What comes of the octets of one frame.

ghost use Rattle.std.specs.Prelude.{◌≡◌};
ghost use Rattle.sessions.specs.declared.response.Response.TheVariants.{Refused};

use crate::heard_pdu::HeardPdu;
use desk::Request;
use pdu_tables::Status;
use sessions::{Abandoned, Outgoing, Pushed, Requested, Response};

/// What comes of the octets of one frame on a session: at most one thing goes to the node, and at most one goes out.
#[derive(Drop)]
pub enum Heard {
    /// Nothing.
    Nothing,
    /// This goes out, and nothing goes to the node.
    Response(Outgoing),
    /// A request of the session's account is for the node. Once the node has answered its step, `Service::wait` takes its ticket, or
    /// `Asked::refusal` goes out.
    Request(Asked, Request),
    /// The ESME answers what was pushed, by this PDU: a deliver_sm_resp (SMPP 3.4, section 4.6.2) or a generic_nack (section 4.3.1).
    Answer(Pushed, HeardPdu),
    /// This goes out, and the session is gone; these pushed requests get no answer any more.
    Gone(Outgoing, Abandoned),
}

/// Which request of an ESME the node is asked for: its command, and its sequence_number.
#[derive(Clone, Copy, Debug, PartialEq, Eq)]
pub struct Asked {
    pub requested: Requested,
    pub sequence: u32,
}

impl Asked {
    /// The response that refuses it with this command_status.
    pub fn refusal(self, status: Status) -> Outgoing
        ensures { result ≡ record { sequence = self.sequence; response = Refused self.requested status } }
    {
        Outgoing {
            sequence: self.sequence,
            response: Response::Refused(self.requested, status),
        }
    }
}
