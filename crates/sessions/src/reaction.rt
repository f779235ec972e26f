//! What comes of a PDU.

use crate::pushed::{Abandoned, Pushed};
use crate::requested::Requested;
use crate::response::Outgoing;

/// What comes of a PDU on a session.
#[derive(Drop)]
pub enum Reaction {
    /// Nothing: it is dropped.
    Nothing,
    /// This is sent.
    Respond(Outgoing),
    /// This is sent, and the session is gone; these pushed requests are given up.
    Leave(Outgoing, Abandoned),
    /// The request is the node's: it has room in the window, and takes a place there if the node lets it wait.
    Ask(Requested),
    /// It is the ESME's answer to this pushed request: a deliver_sm_resp (SMPP 3.4, section 4.6.2) or a generic_nack (section 4.3.1).
    Answered(Pushed),
}
