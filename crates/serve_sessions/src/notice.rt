//! What an operator is told, a line each.

ghost use Rattle.std.specs.Prelude.{◌≡◌, ◌⊎◌, ◌↔◌, IsTrue};
ghost use Rattle.serve_sessions.specs.Names.{shown};
ghost use Rattle.sessions.specs.declared.requested.Requested.TheVariants.{BindReceiver, BindTransceiver, BindTransmitter};

use pdu_tables::Status;
use sessions::{Requested, SessionState};
use std::fmt;
use std::net::SocketAddr;

/// Why a session ends.
#[derive(Clone, Copy, Debug, PartialEq, Eq)]
pub enum Reason {
    /// The ESME asked for it (SMPP 3.4, section 4.2).
    Unbound,
    /// The ESME closed the connection between two PDUs.
    Closed,
    /// The ESME closed the connection within a PDU.
    CutShort,
    /// A read or a write failed.
    Failed,
    // From here on the centre closes it.
    /// A command_length below 16 or above 8,192 came.
    WrongLength,
    /// No octet came for too long.
    Idle,
    /// Nobody bound in time.
    NotBound,
    /// The ESME took nothing for too long.
    Deaf,
    /// As many PDUs as may wait to be written did, and one more came.
    Crowded,
    /// There was no memory for what it needed.
    NoMemory,
    /// A thread that it needs could not be started.
    NoThread,
    /// The node or the whole server ends.
    CentreEnds,
}

impl fmt::Display for Reason {
    fn fmt<W: fmt::Write>(&self, f: &mut fmt::Formatter<W>) -> fmt::Result {
        f.write_str(match self {
            Reason::Unbound => "unbound",
            Reason::Closed => "closed by the ESME",
            Reason::CutShort => "closed by the ESME within a PDU",
            Reason::Failed => "the connection failed",
            Reason::WrongLength => "closed by the centre: a wrong command_length",
            Reason::Idle => "closed by the centre: it was idle",
            Reason::NotBound => "closed by the centre: nobody bound in time",
            Reason::Deaf => "closed by the centre: the ESME took nothing for too long",
            Reason::Crowded => "closed by the centre: too many PDUs waited to be written",
            Reason::NoMemory => "closed by the centre: there was not enough memory",
            Reason::NoThread => "closed by the centre: no thread could be started",
            Reason::CentreEnds => "closed by the centre: it ends",
        })
    }
}

/// The name of a command (SMPP 3.4, section 5.1.2.1).
fn name_of(requested: Requested) -> &'static str {
    match requested {
        Requested::BindReceiver => "bind_receiver",
        Requested::BindTransmitter => "bind_transmitter",
        Requested::BindTransceiver => "bind_transceiver",
        Requested::SubmitSm => "submit_sm",
        Requested::DeliverSm => "deliver_sm",
        Requested::QuerySm => "query_sm",
        Requested::CancelSm => "cancel_sm",
        Requested::Unbind => "unbind",
        Requested::EnquireLink => "enquire_link",
    }
}

/// Whether it is a bind.
pub fn is_bind(requested: Requested) -> bool
    ensures { IsTrue result ↔ (requested ≡ BindReceiver) ⊎ (requested ≡ BindTransmitter) ⊎ (requested ≡ BindTransceiver) }
{
    matches!(
        requested,
        Requested::BindReceiver | Requested::BindTransmitter | Requested::BindTransceiver
    )
}

/// The name of the state of a session that is bound.
fn role_of(state: SessionState) -> &'static str {
    match state {
        SessionState::Transmitter => "transmitter",
        SessionState::Receiver => "receiver",
        SessionState::Transceiver => "transceiver",
        SessionState::Fresh | SessionState::Gone => "nothing",
    }
}

/// The most octets of a system_id (SMPP 3.4, section 5.2.1).
const MOST_NAMED: usize = 15;

/// Where the body of a PDU begins (SMPP 3.4, section 3.2).
const BODY: usize = 16;

/// The octets of a system_id: those before the first that is zero, 15 at most.
#[derive(Clone, Copy, Debug, PartialEq, Eq)]
pub struct Name {
    octets: [u8; MOST_NAMED],
    length: usize,
}

impl Name {
    /// The first octets of these.
    pub fn of(octets: &[u8]) -> Name {
        let mut name = Name {
            octets: [0; MOST_NAMED],
            length: 0,
        };
        for place in 0..MOST_NAMED {
            match octets.get(place) {
                Some(octet) if *octet != 0 => {
                    name.octets[place] = *octet;
                    name.length = place + 1;
                }
                _ => break,
            }
        }
        name
    }

    /// That with which the body of a PDU begins.
    pub fn in_body(frame: &[u8]) -> Name {
        match frame.get(BODY..) {
            Some(body) => Name::of(body),
            None => Name::of(&[]),
        }
    }
}

impl fmt::Display for Name {
    fn fmt<W: fmt::Write>(&self, f: &mut fmt::Formatter<W>) -> fmt::Result {
        for octet in self.octets.iter().take(self.length) {
            f.write_char(visible(*octet))?;
        }
        Ok(())
    }
}

/// Of whom a line tells.
#[derive(Clone, Copy, Debug)]
pub struct Whom {
    /// Whose session it is, if somebody has bound.
    pub account: Option<Name>,
    /// From where it is.
    pub address: SocketAddr,
}

impl fmt::Display for Whom {
    fn fmt<W: fmt::Write>(&self, f: &mut fmt::Formatter<W>) -> fmt::Result {
        let address = self.address;
        match self.account {
            Some(account) => write!(f, "{account} from {address}"),
            None => write!(f, "not bound, from {address}"),
        }
    }
}

/// What a session said, or came to, that an operator is told.
#[derive(Drop)]
pub enum Notice {
    /// It began, from this address.
    Connected(SocketAddr),
    /// It is bound, for the account of this system_id, by an ESME of this interface_version.
    Bound(SessionState, Name, u8),
    /// A request was refused with this status.
    Refused(Requested, Status),
    /// A bind by this system_id was refused with this status.
    BindRefused(Requested, Status, Name),
    /// What came was no PDU that may come, and is refused with this status.
    Nacked(Status),
    /// It ended.
    Ended(Reason),
}

impl fmt::Display for Notice {
    fn fmt<W: fmt::Write>(&self, f: &mut fmt::Formatter<W>) -> fmt::Result {
        match self {
            Notice::Connected(address) => write!(f, "connected from {address}"),
            Notice::Bound(state, _, version) => {
                let role = role_of(*state);
                write!(f, "bound as {role}, interface_version 0x{version:02x}")
            }
            Notice::Refused(requested, status) => {
                let name = name_of(*requested);
                let code = status.code();
                write!(f, "{name} refused with 0x{code:02x}")
            }
            Notice::BindRefused(requested, status, name) => {
                let request = name_of(*requested);
                let code = status.code();
                write!(f, "{request} refused with 0x{code:02x}, system_id {name}")
            }
            Notice::Nacked(status) => {
                let code = status.code();
                write!(f, "nacked with 0x{code:02x}")
            }
            Notice::Ended(reason) => write!(f, "ended: {reason}"),
        }
    }
}

/// Octets as text: those that are no visible ASCII as `.`.
#[derive(Clone, Copy)]
pub struct VisibleText<'a>(pub &'a [u8]);

impl fmt::Display for VisibleText<'_> {
    fn fmt<W: fmt::Write>(&self, f: &mut fmt::Formatter<W>) -> fmt::Result {
        for octet in self.0 {
            f.write_char(visible(*octet))?;
        }
        Ok(())
    }
}

/// An octet as a character: `.` if it is no visible ASCII.
fn visible(octet: u8) -> char
    ensures { result ≡ shown octet }
{
    if octet.is_ascii_graphic() {
        char::from(octet)
    } else {
        '.'
    }
}
