//! The states of a session.

ghost use Rattle.std.specs.Prelude.{◌≡◌};
ghost use Rattle.sessions.specs.States.{bound_as, is_fresh, is_gone, may_ask, may_receive};

use accounts::Role;

/// The state of a session (SMPP 3.4, section 2.2).
#[derive(Clone, Copy, Debug, PartialEq, Eq)]
pub enum SessionState {
    /// `OPEN`: connected, and not bound yet.
    Fresh,
    /// `BOUND_TX`: the ESME may submit.
    Transmitter,
    /// `BOUND_RX`: the ESME may be delivered to.
    Receiver,
    /// `BOUND_TRX`: both.
    Transceiver,
    /// `CLOSED`: nothing comes of it any more.
    Gone,
}

impl SessionState {
    /// The state of a session that is bound in this role.
    pub(crate) fn bound_as(role: Role) -> SessionState
        ensures { result ≡ bound_as role }
    {
        match role {
            Role::Transmitter => SessionState::Transmitter,
            Role::Receiver => SessionState::Receiver,
            Role::Transceiver => SessionState::Transceiver,
        }
    }

    /// Whether the session is not bound yet.
    pub(crate) fn is_fresh(self) -> bool
        ensures { result ≡ is_fresh self }
    {
        matches!(self, SessionState::Fresh)
    }

    /// Whether nothing comes of it any more.
    pub fn is_gone(self) -> bool
        ensures { result ≡ is_gone self }
    {
        matches!(self, SessionState::Gone)
    }

    /// Whether the ESME may submit, query and cancel.
    pub(crate) fn may_ask(self) -> bool
        ensures { result ≡ may_ask self }
    {
        matches!(self, SessionState::Transmitter | SessionState::Transceiver)
    }

    /// Whether the ESME may be delivered to.
    pub fn may_receive(self) -> bool
        ensures { result ≡ may_receive self }
    {
        matches!(self, SessionState::Receiver | SessionState::Transceiver)
    }
}
