ghost use Rattle.std.specs.Prelude.{◌≡◌, IfSome, Some};
ghost use Rattle.pdu_tables.specs.StateCodes.{state_code, state_of};

use crate::codes::{code_of, one_of};

/// The state of a message (SMPP 3.4, section 5.2.28). No message of this centre is ever ACCEPTED or UNKNOWN.
#[derive(Clone, Copy, Debug, PartialEq, Eq)]
pub enum State {
    /// `ENROUTE`, 1.
    Enroute,
    /// `DELIVERED`, 2.
    Delivered,
    /// `EXPIRED`, 3.
    Expired,
    /// `DELETED`, 4.
    Deleted,
    /// `UNDELIVERABLE`, 5.
    Undeliverable,
    /// `ACCEPTED`, 6.
    Accepted,
    /// `UNKNOWN`, 7.
    Unknown,
    /// `REJECTED`, 8.
    Rejected,
}

/// The numbers of message_state.
macro_rules! states {
    ($way:ident, $what:expr) => {
        $way!($what;
            State::Enroute = 1,
            State::Delivered = 2,
            State::Expired = 3,
            State::Deleted = 4,
            State::Undeliverable = 5,
            State::Accepted = 6,
            State::Unknown = 7,
            State::Rejected = 8)
    };
}

impl State {
    ghost use Rattle.pdu_tables.specs.declared.state.State.{State};

    /// The message_state that stands for it.
    pub fn code(self) -> u8
        ensures { result ≡ state_code self }
    {
        states!(code_of, self)
    }

    /// What a message_state stands for; none if it is not in the table.
    pub fn of_code(code: u8) -> Option<State>
        ensures table { result ≡ state_of code }
        ensures known { IfSome result (λ state. state_code state ≡ code) }
        ensures only { (state : State) → state_code state ≡ code → result ≡ Some state }
    {
        states!(one_of, code)
    }
}
