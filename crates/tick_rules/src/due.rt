//! What is due for a message.

ghost use Rattle.std.specs.Prelude.{◌≡◌};
ghost use Rattle.fate_chain.specs.Kinds.{kind_of};
ghost use Rattle.tick_rules.specs.Dues.{kind_due};

use crate::attempted::Closing;
use delivery::DueDecree;
use fate_chain::{ErrorCode, Final, Kind};

/// The error of an attempt that an older incarnation made.
const OLDER_INCARNATION: u16 = 999;

/// What a node is to decide next on a message.
#[derive(Clone, Copy, Debug, PartialEq, Eq)]
pub enum Due {
    /// What came of its attempt.
    Close(Closing),
    /// Its attempt of an older incarnation is lost: it failed with the error 999.
    Lose,
    /// Its attempt was not granted, and no session of the target may receive: it failed with the error 998.
    GiveUp,
    /// The message is deleted.
    Delete,
    /// The receipt on its fate is told.
    Told,
    /// The message expires, cannot be delivered, or is attempted.
    Decree(DueDecree),
}

impl Due {
    /// What its decree decides, by the error of the last failure.
    pub fn kind(self, error: ErrorCode) -> Kind
        ensures { kind_of result ≡ kind_due error self }
    {
        match self {
            Due::Close(closing) => closing.kind(),
            Due::Lose => Kind::Failed(ErrorCode::of(OLDER_INCARNATION)),
            Due::GiveUp => Closing::GivenUp.kind(),
            Due::Delete => Kind::Fate(Final::Deleted, ErrorCode::of(0)),
            Due::Told => Kind::Told,
            Due::Decree(due) => due.kind(error),
        }
    }
}
