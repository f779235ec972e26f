//! What is due for a message.

ghost use Rattle.std.specs.Prelude.{◌≡◌};
ghost use Rattle.fate_chain.specs.Kinds.{kind_of};
ghost use Rattle.delivery.specs.Due.{kind_due};

use fate_chain::{ErrorCode, Final, Kind};

/// The decree that a node puts after the chain of a message that waits, once its time has come.
#[derive(Clone, Copy, Debug, PartialEq, Eq)]
pub enum DueDecree {
    /// The message expires.
    Expired,
    /// Its eight attempts failed: it cannot be delivered.
    Undeliverable,
    /// Its attempt of this number, 1 to 8.
    Attempt(u8),
}

impl DueDecree {
    /// What its decree decides, by the error of the last failure.
    pub fn kind(self, error: ErrorCode) -> Kind
        ensures { kind_of result ≡ kind_due error self }
    {
        match self {
            DueDecree::Expired => Kind::Fate(Final::Expired, ErrorCode::of(0)),
            DueDecree::Undeliverable => Kind::Fate(Final::Undeliverable, error),
            DueDecree::Attempt(number) => Kind::Attempt(number),
        }
    }
}
