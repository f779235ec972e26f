//! What a node did with an attempt.

ghost use Rattle.std.specs.Prelude.{◌≡◌};
ghost use Rattle.mc_model.specs.node.Outcome.{decree_of};
ghost use Rattle.fate_chain.specs.Kinds.{kind_of};
ghost use Rattle.tick_rules.specs.Attempts.{closed_as};

use delivery::Outcome;
use fate_chain::{ErrorCode, Kind};

/// The error of an attempt that was given up, since its target had no session that may receive.
const NO_SESSION: u16 = 998;

/// What closed an attempt.
#[derive(Clone, Copy, Debug, PartialEq, Eq)]
pub enum Closing {
    /// What came of it.
    Answered(Outcome),
    /// It was given up before it was granted: it failed with the error 998.
    GivenUp,
}

impl Closing {
    /// What the decree on the attempt decides.
    pub fn kind(self) -> Kind
        ensures { kind_of result ≡ decree_of (closed_as self) }
    {
        match self {
            Closing::Answered(outcome) => outcome.kind(),
            Closing::GivenUp => Kind::Failed(ErrorCode::of(NO_SESSION)),
        }
    }
}

/// What a node did, in its incarnation, with the attempt at the place of the newest decree.
#[derive(Clone, Copy, Debug, PartialEq, Eq)]
pub struct Attempted {
    /// Whether it was granted.
    pub granted: bool,
    /// What closed it, if it is closed.
    pub closed: Option<Closing>,
}
