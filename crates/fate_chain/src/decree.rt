//! Decrees.

ghost use Rattle.std.specs.Prelude.{◌≡◌, ◌≤◌, ◌↔◌, Some, IfSome, IfOk, IsSome, IsTrue, option_map};
ghost use Rattle.mc_model.specs.message.Chain.{error_by};
ghost use Rattle.fate_chain.specs.Kinds.{final_of, kind_of};
ghost use Rattle.fate_chain.specs.Marks.{bare, bare_kind, IsMarkOf};
ghost use Rattle.fate_chain.specs.States.{final_in, state_of};

use crate::marks::{Act, Mark};
use crate::shared_submission::SharedSubmission;
use mc_types::{Incarnation, Moment, NodeNo};
use pdu_tables::State;
use std::alloc::AllocError;
use std::marker::Model;

/// The node that made a decree, and its incarnation then.
#[derive(Clone, Copy, Debug, PartialEq, Eq)]
pub struct Author {
    pub node: NodeNo,
    pub incarnation: Incarnation,
}

/// Why an attempt or a message failed, 0 to 999.
#[derive(Clone, Copy, Debug, PartialEq, Eq)]
pub struct ErrorCode {
    number: u16,
}

impl Model for ErrorCode {
    ghost use Rattle.std.specs.Prelude.{◌≤◌, ℕ};

    ghost Value = { ℕ };

    ghost view = { λ error. error.number };

    ghost invariant = { λ error. error.number ≤ 999 };

    ghost inverse = { λ number. record { number = number } };
}

impl ErrorCode {
    /// The error of this number; none if it is above 999.
    pub fn make(number: u16) -> Option<ErrorCode>
        ensures made { IsSome result ↔ (number ≤ 999) }
        ensures value { IfSome result (λ error. error ≡ number) }
    {
        if number > 999 {
            return None;
        }
        Some(ErrorCode { number })
    }

    /// The error of a number that is known to be one.
    pub fn of(number: u16) -> ErrorCode
        requires { number ≤ 999 }
        ensures { result ≡ number }
    {
        ErrorCode { number }
    }

    /// 0 to 999.
    pub fn number(self) -> u16
        ensures value { result ≡ self }
        ensures range { self ≤ 999 }
    {
        self.number
    }
}

/// A final state (SMPP 3.4, section 5.2.28) that a message of this centre may have.
#[derive(Clone, Copy, Debug, PartialEq, Eq)]
pub enum Final {
    Delivered,
    Expired,
    Deleted,
    Undeliverable,
    Rejected,
}

impl Final {
    /// The one whose message_state has this code; none if there is none.
    #[tactic(auto, unfolding(crate::specs::States::final_in))]
    pub(crate) fn of_code(code: u8) -> Option<Final>
        ensures { option_map final_of result ≡ final_in code }
    {
        match code {
            2 => Some(Final::Delivered),
            3 => Some(Final::Expired),
            4 => Some(Final::Deleted),
            5 => Some(Final::Undeliverable),
            8 => Some(Final::Rejected),
            _ => None,
        }
    }

    /// The message_state of a message that has it.
    pub fn state(self) -> State
        ensures { result ≡ state_of (Some (final_of self)) }
    {
        match self {
            Final::Delivered => State::Delivered,
            Final::Expired => State::Expired,
            Final::Deleted => State::Deleted,
            Final::Undeliverable => State::Undeliverable,
            Final::Rejected => State::Rejected,
        }
    }
}

/// What a decree decides.
#[derive(Drop)]
pub enum Kind {
    /// The message is taken.
    Taken(SharedSubmission),
    /// Its attempt of this number, from 1, is begun.
    Attempt(u8),
    /// That attempt failed.
    Failed(ErrorCode),
    /// The message has this final state.
    Fate(Final, ErrorCode),
    /// The receipt on the final state is told.
    Told,
}

impl Kind {
    /// The same once more.
    pub(crate) fn copy(&self) -> Result<Kind, AllocError>
        ensures { IfOk result (λ kind. kind ≡ self.now) }
    {
        match self {
            Kind::Taken(message) => Ok(Kind::Taken(message.share()?)),
            Kind::Attempt(number) => Ok(Kind::Attempt(*number)),
            Kind::Failed(error) => Ok(Kind::Failed(*error)),
            Kind::Fate(last, error) => Ok(Kind::Fate(*last, *error)),
            Kind::Told => Ok(Kind::Told),
        }
    }

    /// Whether it is the same as the other.
    fn is(&self, other: &Kind) -> bool
        ensures { IsTrue result ↔ (kind_of self.now ≡ kind_of other.now) }
    {
        match (self, other) {
            (Kind::Taken(message), Kind::Taken(taken)) => {
                message.submission().is(taken.submission())
            }
            (Kind::Attempt(number), Kind::Attempt(attempt)) => number == attempt,
            (Kind::Failed(error), Kind::Failed(cause)) => error == cause,
            (Kind::Fate(last, error), Kind::Fate(fate, cause)) => last == fate && error == cause,
            (Kind::Told, Kind::Told) => true,
            _ => false,
        }
    }

    /// What of it decides which decree may follow.
    pub(crate) fn act(&self) -> Act
        ensures { bare_kind result ≡ bare (kind_of self.now) }
    {
        match self {
            Kind::Taken(message) => Act::Taken(message.submission().terms()),
            Kind::Attempt(number) => Act::Attempt(*number),
            Kind::Failed(_) => Act::Failed,
            Kind::Fate(last, _) => Act::Fate(*last),
            Kind::Told => Act::Told,
        }
    }
}

/// A decree on a message.
#[derive(Drop)]
pub struct Decree {
    pub author: Author,
    pub moment: Moment,
    pub kind: Kind,
}

impl Model for Decree {
    ghost use Rattle.mc_model.specs.message.Decree.{Decree};
    ghost use Rattle.fate_chain.specs.Kinds.{author_of, kind_of};

    ghost Value = { Decree };

    ghost view = { λ d. record { author = author_of d.author; moment = d.moment; kind = kind_of d.kind } };
}

impl Decree {
    /// The same decree once more.
    pub(crate) fn copy(&self) -> Result<Decree, AllocError>
        ensures { IfOk result (λ decree. decree ≡ self.now) }
    {
        Ok(Decree {
            author: self.author,
            moment: self.moment,
            kind: self.kind.copy()?,
        })
    }

    /// Whether it is the same as the other.
    fn is(&self, other: &Decree) -> bool
        ensures { IsTrue result ↔ (self.now ≡ other.now) }
    {
        self.author == other.author && self.moment == other.moment && self.kind.is(&other.kind)
    }

    /// What of it decides which decree may follow.
    pub(crate) fn mark(&self) -> Mark
        ensures { IsMarkOf self.now result }
    {
        Mark {
            author: self.author,
            moment: self.moment,
            act: self.kind.act(),
        }
    }

    /// The error of the message after it, 0 to 999, by the error before it.
    pub(crate) fn error_after(&self, before: u16) -> u16
        requires { before ≤ 999 }
        ensures error { result ≡ error_by self.now.kind before }
        ensures range { result ≤ 999 }
    {
        match self.kind {
            Kind::Taken(_) => 0,
            Kind::Attempt(_) | Kind::Told => before,
            Kind::Failed(error) | Kind::Fate(_, error) => error.number(),
        }
    }
}

/// Whether both lists have the same decrees, in the same order.
pub(crate) fn are_same(one: &[Decree], other: &[Decree]) -> bool
    ensures { IsTrue result ↔ (one.now ≡ other.now) }
{
    if one.len() != other.len() {
        return false;
    }
    for place in 0..one.len() {
        if !one[place].is(&other[place]) {
            return false;
        }
    }
    true
}
