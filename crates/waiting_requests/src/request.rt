//! Requests.

ghost use Rattle.std.specs.Prelude.{◌≡◌, IfOk};
ghost use Rattle.mc_model.specs.node.Actor.{id_in};
ghost use Rattle.node_model.specs.Requests.{asks, is_cancel};
ghost use Rattle.node_model.specs.Starts.{matches};
ghost use Rattle.waiting_requests.specs.Waiting.{request_of};

use crate::taken::Taken;
use crate::verdict::is_match;
use fate_chain::Submission;
use mc_types::MsgId;
use pdu_codec::{AddressDigits, SystemId};
use std::alloc::AllocError;

/// A request that may wait, with what is compared of it (SMPP 3.4, sections 4.4, 4.8 and 4.9).
#[derive(Drop)]
pub enum Request {
    /// A submit_sm, with the message that was made of it.
    Submit(Taken),
    /// A query_sm of an account, with its source address.
    Query {
        id: MsgId,
        account: SystemId,
        source: AddressDigits,
    },
    /// A cancel_sm of an account, with its addresses; an empty destination names none.
    Cancel {
        id: MsgId,
        account: SystemId,
        source: AddressDigits,
        destination: AddressDigits,
    },
}

impl Request {
    /// The id of the message that it is about.
    pub fn id(&self) -> MsgId
        ensures { result ≡ id_in (request_of self.now) }
    {
        match self {
            Request::Submit(taken) => taken.id(),
            Request::Query { id, .. } | Request::Cancel { id, .. } => *id,
        }
    }

    /// Whether it is a cancel_sm.
    pub(crate) fn is_cancel(&self) -> bool
        ensures { result ≡ is_cancel (request_of self.now) }
    {
        matches!(self, Request::Cancel { .. })
    }

    /// Whether it asks questions: a submit_sm asks none.
    pub fn asks(&self) -> bool
        ensures { result ≡ asks (request_of self.now) }
    {
        !matches!(self, Request::Submit(_))
    }

    /// Whether it is a cancel_sm of the message of this id, and matches it.
    pub(crate) fn matches(&self, id: MsgId, message: &Submission) -> bool
        ensures { result ≡ matches (request_of self.now) id message.now }
    {
        match self {
            Request::Cancel {
                id: other,
                account,
                source,
                destination,
            } => *other == id && is_match(message, account, source, destination),
            _ => false,
        }
    }

    /// The same request once more.
    pub(crate) fn copy(&self) -> Result<Request, AllocError>
        ensures { IfOk result (λ request. request ≡ self.now) }
    {
        match self {
            Request::Submit(taken) => Ok(Request::Submit(taken.copy()?)),
            Request::Query {
                id,
                account,
                source,
            } => Ok(Request::Query {
                id: *id,
                account: account.copy()?,
                source: source.copy()?,
            }),
            Request::Cancel {
                id,
                account,
                source,
                destination,
            } => Ok(Request::Cancel {
                id: *id,
                account: account.copy()?,
                source: source.copy()?,
                destination: destination.copy()?,
            }),
        }
    }
}
