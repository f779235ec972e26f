//! Requests and what they are answered.

ghost use Rattle.std.specs.Prelude.{◌≡◌, ◌↔◌, IfOk, IsTrue};

use mc_types::Moment;
use pdu_codec::{Cancel, Message, Query, SystemId};
use pdu_tables::State;
use std::alloc::AllocError;

/// A request of an account.
#[derive(Drop)]
pub enum Request {
    /// A submit_sm, with the account that a route leads to, if one does.
    Submit(Message, Option<SystemId>),
    /// A query_sm.
    Ask(Query),
    /// A cancel_sm.
    Cancel(Cancel),
}

impl Request {
    /// Whether it is the same request as the other, of what its PDU has and of its route. It takes no memory.
    pub fn is(&self, other: &Request) -> bool
        ensures { IsTrue result ↔ (self.now ≡ other.now) }
    {
        match (self, other) {
            (Request::Submit(message, route), Request::Submit(other, way)) => {
                message.is(other) && is_same_route(route, way)
            }
            (Request::Ask(query), Request::Ask(other)) => query.is(other),
            (Request::Cancel(cancel), Request::Cancel(other)) => cancel.is(other),
            _ => false,
        }
    }

    /// The same once more. An `Err` is want of memory.
    pub fn copy(&self) -> Result<Request, AllocError>
        ensures { IfOk result (λ copy. copy ≡ self.now) }
    {
        match self {
            Request::Submit(message, route) => {
                Ok(Request::Submit(message.copy()?, copy_of_route(route)?))
            }
            Request::Ask(query) => Ok(Request::Ask(query.copy()?)),
            Request::Cancel(cancel) => Ok(Request::Cancel(cancel.copy()?)),
        }
    }
}

/// Whether both routes lead to the same account, or to none.
fn is_same_route(one: &Option<SystemId>, other: &Option<SystemId>) -> bool
    ensures { IsTrue result ↔ (one.now ≡ other.now) }
{
    match (one, other) {
        (Some(account), Some(other)) => account.octets() == other.octets(),
        (None, None) => true,
        _ => false,
    }
}

/// The account that a route leads to, if one does, once more.
fn copy_of_route(route: &Option<SystemId>) -> Result<Option<SystemId>, AllocError>
    ensures { IfOk result (λ copy. copy ≡ route.now) }
{
    match route {
        Some(account) => Ok(Some(account.copy()?)),
        None => Ok(None),
    }
}

/// The answer to a request that waited.
#[derive(Clone, Copy, Debug, PartialEq, Eq)]
pub enum Answer {
    /// The message of the submit_sm was taken.
    Accepted,
    /// The message of the query_sm has this state, since this moment if it is a final one, and this error, which is cut to 255.
    Shown(State, Option<Moment>, u8),
    /// The message of the query_sm is another account's, or from another source address.
    NotOwner,
    /// The message of the cancel_sm is deleted, or was before.
    Removed,
    /// The message of the cancel_sm stays: an attempt of it is under way, or it has another final state.
    Kept,
    /// The cancel_sm does not mean the message of its id.
    NotMatched,
    /// There is no message of this id.
    Unknown,
}
