//! A request of a session goes to the node.

ghost use Rattle.std.specs.Prelude.{◌≡◌, true, IfErr, IfOk, OnErr, is_some};
ghost use Rattle.esme_service.specs.Sessions.{account_at};
ghost use Rattle.esme_site.specs.Asking.{HasAsked, HasNotAsked};

use crate::steps::Steps;
use desk::Request;
use esme_service::{Asked, Service};
use sessions::Outgoing;

/// A request that came on the session of a number: which it is there, and what it asks of the node.
#[derive(Drop)]
pub struct Asking {
    pub number: u8,
    pub asked: Asked,
    pub request: Request,
}

/// Why a request was not handed in.
#[derive(Clone, Copy, Debug, PartialEq, Eq)]
pub enum AskFault<F> {
    /// There was no memory.
    Memory,
    /// The node took no step of it.
    Step(F),
}

/// A request of a session that is bound goes to its node, as one of the session's account: it waits on that session under the ticket that it gets, or the response
/// is given that refuses it. An `Err` leaves all sessions as they were: for want of memory nothing was handed in, else no step was taken.
pub fn ask<At, P: Steps<At>>(
    service: &mut Service,
    steps: &mut P,
    at: &At,
    asking: Asking,
) -> Result<Option<Outgoing>, AskFault<P::Fault>>
    requires { is_some (account_at service.old.sessions asking.number) ≡ true }
    ensures asked { IfOk result (HasAsked P.took at.now asking service.old steps.old service.new steps.new) }
    ensures service { OnErr result (service.new ≡ service.old) }
    ensures steps { IfErr result (HasNotAsked P.refused steps.old steps.new) }
{
    let Asking {
        number,
        asked,
        request,
    } = asking;
    let Some(account) = service.account(number) else {
        unreachable!();
    };
    let Ok(account) = account.copy() else {
        drop(request);
        return Err(AskFault::Memory);
    };
    match steps.request(at, account, request) {
        Ok(taken) => {
            service.wait(number, asked, taken.ticket);
            Ok(taken.refused.map(|status| asked.refusal(status)))
        }
        Err(fault) => Err(AskFault::Step(fault)),
    }
}
