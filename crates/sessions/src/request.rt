//! The requests of an ESME that wait for the node's answer.

ghost use Rattle.std.specs.Prelude.{◌≡◌, ◌==◌, find, position, vec_capacity};
ghost use Rattle.sessions.specs.Windows.{without_first};

use crate::requested::Requested;

/// A request of the ESME that waits for the node's answer: the node's ticket, and the command and sequence_number with which
/// it came.
#[derive(Clone, Copy, Debug, PartialEq, Eq)]
pub struct OpenRequest {
    pub ticket: u64,
    pub requested: Requested,
    pub sequence: u32,
}

/// Takes out the request of a ticket, the first if there are several.
pub(crate) fn take_ticket(requests: &mut Vec<OpenRequest>, ticket: u64) -> Option<OpenRequest>
    ensures taken { result ≡ find (λ request. request.ticket == ticket) requests.old.items }
    ensures rest { requests.new.items ≡ without_first (λ request. request.ticket == ticket) requests.old.items }
    ensures room { vec_capacity requests.new ≡ vec_capacity requests.old }
{
    let place = place_of_ticket(requests, ticket)?;
    Some(requests.remove(place))
}

/// Where the first request of a ticket stands.
fn place_of_ticket(requests: &[OpenRequest], ticket: u64) -> Option<usize>
    ensures { result ≡ position (λ request. request.ticket == ticket) requests.now }
{
    requests.iter().position(|request| request.ticket == ticket)
}
