//! Who serves a session, in a life of its node.

use crate::hearing::{Upshot, heed, heed_wrong_length};
use crate::shift::Shift;
use crate::starting::start_workers;
use crate::trouble::Trouble;
use node_workers::{Begins, Seat};
use serve_sessions::{Arrival, Connection, Next, Notice, Reason};
use stable_store::GroupStore;
use std::rt::Clock;
use std::sync::Wait;
use std::thread::{Scope, Threads};

/// Serves the session of a connection, until it ends or the life of its node does. In the latter case it goes on in the next one.
pub(crate) fn attend<
    's,
    E,
    S: GroupStore + Send + Sync,
    L: Begins + Send + Sync,
    R: Threads + Wait + Eprint + Clock + Sync,
>(shift: &Shift<'s, S, L, R>, scope: &'s Scope<'s, E>, arrival: &Arrival) {
    let reason = match shift.seat() {
        Some(mut seat) => {
            let reason = attend_on(shift, scope, arrival, &mut seat);
            shift.give_back(seat);
            reason
        }
        None => Some(Reason::NoMemory),
    };
    if let Some(reason) = reason {
        end(shift, arrival.number, reason);
    }
}

/// Serves one PDU after another; why the session ends. None if it goes on in the next life of the node.
fn attend_on<
    's,
    E,
    S: GroupStore + Send + Sync,
    L: Begins + Send + Sync,
    R: Threads + Wait + Eprint + Clock + Sync,
>(
    shift: &Shift<'s, S, L, R>,
    scope: &'s Scope<'s, E>,
    arrival: &Arrival,
    seat: &mut Seat<L>,
) -> Option<Reason> {
    let connection = &arrival.connection;
    let number = arrival.number;
    let mut is_receiver = may_receive(shift, number);
    for _ in shift.rt.forever() {
        if is_receiver {
            if start_workers(shift, scope, arrival).is_err() {
                return Some(Reason::NoThread);
            }
            shift.station.bell.call(0);
        }
        connection.wait_to_serve(shift.rt);
        is_receiver = match connection.next(shift.rt) {
            Next::Rest => return None,
            Next::End(reason) => return Some(ended(shift, seat, number, reason)),
            Next::Frame(frame) => match serve_frame(shift, connection, number, seat, frame) {
                Ok(is_receiver) => is_receiver,
                Err(reason) => return Some(reason),
            },
        };
    }
    None
}

/// Serves a PDU: whether it bound the session so that it may receive. An `Err` is why the session ends, if it does.
fn serve_frame<S: GroupStore, L: Begins, R: Wait + Eprint + Clock>(
    shift: &Shift<'_, S, L, R>,
    connection: &Connection,
    number: u8,
    seat: &mut Seat<L>,
    frame: Vec<u8>,
) -> Result<bool, Reason> {
    match heed(shift, seat, number, &frame) {
        Ok(upshot) => {
            let is_receiver = upshot.binds_receiver();
            match told(shift, connection, number, upshot) {
                Some(reason) => Err(reason),
                None => Ok(is_receiver),
            }
        }
        Err(trouble) => {
            shift.meet(trouble);
            Err(Reason::NoMemory)
        }
    }
}

/// Whether the session of a number may receive.
fn may_receive<S: GroupStore, L: Begins, R: Wait + Eprint + Clock>(
    shift: &Shift<'_, S, L, R>,
    number: u8,
) -> bool {
    let site = shift.station.site.lock(shift.rt);
    match site.service.sessions().get(&number) {
        Some(session) => session.state().may_receive(),
        None => false,
    }
}

/// Tells the operator what came of a PDU; why the session ends, if it does.
fn told<S: GroupStore, L: Begins, R: Wait + Eprint + Clock>(
    shift: &Shift<'_, S, L, R>,
    connection: &Connection,
    number: u8,
    upshot: Upshot,
) -> Option<Reason> {
    let Upshot {
        notice,
        is_gone,
        ..
    } = upshot;
    if let Some(notice) = notice {
        if let Notice::Bound(_, account, _) = &notice {
            connection.bind(shift.rt, *account);
        }
        shift.tell(number, notice);
    }
    is_gone.then_some(Reason::Unbound)
}

/// Why a session ends on which nothing more comes, for this reason: as the server ends, who read only saw an end.
fn ended<S: GroupStore, L: Begins, R: Wait + Eprint + Clock>(
    shift: &Shift<'_, S, L, R>,
    seat: &mut Seat<L>,
    number: u8,
    reason: Reason,
) -> Reason {
    match reason {
        Reason::Closed if shift.shared.house.is_over(shift.rt) => Reason::CentreEnds,
        Reason::WrongLength => {
            heed_wrong_length(shift, seat, number);
            Reason::WrongLength
        }
        other => other,
    }
}

/// The session is over.
pub(crate) fn end<S: GroupStore, L: Begins, R: Wait + Eprint + Clock>(
    shift: &Shift<'_, S, L, R>,
    number: u8,
    reason: Reason,
) {
    let whom = shift.station.site.lock(shift.rt).whom(shift.rt, number);
    if let Err(trouble) = leave(shift, number) {
        shift.meet(trouble);
    }
    shift.station.news.ring();
    shift.tell_of(number, Notice::Ended(reason), whom);
    shift.shared.house.count_end(shift.rt);
}

/// A session leaves: what waits for its account goes to others of it that have places.
fn leave<S: GroupStore, L: Begins, R: Wait + Eprint + Clock>(
    shift: &Shift<'_, S, L, R>,
    number: u8,
) -> Result<(), Trouble> {
    let mut guard = shift.station.site.lock(shift.rt);
    let site = &mut *guard;
    let place = site.lane_of(number);
    site.leave(shift.rt, number);
    shift.feed_at(site, place)
}
