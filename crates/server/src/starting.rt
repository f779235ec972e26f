//! The threads of a server, as they are started.

use crate::attending::{attend, end};
use crate::carrying::carry_on;
use crate::listening::listen_on;
use crate::living::live_on;
use crate::shared::Shared;
use crate::shift::Shift;
use crate::ticking::tick_on;
use crate::working::work;
use node_workers::Begins;
use serve_nodes::{Ending, House, Station};
use serve_sessions::{Arrival, Connection, Reason, WORKERS, read_all};
use serve_status::tell_on;
use stable_store::GroupStore;
use std::alloc::{AllocError, Global};
use std::rt::Clock;
use std::sync::{Arc, Wait};
use std::thread::{Scope, Threads};

// What follows goes on through all parts of the journal.

/// Starts the thread that writes the lines that an operator reads. If it can't be started, the server ends.
pub(crate) fn start_log<'o, O, R: Threads + Wait + Eprint + Clock + Sync>(
    rt: &'o R,
    outer: &'o Scope<'o, O>,
    house: &'o House,
) {
    match outer.spawn(move || house.log.write_all(rt)) {
        Ok(_) => {}
        Err(_) => house.end_by(rt, Ending::Threads),
    }
}

/// Starts the thread that tells of the server, if it is to. If it can't be started, the server ends.
pub(crate) fn start_status<'o, O, R: Threads + Wait + Eprint + Clock + Sync>(
    rt: &'o R,
    outer: &'o Scope<'o, O>,
    house: &'o House,
) {
    let Some(door) = &house.status_door else {
        return;
    };
    match outer.spawn(move || tell_on(rt, outer, house, door)) {
        Ok(_) => {}
        Err(_) => house.end_by(rt, Ending::Threads),
    }
}

/// Starts the threads in which the nodes listen. If one can't be started, the server ends.
pub(crate) fn start_listeners<'o, O, R: Threads + Wait + Eprint + Clock + Sync>(
    rt: &'o R,
    outer: &'o Scope<'o, O>,
    house: &'o House,
) {
    for station in &house.stations {
        start_listener(rt, outer, house, station);
    }
}

/// Starts the thread in which a node listens. If none can be started, the server ends.
fn start_listener<'o, O, R: Threads + Wait + Eprint + Clock + Sync>(
    rt: &'o R,
    outer: &'o Scope<'o, O>,
    house: &'o House,
    station: &'o Station,
) {
    match outer.spawn(move || listen_on(rt, outer, house, station)) {
        Ok(_) => {}
        Err(_) => house.end_by(rt, Ending::Threads),
    }
}

/// Starts the thread that reads a connection. An `Err` if none can be started.
pub(crate) fn start_reader<'o, O, R: Threads + Wait + Clock + Sync>(
    rt: &'o R,
    outer: &'o Scope<'o, O>,
    alloc: Global,
    connection: &Arc<Connection>,
) -> Result<(), AllocError> {
    let theirs = Arc::try_clone(connection)?;
    match outer.spawn(move || read_all(rt, alloc, &theirs)) {
        Ok(_) => Ok(()),
        Err(_) => Err(AllocError),
    }
}

/// Starts the thread that writes on a connection. An `Err` if none can be started.
pub(crate) fn start_writer<'o, O, R: Threads + Wait + Clock + Sync>(
    rt: &'o R,
    outer: &'o Scope<'o, O>,
    connection: &Arc<Connection>,
) -> Result<(), AllocError> {
    let theirs = Arc::try_clone(connection)?;
    match outer.spawn(move || theirs.write_all(rt)) {
        Ok(_) => Ok(()),
        Err(_) => Err(AllocError),
    }
}

// What follows goes on in one part of the journal, or in one life of a node.

/// Starts the thread of each node. If one can't be started, the server ends.
pub(crate) fn start_nodes<
    's,
    E,
    S: GroupStore + Send + Sync,
    L: Begins + Send + Sync,
    R: Threads + Wait + Eprint + Clock + Sync,
>(rt: &'s R, scope: &'s Scope<'s, E>, shared: &'s Shared<S, L>) {
    for station in &shared.house.stations {
        start_node(rt, scope, shared, station);
    }
}

/// Starts the thread of a node. If none can be started, the server ends.
fn start_node<
    's,
    E,
    S: GroupStore + Send + Sync,
    L: Begins + Send + Sync,
    R: Threads + Wait + Eprint + Clock + Sync,
>(rt: &'s R, scope: &'s Scope<'s, E>, shared: &'s Shared<S, L>, station: &'s Station) {
    match scope.spawn(move || live_on(rt, shared, station)) {
        Ok(_) => {}
        Err(_) => shared.house.end_by(rt, Ending::Threads),
    }
}

/// Starts the thread that ticks. If none can be started, the server ends.
pub(crate) fn start_ticks<
    's,
    E,
    S: GroupStore + Send + Sync,
    L: Begins + Send + Sync,
    R: Threads + Wait + Eprint + Clock + Sync,
>(shift: &Shift<'s, S, L, R>, scope: &'s Scope<'s, E>) {
    let (rt, shared) = (shift.rt, shift.shared);
    let (station, life) = (shift.station, shift.life);
    match scope.spawn(move || tick_on(&Shift {
        rt,
        shared,
        station,
        life,
    })) {
        Ok(_) => {}
        Err(_) => shift.shared.house.end_by(shift.rt, Ending::Threads),
    }
}

/// Starts the thread that hands in packets. If none can be started, the server ends.
pub(crate) fn start_packets<
    's,
    E,
    S: GroupStore + Send + Sync,
    L: Begins + Send + Sync,
    R: Threads + Wait + Eprint + Clock + Sync,
>(shift: &Shift<'s, S, L, R>, scope: &'s Scope<'s, E>) {
    let (rt, shared) = (shift.rt, shift.shared);
    let (station, life) = (shift.station, shift.life);
    match scope.spawn(move || carry_on(&Shift {
        rt,
        shared,
        station,
        life,
    })) {
        Ok(_) => {}
        Err(_) => shift.shared.house.end_by(shift.rt, Ending::Threads),
    }
}

/// Starts the thread that serves the session of a connection. If none can be started, the session ends.
pub(crate) fn start_attendant<
    's,
    E,
    S: GroupStore + Send + Sync,
    L: Begins + Send + Sync,
    R: Threads + Wait + Eprint + Clock + Sync,
>(shift: &Shift<'s, S, L, R>, scope: &'s Scope<'s, E>, arrival: Arrival) {
    let (rt, shared) = (shift.rt, shift.shared);
    let (station, life) = (shift.station, shift.life);
    let number = arrival.number;
    match scope.spawn(move || {
        attend(
            &Shift {
                rt,
                shared,
                station,
                life,
            },
            scope,
            &arrival,
        )
    }) {
        Ok(_) => {}
        Err(_) => end(shift, number, Reason::NoThread),
    }
}

/// Starts the workers of a session, which deliver over its connection. An `Err` if one can't be started.
pub(crate) fn start_workers<
    's,
    E,
    S: GroupStore + Send + Sync,
    L: Begins + Send + Sync,
    R: Threads + Wait + Eprint + Clock + Sync,
>(
    shift: &Shift<'s, S, L, R>,
    scope: &'s Scope<'s, E>,
    arrival: &Arrival,
) -> Result<(), AllocError> {
    for place in 0..WORKERS {
        start_worker(shift, scope, arrival, place)?;
    }
    Ok(())
}

/// Starts the worker of a place of a session's connection. An `Err` if none can be started.
fn start_worker<
    's,
    E,
    S: GroupStore + Send + Sync,
    L: Begins + Send + Sync,
    R: Threads + Wait + Eprint + Clock + Sync,
>(
    shift: &Shift<'s, S, L, R>,
    scope: &'s Scope<'s, E>,
    arrival: &Arrival,
    place: usize,
) -> Result<(), AllocError> {
    let theirs = Arrival {
        connection: Arc::try_clone(&arrival.connection)?,
        number: arrival.number,
    };
    let (rt, shared) = (shift.rt, shift.shared);
    let (station, life) = (shift.station, shift.life);
    match scope.spawn(move || work(
        &Shift {
            rt,
            shared,
            station,
            life,
        },
        &theirs,
        place,
    )) {
        Ok(_) => Ok(()),
        Err(_) => Err(AllocError),
    }
}
