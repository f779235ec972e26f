//! The workers of a connection.

ghost use Rattle.std.specs.Prelude.{◌≡◌};

use crate::shift::{Shift, ring};
use crate::trouble::Trouble;
use connection_parts::Job;
use node_workers::{Begins, Heard, Home, Seat, tried};
use serve_sessions::{Arrival, Berth, BerthGate, Connection, Reason};
use stable_store::GroupStore;
use std::rt::Clock;
use std::sync::Wait;

/// Makes the deliveries that are given to this place of a session's connection, until it is shut, or workers rest. If there is no memory for a seat, the
/// connection is lost: its session would be chosen for deliveries that nobody makes.
pub(crate) fn work<S: GroupStore, L: Begins, R: Wait + Eprint + Clock>(
    shift: &Shift<'_, S, L, R>,
    arrival: &Arrival,
    place: usize,
) {
    let connection = &arrival.connection;
    let Some(berth) = connection.berth(place) else {
        return;
    };
    let Some(mut seat) = shift.seat() else {
        shift.meet(Trouble::Memory);
        connection.lose(shift.rt, Reason::NoMemory);
        return;
    };
    berth.start(shift.rt);
    if let Err(trouble) = feed(shift, arrival.number) {
        shift.meet(trouble);
    }
    for _ in shift.rt.forever() {
        let Some(job) = connection.next_job(shift.rt, place) else {
            break;
        };
        if let Err(trouble) = deliver(shift, connection, berth, &mut seat, &job) {
            shift.meet(trouble);
        }
    }
    shift.give_back(seat);
}

/// What waits for the account of a session may be delivered, since it has another worker.
fn feed<S: GroupStore, L: Begins, R: Wait + Eprint + Clock>(
    shift: &Shift<'_, S, L, R>,
    number: u8,
) -> Result<(), Trouble> {
    let mut guard = shift.station.site.lock(shift.rt);
    let site = &mut *guard;
    shift.feed_session(site, number)
}

/// Makes a delivery: has its attempt granted, carries it to the ESME, and hands in what came of it. Its place is free then.
fn deliver<'x, S: GroupStore, L: Begins, R: Wait + Eprint + Clock>(
    shift: &Shift<'_, S, L, R>,
    connection: &'x Connection,
    berth: &'x Berth,
    seat: &mut Seat<L>,
    job: &Job,
) -> Result<(), Trouble> {
    let mut gate = BerthGate::over(shift.shared.house.alloc, connection, berth, *job);
    let home = Home {
        cluster: &shift.shared.cluster,
        life: shift.life,
    };
    let tried = tried(shift.rt, &home, seat, &mut gate, heard_in(job));
    let is_sent = gate.has_sent();
    berth.end(shift.rt);
    let fed = free(shift, connection, job, is_sent);
    if tried? {
        ring_last(shift, seat);
    }
    fed
}

/// Of which attempt a worker hears by a delivery: its octets have the sequence_number with which it was pushed.
fn heard_in(job: &Job) -> Heard
    ensures id { result.id ≡ job.now.slot.id }
    ensures sequence { result.sequence ≡ job.now.pushed.sequence }
{
    let slot = job.slot;
    Heard {
        id: slot.id,
        sequence: job.pushed.sequence(),
    }
}

/// The place of a delivery on its session is free: others may be made, and the node ticks at once if it is to begin more.
fn free<S: GroupStore, L: Begins, R: Wait + Eprint + Clock>(
    shift: &Shift<'_, S, L, R>,
    connection: &Connection,
    job: &Job,
    is_sent: bool,
) -> Result<(), Trouble> {
    let mut guard = shift.station.site.lock(shift.rt);
    let site = &mut *guard;
    site.delivered(connection, job, is_sent);
    let fed = shift.feed_session(site, job.pushed.number());
    let is_hungry = site.is_hungry(job.pushed.number());
    drop(guard);
    if is_hungry {
        shift.station.bell.call(0);
    }
    fed
}

/// The packets that the last step of a seat sent are handed in to all nodes.
fn ring_last<S: GroupStore, L: Begins, R: Wait + Eprint + Clock>(
    shift: &Shift<'_, S, L, R>,
    seat: &Seat<L>,
) {
    if let Some(slip) = seat.slips().last() {
        ring(shift.rt, &shift.shared.house, slip);
    }
}
