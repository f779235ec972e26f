//! A node of the server, in one life after another.

use crate::shared::Shared;
use crate::shift::{ALL_LOOKS, Shift, ring};
use crate::starting::{start_attendant, start_packets, start_ticks};
use crate::ticking::tick_first;
use mc_types::MsgId;
use node_workers::{Begins, Life, Refusal};
use serve_nodes::{Course, Ending, House, Need, Station, Wake};
use serve_sessions::Reason;
use stable_store::GroupStore;
use std::rt::Clock;
use std::sync::Wait;
use std::thread;
use std::thread::{Scope, Threads};

/// For how long it is waited that all sessions of a node end, before they are cut, and for how long by a node that found no memory for its start anew, in
/// milliseconds.
const PATIENCE: u64 = 1_000;

/// How long behind the last time it is looked at the latest whether somebody connected, in milliseconds: so a connection for which there was no memory is served.
const LOOK_GAP: u64 = 1_000;

/// Runs a node in one life after another, until the part of the journal is over or the server ends.
pub(crate) fn live_on<
    S: GroupStore + Send + Sync,
    L: Begins + Send + Sync,
    R: Threads + Wait + Eprint + Clock + Sync,
>(rt: &R, shared: &Shared<S, L>, station: &Station) {
    let mut life = station.life.lock(rt).take();
    for _ in rt.forever() {
        let Some(now) = life else {
            return;
        };
        live(rt, shared, station, &now);
        life = after(rt, shared, station, now);
    }
}

/// The life of a node behind this one, if it has another in this part of the journal. If the part is over, the life goes on in the next one.
fn after<S: GroupStore, L: Begins, R: Wait + Eprint + Clock>(
    rt: &R,
    shared: &Shared<S, L>,
    station: &Station,
    life: Life,
) -> Option<Life> {
    if shared.house.pace.rests() || shared.house.is_over(rt) {
        keep(rt, station, life);
        return None;
    }
    next_life(rt, shared, station, life)
}

/// The life of a node is kept for the next part of the journal.
fn keep<R: Wait>(rt: &R, station: &Station, life: Life) {
    let mut place = station.life.lock(rt);
    drop(place.replace(life));
}

/// Runs a node in one of its lives, until it is to start anew, the part of the journal is over, or the server ends.
fn live<
    S: GroupStore + Send + Sync,
    L: Begins + Send + Sync,
    R: Threads + Wait + Eprint + Clock + Sync,
>(rt: &R, shared: &Shared<S, L>, station: &Station, life: &Life) {
    station.site.lock(rt).go_on();
    station.gauge.live(life.incarnation().number());
    thread::scope(thread::scope_env(), rt, |scope| {
        let shift = Shift {
            rt,
            shared,
            station,
            life,
        };
        start_packets(&shift, scope);
        tick_first(&shift);
        start_ticks(&shift, scope);
        look_first(&shift);
        attend_all(&shift, scope);
        end_life(&shift);
    });
}

/// Has sessions served that nobody serves yet, once the node may be served, until the life is over.
fn attend_all<
    's,
    E,
    S: GroupStore + Send + Sync,
    L: Begins + Send + Sync,
    R: Threads + Wait + Eprint + Clock + Sync,
>(shift: &Shift<'s, S, L, R>, scope: &'s Scope<'s, E>) {
    for _ in shift.rt.forever() {
        if shift.is_over() {
            return;
        }
        if shift.station.course_now(shift.rt).serves() {
            start_attendants(shift, scope);
        }
        shift.station.news.wait(shift.rt, LOOK_GAP);
    }
}

/// All that may be granted as the life begins is looked at: it is delivered once workers are there.
fn look_first<S: GroupStore, L: Begins, R: Wait + Eprint + Clock>(shift: &Shift<'_, S, L, R>) {
    let mut guard = shift.station.site.lock(shift.rt);
    let site = &mut *guard;
    site.feed_from(None);
    if let Err(trouble) = shift.look(site, ALL_LOOKS) {
        shift.meet(trouble);
    }
}

/// Starts the threads that serve those sessions that nobody serves yet.
fn start_attendants<
    's,
    E,
    S: GroupStore + Send + Sync,
    L: Begins + Send + Sync,
    R: Threads + Wait + Eprint + Clock + Sync,
>(shift: &Shift<'s, S, L, R>, scope: &'s Scope<'s, E>) {
    let unattended = shift.station.site.lock(shift.rt).unattended();
    let Ok(arrivals) = unattended else {
        shift.shared.house.end_by(shift.rt, Ending::Threads);
        return;
    };
    for arrival in arrivals {
        start_attendant(shift, scope, arrival);
    }
}

/// The life is over. If the server ends, sessions read their end, what waits on them goes out for a second, and then they are cut. Else who serves them rests,
/// and what is delivered gets no answer any more.
fn end_life<S: GroupStore, L: Begins, R: Wait + Eprint + Clock>(shift: &Shift<'_, S, L, R>) {
    if shift.shared.house.is_over(shift.rt) {
        end_sessions(shift);
    } else {
        let site = shift.station.site.lock(shift.rt);
        let given_up = site.give_up_all(shift.rt);
        shift.shared.house.pace.count_cut(given_up);
        site.rest(shift.rt);
    }
    shift.station.wake(shift.rt, Wake::End);
}

fn end_sessions<S: GroupStore, L: Begins, R: Wait + Eprint + Clock>(shift: &Shift<'_, S, L, R>) {
    let station = shift.station;
    station.site.lock(shift.rt).stop_reading();
    let _ = station.news.wait_until(
        shift.rt,
        PATIENCE,
        &|| station.site.lock(shift.rt).is_empty(),
    );
    shift
        .station
        .site
        .lock(shift.rt)
        .lose_all(shift.rt, Reason::CentreEnds);
}

/// How a start anew ended.
#[derive(Drop)]
enum Started {
    /// The node's next life.
    Begun(Life),
    /// There was no memory for it: the node's life is still this one.
    Wanting(Life),
    /// It was refused: the server ends, or the part of the journal does.
    Refused,
}

/// Starts a node anew: its next life. If there is no memory for that, it is tried again a second later, and nobody is served meanwhile. None if it is refused,
/// or if the server or the part of the journal ends before.
fn next_life<S: GroupStore, L: Begins, R: Wait + Eprint + Clock>(
    rt: &R,
    shared: &Shared<S, L>,
    station: &Station,
    life: Life,
) -> Option<Life> {
    tell_anew(rt, &shared.house, station);
    let mut now = life;
    for _ in rt.forever() {
        now = match start_anew(rt, shared, station, now) {
            Started::Begun(next) => return Some(next),
            Started::Wanting(same) => same,
            Started::Refused => return None,
        };
        shared.house.want();
        if !waits(rt, &shared.house, station) {
            break;
        }
    }
    keep(rt, station, now);
    None
}

/// Tells the operator why a node starts anew.
fn tell_anew<R: Wait + Eprint + Clock>(rt: &R, house: &House, station: &Station) {
    let number = station.node.number();
    if station.course_now(rt).wanted() == Some(Need::Store) {
        house.log.must_tell(
            rt,
            format_args!("node {number}: its store failed; it starts anew"),
        );
    } else {
        house.log.line(
            rt,
            format_args!("node {number}: it has few message_ids left; it starts anew"),
        );
    }
}

/// Waits for a second; whether the server and the part of the journal still go on.
fn waits<R: Wait + Clock>(rt: &R, house: &House, station: &Station) -> bool {
    !station
        .news
        .wait_until(rt, PATIENCE, &|| house.pace.rests() || house.is_over(rt))
}

/// Starts a node anew.
fn start_anew<S: GroupStore, L: Begins, R: Wait + Eprint + Clock>(
    rt: &R,
    shared: &Shared<S, L>,
    station: &Station,
    life: Life,
) -> Started {
    let Some(mut seat) = shared.seats.take(rt, &shared.cluster) else {
        return Started::Wanting(life);
    };
    let started = shared.cluster.restart(rt, &mut seat, life);
    shared.seats.give_back(rt, seat);
    match started {
        Ok((slip, life)) => {
            ring(rt, &shared.house, &slip);
            drop(slip);
            begin_anew(rt, shared, station, &life);
            Started::Begun(life)
        }
        Err((Refusal::Memory, life)) => Started::Wanting(life),
        Err((refusal, life)) => {
            refuse_anew(rt, &shared.house, station, refusal);
            keep(rt, station, life);
            Started::Refused
        }
    }
}

/// A node started anew in this life: its requests that waited are answered, since it knows nothing of them now.
fn begin_anew<S: GroupStore, L: Begins, R: Wait + Eprint + Clock>(
    rt: &R,
    shared: &Shared<S, L>,
    station: &Station,
    life: &Life,
) {
    let number = station.node.number();
    let incarnation = life.incarnation();
    shared.house.log.must_tell(
        rt,
        format_args!(
            "node {number}: started anew, incarnation {}",
            incarnation.number()
        ),
    );
    let mut site = station.site.lock(rt);
    site.lanes.clear();
    site.has_many();
    if let Ok(id) = MsgId::make(station.node, incarnation, 1) {
        site.refuse_waiting(rt, id);
    }
    drop(site);
    let mut course = station.course.lock(rt);
    *course = Course::anew();
}

/// A node can't be started anew. If that is since the journal is full, it is tried again in the next part; else the server ends.
fn refuse_anew<R: Wait>(rt: &R, house: &House, station: &Station, refusal: Refusal) {
    match refusal {
        Refusal::Full if house.pace.goes_on() => house.rest(),
        Refusal::Full => house.end_by(rt, Ending::Full),
        Refusal::Spent => house.end_by(rt, Ending::Spent(station.node)),
        _ => house.end_by(rt, Ending::Lost(station.node)),
    }
}
