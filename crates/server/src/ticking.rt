//! The ticks of a node.

use crate::shift::{FEW_LOOKS, Shift, ring};
use crate::trouble::Trouble;
use node_workers::{Action, Begins, Seat};
use serve_nodes::{Beat, Ending, Need, Site};
use serve_sessions::Mark;
use stable_store::GroupStore;
use std::rt::Clock;
use std::sync::Wait;
use std::sync::atomic::Ordering;
use waiting_messages::Naming;

/// How long a node waits between two ticks if nothing is due, in milliseconds.
const SECOND: u64 = 1_000;

/// How long behind each other it is looked whether a node is at rest that is to start anew, in milliseconds.
const QUIET_LOOK: u64 = 20;

/// For how long it is waited that the nodes below begin, in milliseconds: for ten minutes.
const BELOW_PATIENCE: u64 = 600_000;

/// For how long no packet comes before rounds are given up, in milliseconds.
const MOST_SILENCE: u64 = 5_000;

/// How long it is waited for a packet before it is looked whether others came, in milliseconds.
const SILENCE: u64 = 500;

/// Sees to the first tick of a life: before it the clock of a node stands at its least moment, so nobody is served before. As the server begins, it comes once
/// those of the nodes below are through, and its own rounds are waited for, also in another part of the journal; a node that starts anew is served meanwhile.
pub(crate) fn tick_first<S: GroupStore, L: Begins, R: Wait + Eprint + Clock>(
    shift: &Shift<'_, S, L, R>,
) {
    let station = shift.station;
    if station.course_now(shift.rt).serves() {
        return;
    }
    if !station.course_now(shift.rt).has_ticked() {
        tick_once(shift);
    }
    if station.course_now(shift.rt).is_anew() {
        shift.tell_node("its first tick is under way; it serves");
    } else {
        wait_for_rounds(shift);
    }
    begin(shift);
}

/// The node may be served, unless its first tick is still to come, or its rounds are waited for in the next part of the journal.
fn begin<S: GroupStore, L: Begins, R: Wait + Eprint + Clock>(shift: &Shift<'_, S, L, R>) {
    let begins = !shift.is_over() && shift.station.course.lock(shift.rt).serve();
    if begins {
        shift.shared.house.tell_nodes();
        shift.shared.house.tell_serving(shift.rt);
    }
}

/// Hands in the first tick of a life, once those of the nodes below are through.
fn tick_once<S: GroupStore, L: Begins, R: Wait + Eprint + Clock>(shift: &Shift<'_, S, L, R>) {
    let Some(mut seat) = shift.seat() else {
        shift.shared.house.end_by(shift.rt, Ending::Threads);
        return;
    };
    let house = &shift.shared.house;
    let _ = shift.station.news.wait_until(
        shift.rt,
        BELOW_PATIENCE,
        &|| shift.is_over() || house.have_begun(shift.rt, shift.node()),
    );
    if !shift.is_over()
        && let Err(trouble) = tick(shift, &mut seat, false)
    {
        shift.meet(trouble);
    }
    shift.give_back(seat);
}

/// Hands in a tick each second until the life of the node is over, and one at once if something is due; but each one ends all rounds, so the next one waits until
/// those are through that the last one began, also in another part of the journal, unless no packet comes any more.
pub(crate) fn tick_on<S: GroupStore, L: Begins, R: Wait + Eprint + Clock>(
    shift: &Shift<'_, S, L, R>,
) {
    let Some(mut seat) = shift.seat() else {
        shift.shared.house.end_by(shift.rt, Ending::Threads);
        return;
    };
    let mut beat = Beat::begin(shift.rt);
    for _ in shift.rt.forever() {
        wait_for_rounds(shift);
        shift.station.gauge.pass(beat.pass(shift.rt));
        wait_for_turn(shift, &beat);
        if shift.is_over() {
            break;
        }
        let begins_look = beat.tick(shift.rt);
        if let Err(trouble) = tick(shift, &mut seat, begins_look) {
            shift.meet(trouble);
        }
        begin(shift);
    }
    shift.give_back(seat);
}

/// Waits until the node is to tick: at once if something is due, and the last tick is long enough ago, else for a second, or until the life is over.
fn wait_for_turn<S: GroupStore, L: Begins, R: Wait + Eprint + Clock>(
    shift: &Shift<'_, S, L, R>,
    beat: &Beat,
) {
    let station = shift.station;
    let begun = Mark::now(shift.rt);
    for _ in shift.rt.forever() {
        let is_held = start_anew_if_low(shift);
        let left = begun.left(shift.rt, SECOND);
        if shift.is_over() || left == 0 {
            break;
        }
        let is_due = station.bell.is_due(station.next.load(Ordering::SeqCst));
        let gap = match (is_held, is_due) {
            (true, _) => QUIET_LOOK,
            (false, true) => beat.left(shift.rt),
            (false, false) => left,
        };
        if gap == 0 {
            break;
        }
        station.bell.wait(shift.rt, gap.min(left));
    }
}

/// Has a node start anew that has few message_ids left, once nothing waits there and all packets have come, or after thirty seconds: a receipt whose round runs
/// then may be lost. So that it comes to rest it begins no attempts for two seconds; whether it begins none now.
fn start_anew_if_low<S: GroupStore, L: Begins, R: Wait + Eprint + Clock>(
    shift: &Shift<'_, S, L, R>,
) -> bool {
    if !shift.has_few_serials() || shift.is_over() {
        return false;
    }
    let mut site = shift.station.site.lock(shift.rt);
    let waits_no_more = site.has_few(shift.rt);
    let is_busy = site.is_busy();
    let is_held = site.is_held();
    drop(site);
    let house = &shift.shared.house;
    if (!is_busy && house.have_come(house.newest())) || waits_no_more {
        shift.station.need(shift.rt, Need::Serials);
    }
    is_held
}

/// Waits until the rounds are through that the last tick began, as long as packets come. If the life is over before, they are waited for in the next part.
fn wait_for_rounds<S: GroupStore, L: Begins, R: Wait + Eprint + Clock>(shift: &Shift<'_, S, L, R>) {
    let house = &shift.shared.house;
    let station = shift.station;
    let mut told = Mark::now(shift.rt);
    let mut come = house.come();
    let mut silent = told;
    for _ in shift.rt.forever() {
        let Some(awaited) = station.rounds.awaited() else {
            break;
        };
        if shift.is_over() {
            return;
        }
        if house.have_come(awaited) {
            station.rounds.pass(house.newest());
            silent = Mark::now(shift.rt);
            continue;
        }
        station.bell.wait(shift.rt, SILENCE);
        told = tell_progress(shift, told);
        let now = house.come();
        if now != come {
            come = now;
            silent = Mark::now(shift.rt);
        } else if silent.is_past(shift.rt, MOST_SILENCE) {
            station.rounds.give_up();
        }
    }
    if station.course.lock(shift.rt).settle() {
        shift.tell_node("through with its first tick");
    }
}

/// How long behind each other an operator is told how many packets have come, in milliseconds.
const TOLD_GAP: u64 = 5_000;

/// The rounds of a node are not through: each five seconds an operator is told how far they are, if it is not served before that. When that was told last, if it
/// was told so far then.
fn tell_progress<S: GroupStore, L: Begins, R: Wait + Eprint + Clock>(
    shift: &Shift<'_, S, L, R>,
    told: Mark,
) -> Mark {
    if !told.is_past(shift.rt, TOLD_GAP) {
        return told;
    }
    if !shift.station.course_now(shift.rt).serves() {
        let house = &shift.shared.house;
        let node = shift.node().number();
        let come = house.first_left().saturating_sub(1);
        let sent = house.newest();
        house.log.line(
            shift.rt,
            format_args!("node {node}: not served yet: {come} of {sent} packets have come"),
        );
    }
    Mark::now(shift.rt)
}

/// Hands in a tick: what it gives out goes out, what was pushed and waits too long is given up, and what waits for a worker is delivered. A look at all that may
/// be granted begins with it, or goes on.
fn tick<S: GroupStore, L: Begins, R: Wait + Eprint + Clock>(
    shift: &Shift<'_, S, L, R>,
    seat: &mut Seat<L>,
    begins_look: bool,
) -> Result<(), Trouble> {
    let next = shift.station.next.load(Ordering::SeqCst);
    shift.station.bell.tick(next);
    let moment = shift.shared.house.now(shift.rt);
    let spread = shift.shared.house.spread(shift.rt)?;
    let node = shift.node();
    let mut guard = shift.station.site.lock(shift.rt);
    let site = &mut *guard;
    let own = shift.shared.house.own;
    let naming = Naming {
        node,
        now: moment,
        spread: &spread,
    };
    let reach = site.reach(&naming, own.linger_seconds)?;
    let tick = Action::Tick {
        node,
        moment,
        reach,
    };
    let slip = shift.shared.cluster.act(shift.rt, seat, tick)?;
    ring(shift.rt, &shift.shared.house, &slip);
    shift.station.course.lock(shift.rt).tick();
    shift.station.rounds.begin(shift.shared.house.newest());
    site.pass(moment);
    site.tell(shift.rt, slip.outputs())?;
    drop(slip);
    tidy(shift, site)?;
    shift.feed(site)?;
    if begins_look || site.fed().is_some() {
        shift.look(site, FEW_LOOKS)?;
    }
    Ok(())
}

/// What was pushed and waits too long is given up, those are lost who do not bind in time, and what stands at the site is told from now on.
fn tidy<S: GroupStore, L: Begins, R: Wait + Eprint + Clock>(
    shift: &Shift<'_, S, L, R>,
    site: &mut Site,
) -> Result<(), Trouble> {
    site.make_room(shift.rt)?;
    let seconds = shift.shared.house.own.bind_seconds;
    if seconds > 0 {
        site.lose_unbound(shift.rt, seconds);
    }
    let status = site.status(shift.node().number());
    shift.station.gauge.show(shift.rt, status);
    Ok(())
}
