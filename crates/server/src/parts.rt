//! A server in one part of its journal after another.

ghost use Rattle.std.specs.Prelude.{◌≡◌, ℕ, IfSome, false};
ghost use Rattle.node_workers.specs.Closing.{IsClosed};
ghost use Rattle.node_workers.specs.GoingOn.{AreSound, GoesOn};
ghost use Rattle.node_workers.specs.Histories.{ClosesParts};

use crate::seat_pool::SeatPool;
use crate::serving::Served;
use crate::shared::Shared;
use crate::starting::start_nodes;
use node_workers::{Begins, Cluster, Journal, MOST_SEATS, Past, Seat, closed_journals_go_on};
use serve_nodes::{Ending, House};
use serve_sessions::{Mark, milliseconds, milliseconds_since};
use stable_store::GroupStore;
use std::marker::Brand;
use std::rt::Clock;
use std::sync::ledger::Blank;
use std::sync::{Arc, Wait};
use std::thread;
use std::thread::Threads;

/// With what another part begins: a ledger of slips, and the journal of the last part.
#[derive(Drop)]
struct Next<S: GroupStore> {
    blank: Blank,
    journal: Journal<S>,
}

/// Serves in one part of the journal after another, until the server ends: how it did, and the journal of the last part.
pub(crate) fn serve_parts<
    S: GroupStore + Send + Sync + Drop,
    L: Begins + Send + Sync,
    R: Threads + Wait + Eprint + Clock + Sync,
>(rt: &R, house: &Arc<House>, cluster: Cluster<S, L>) -> Served<S>
    ensures { IfSome result.journal (λ journal. (parts : ℕ) × ClosesParts S.stored L.cluster L.kept L.numbers parts journal) }
{
    let mut last = part(rt, house, cluster, None);
    for _ in rt.forever() {
        let Some(journal) = last else {
            break;
        };
        if is_last(rt, house, &journal) {
            return served(rt, house, Some(journal));
        }
        closed_journals_go_on::<S>();
        let next = Next {
            blank: Blank::new(MOST_SEATS),
            journal,
        };
        last = next_part::<S, Brand, R>(rt, house, next);
    }
    served(rt, house, None)
}

/// How the server ended, with this journal of its last part.
fn served<S: GroupStore, R: Wait>(rt: &R, house: &House, journal: Option<Journal<S>>) -> Served<S>
    ensures { result.journal ≡ journal }
{
    Served {
        ending: house.ending(rt),
        parts: house.counters.parts(),
        entries: house.counters.all_entries(),
        journal,
    }
}

/// Whether the part of this journal is the last: the server ends, or a node is astray, whose start anew was refused. The part is counted.
fn is_last<S: GroupStore, R: Wait>(rt: &R, house: &House, journal: &Journal<S>) -> bool
    ensures { result ≡ false → AreSound journal.now.posts }
{
    house.counters.close_part(journal.len() as u64);
    if !journal.is_sound() {
        return true;
    }
    house.is_over(rt)
}

/// The journal of a part that goes on where another was closed. None if it can't be closed, or there is no memory for it.
fn next_part<
    S: GroupStore + Send + Sync + Drop,
    L: Begins + Send + Sync,
    R: Threads + Wait + Eprint + Clock + Sync,
>(rt: &R, house: &Arc<House>, next: Next<S>) -> Option<Journal<S>>
    requires name { next.blank.name ≡ L.name }
    requires parts { (next.blank.parts ≡ L.parts) × (next.blank.parts ≡ 1000000) }
    requires goes { GoesOn S.stored L.cluster L.kept L.numbers next.journal }
    ensures { IfSome result (λ journal. IsClosed S.stored L.cluster L.kept L.numbers journal) }
{
    let Next { blank, journal } = next;
    let from = house.first_left();
    match Cluster::<S, L>::go_on_apart(house.alloc, blank, journal, from) {
        Ok((cluster, past)) => {
            house.tell_part(rt, milliseconds(rt));
            part(rt, house, cluster, Some(past))
        }
        Err(journal) => {
            drop(journal);
            house.end_by(rt, Ending::NoPart);
            None
        }
    }
}

/// The journal of a part, behind all that its threads did, while one of them lets the part before go. None if it can't be closed.
fn part<
    S: GroupStore + Send + Sync + Drop,
    L: Begins + Send + Sync,
    R: Threads + Wait + Eprint + Clock + Sync,
>(rt: &R, house: &Arc<House>, cluster: Cluster<S, L>, past: Option<Past>) -> Option<Journal<S>>
    ensures { IfSome result (λ journal. IsClosed S.stored L.cluster L.kept L.numbers journal) }
{
    let seats = SeatPool::none(house.alloc);
    let Ok(theirs) = Arc::try_clone(house) else {
        drop(past);
        house.end_by(rt, Ending::NoPart);
        return closed(cluster, seats.into_seats());
    };
    let shared = Shared {
        house: theirs,
        cluster,
        seats,
    };
    run(rt, &shared, past);
    let Shared { cluster, seats, .. } = shared;
    closed(cluster, seats.into_seats())
}

/// The journal of a cluster whose threads have ended, with all its seats. None if it can't be closed.
fn closed<S: GroupStore + Drop, L: Begins>(
    cluster: Cluster<S, L>,
    seats: Vec<Seat<L>>,
) -> Option<Journal<S>>
    ensures { IfSome result (λ journal. IsClosed S.stored L.cluster L.kept L.numbers journal) }
{
    match cluster.close(seats) {
        Ok(journal) => Some(journal),
        Err(out) => {
            drop(out);
            None
        }
    }
}

/// Runs the nodes until the part is over, or the server ends. A thread lets go of the part before, which takes a while for each of its entries; if it can't be
/// started, it is let go here.
fn run<
    S: GroupStore + Send + Sync,
    L: Begins + Send + Sync,
    R: Threads + Wait + Eprint + Clock + Sync,
>(rt: &R, shared: &Shared<S, L>, past: Option<Past>) {
    thread::scope(thread::scope_env(), rt, move |scope| {
        start_nodes(rt, scope, shared);
        let _ = scope.spawn(move || drop(past));
        watch(rt, shared);
    });
}

/// How often it is looked whether the last deliveries of a part are through, in milliseconds.
const LOOK: u64 = 10;

/// How long behind each other the operator is told of want of memory, in milliseconds.
const WANT_GAP: u64 = 1_000;

/// How long behind each other the operator is told counts, in milliseconds.
const COUNTS_GAP: u64 = 60_000;

/// Waits for the end of the part, or of the server, and tells counts each minute, and want of memory each second.
fn watch<S: GroupStore, L: Begins, R: Wait + Eprint + Clock>(rt: &R, shared: &Shared<S, L>) {
    let house = &shared.house;
    let mut told = Mark::now(rt);
    for _ in rt.forever() {
        if house.stop.is_asked() {
            house.end_by(rt, Ending::Asked);
        }
        house.keep_pace(rt);
        if house.pace.rests() || house.is_over(rt) {
            break;
        }
        let most = if house.pace.holds() { LOOK } else { WANT_GAP };
        house.stop.signal.wait(rt, most);
        if told.is_past(rt, WANT_GAP) {
            told = Mark::now(rt);
            tell(rt, house);
        }
    }
    house.tell_wants(rt);
    house.pace.stand_since(milliseconds(rt));
}

/// Tells want of memory, and counts, if they were told a minute ago.
fn tell<R: Wait + Eprint + Clock>(rt: &R, house: &House) {
    house.tell_wants(rt);
    if house
        .counters
        .are_due(milliseconds_since(rt, &house.begun), COUNTS_GAP)
    {
        house.tell_counts(rt);
    }
}
