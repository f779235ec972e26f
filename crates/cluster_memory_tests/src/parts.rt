//! A journal of one node that is closed and goes on.

ghost use Rattle.std.specs.Prelude.{◌≡◌, None, IfErr, IfSome};
ghost use Rattle.mc_model.specs.message.Ids.{IsNode};
ghost use Rattle.stable_store.specs.Stored.{stored_in};
ghost use Rattle.journal_parts.specs.Closing.{IsClosed};
ghost use Rattle.journal_parts.specs.GoingOn.{GoesOn};
ghost use Rattle.journal_parts.specs.Members.{IsBeginning};
ghost use Rattle.journal_parts.specs.Numbers.{none_sent};
ghost use Rattle.node_core.specs.Setups.{IsSetup};

use crate::calls::{asked, settled};
use crate::openings::{First, PARTS, TRIES, one_place, opened, started};
use crate::same::assert_same;
use node_threads::{Begins, Cluster, Journal, Seat, closed_journals_go_on};
use stable_store::ListStore;
use std::alloc::Global;
use std::marker::Brand;
use std::process::Abort;
use std::sync::Wait;
use std::sync::ledger::Blank;

/// What the second part goes on with.
#[derive(Drop)]
struct Next {
    blank: Blank,
    journal: Journal<ListStore>,
}

/// The journal of a cluster with one seat, as it closes. There is room for the list of seats, so that memory is taken by the close alone, if at all.
fn closed<L: Begins>(
    rt: &impl Abort,
    cluster: Cluster<ListStore, L>,
    room: Vec<Seat<L>>,
    seat: Seat<L>,
) -> Journal<ListStore>
    ensures { IsClosed (λ list. stored_in list 0) L.cluster L.kept L.numbers result }
{
    let mut seats = room;
    seats.push(seat).expect(rt, "room");
    match cluster.close(seats) {
        Ok(journal) => journal,
        Err(_) => panic!(rt; "no seat is missing"),
    }
}

/// Hands in the submit_sm of a message, which is taken.
fn submitted<L: Begins, R: Wait + Abort>(
    rt: &R,
    alloc: Global,
    cluster: &Cluster<ListStore, L>,
    seat: &mut Seat<L>,
) {
    let _waits = asked(rt, alloc, cluster, seat, "submit_with_receipt");
    assert_same(rt, &settled(rt, cluster, seat, 1), &5);
}

/// A message is taken, and the cluster closed.
fn taken_and_closed<L: Begins, R: Wait + Abort>(
    rt: &R,
    alloc: Global,
    cluster: Cluster<ListStore, L>,
) -> Journal<ListStore>
    ensures { IsClosed (λ list. stored_in list 0) L.cluster L.kept L.numbers result }
{
    let room = one_place(rt, alloc);
    let mut seat = cluster.seat(rt).expect(rt, "a seat");
    submitted(rt, alloc, &cluster, &mut seat);
    closed(rt, cluster, room, seat)
}

/// The journal of the first part, in which a message is taken; none if there was no memory to start it.
fn first_part<L: Begins, R: Wait + Abort>(
    rt: &R,
    alloc: Global,
    first: First,
) -> Option<Journal<ListStore>>
    requires name { first.blank.name ≡ L.name }
    requires parts { first.blank.parts ≡ L.parts }
    requires all { first.blank.parts ≡ 1000000 }
    requires numbers { L.numbers ≡ none_sent }
    requires begins { IsBeginning L.cluster L.kept first.node }
    requires alone { L.cluster.nodes ≡ 1 }
    ensures { IfSome result (IsClosed (λ list. stored_in list 0) L.cluster L.kept L.numbers) }
{
    match started::<L>(rt, alloc, first) {
        Some(cluster) => Some(taken_and_closed(rt, alloc, cluster)),
        None => None,
    }
}

/// The first packet that is missing from 4 on; and how many entries the part has, and how many packets have numbers, once it is closed.
fn carried<L: Begins, R: Wait + Abort>(
    rt: &R,
    alloc: Global,
    cluster: Cluster<ListStore, L>,
) -> [u64; 3] {
    let room = one_place(rt, alloc);
    let mut seat = cluster.seat(rt).expect(rt, "a seat");
    let again = settled(rt, &cluster, &mut seat, 4);
    let journal = closed(rt, cluster, room, seat);
    [again, journal.len() as u64, journal.packets()]
}

/// The same of the second part. The journal comes back if there was no memory to go on.
fn second_part<L: Begins, R: Wait + Abort>(
    rt: &R,
    alloc: Global,
    next: Next,
) -> Result<[u64; 3], Journal<ListStore>>
    requires name { next.blank.name ≡ L.name }
    requires parts { next.blank.parts ≡ L.parts }
    requires all { next.blank.parts ≡ 1000000 }
    requires goes { GoesOn (λ list. stored_in list 0) L.cluster L.kept L.numbers next.journal }
    ensures { IfErr result (λ back. back ≡ next.journal) }
{
    let Next { blank, journal } = next;
    match Cluster::<ListStore, L>::go_on(alloc, blank, journal, 4) {
        Ok(cluster) => Ok(carried(rt, alloc, cluster)),
        Err(back) => Err(back),
    }
}

/// The same of a journal that goes on.
fn going_on<L: Begins, R: Wait + Abort>(
    rt: &R,
    alloc: Global,
    journal: Journal<ListStore>,
) -> [u64; 3]
    requires { IsClosed (λ list. stored_in list 0) L.cluster L.kept L.numbers journal }
{
    let mut left = journal;
    for _ in 0..TRIES {
        if !left.is_sound() {
            panic!(rt; "no node is astray");
        }
        closed_journals_go_on::<ListStore>();
        let next = Next {
            blank: Blank::new(PARTS),
            journal: left,
        };
        match second_part::<Brand, R>(rt, alloc, next) {
            Ok(numbers) => return numbers,
            Err(back) => left = back,
        }
    }
    panic!(rt; "memory");
}

/// Both parts; none if there was no memory to start the first.
fn both_parts<L: Begins, R: Wait + Abort>(rt: &R, alloc: Global, first: First) -> Option<[u64; 3]>
    requires name { first.blank.name ≡ L.name }
    requires parts { first.blank.parts ≡ L.parts }
    requires all { first.blank.parts ≡ 1000000 }
    requires numbers { L.numbers ≡ none_sent }
    requires begins { IsBeginning L.cluster L.kept first.node }
    requires alone { L.cluster.nodes ≡ 1 }
{
    match first_part::<L, R>(rt, alloc, first) {
        Some(journal) => Some(going_on::<L, R>(rt, alloc, journal)),
        None => None,
    }
}

/// What the first part begins with: a new node.
fn first_of_new(rt: &impl Abort, alloc: Global) -> First
    ensures all { result.blank.parts ≡ 1000000 }
    ensures node { IsNode result.node.kept.setup.node }
    ensures setup { IsSetup result.node.kept.setup }
    ensures alone { result.node.kept.setup.nodes ≡ 1 }
    ensures finished { result.node.unfinished ≡ None }
{
    let (node, life) = opened(rt, alloc);
    drop(life);
    First {
        blank: Blank::new(PARTS),
        node,
    }
}

/// The last packet of the first part, 4, may still come.
#[test]
fn a_closed_journal_goes_on(rt: HostRuntime) {
    for _ in 0..TRIES {
        let first = first_of_new(&rt, rt.alloc());
        if let Some(found) = both_parts::<Brand, HostRuntime>(&rt, rt.alloc(), first) {
            assert_same(&rt, &found, &[5, 1, 4]);
            return;
        }
    }
    panic!(rt; "memory");
}

/// A cluster in which a message is taken is closed: how many entries it has. None if there was no memory to start it.
fn entries<L: Begins, R: Wait + Abort>(rt: &R, alloc: Global, first: First) -> Option<usize>
    requires name { first.blank.name ≡ L.name }
    requires parts { first.blank.parts ≡ L.parts }
    requires all { first.blank.parts ≡ 1000000 }
    requires numbers { L.numbers ≡ none_sent }
    requires begins { IsBeginning L.cluster L.kept first.node }
    requires alone { L.cluster.nodes ≡ 1 }
{
    match first_part::<L, R>(rt, alloc, first) {
        Some(journal) => Some(journal.len()),
        None => None,
    }
}

/// A cluster in which a message is taken is let go: how many slips it has.
fn taken_and_let_go<L: Begins, R: Wait + Abort>(
    rt: &R,
    alloc: Global,
    cluster: Cluster<ListStore, L>,
) -> usize {
    let room = one_place::<Seat<L>>(rt, alloc);
    let mut seat = cluster.seat(rt).expect(rt, "a seat");
    submitted(rt, alloc, &cluster, &mut seat);
    drop(room);
    seat.slips().len()
}

/// The same; none if there was no memory to start it.
fn slips<L: Begins, R: Wait + Abort>(rt: &R, alloc: Global, first: First) -> Option<usize>
    requires name { first.blank.name ≡ L.name }
    requires parts { first.blank.parts ≡ L.parts }
    requires all { first.blank.parts ≡ 1000000 }
    requires numbers { L.numbers ≡ none_sent }
    requires begins { IsBeginning L.cluster L.kept first.node }
    requires alone { L.cluster.nodes ≡ 1 }
{
    match started::<L>(rt, alloc, first) {
        Some(cluster) => Some(taken_and_let_go(rt, alloc, cluster)),
        None => None,
    }
}

/// As many requests for memory are made here as in `a_cluster_is_let_go`, so the close makes none.
#[test]
fn a_cluster_is_closed(rt: HostRuntime) {
    for _ in 0..TRIES {
        let first = first_of_new(&rt, rt.alloc());
        if let Some(found) = entries::<Brand, HostRuntime>(&rt, rt.alloc(), first) {
            assert_same(&rt, &found, &5);
            return;
        }
    }
    panic!(rt; "memory");
}

#[test]
fn a_cluster_is_let_go(rt: HostRuntime) {
    for _ in 0..TRIES {
        let first = first_of_new(&rt, rt.alloc());
        if let Some(found) = slips::<Brand, HostRuntime>(&rt, rt.alloc(), first) {
            assert_same(&rt, &found, &5);
            return;
        }
    }
    panic!(rt; "memory");
}
