//! A journal that is full.

ghost use Rattle.std.specs.Prelude.{◌≡◌};
ghost use Rattle.journal_parts.specs.Members.{IsBeginning};
ghost use Rattle.journal_parts.specs.Numbers.{none_sent};

use crate::hands::{asked, carried, settled, ticked};
use crate::opened::{PARTS, opened};
use crate::same::assert_same;
use delivery::Outcome;
use lines_of_tests::first_id;
use node_core::{Life, Node, Permit};
use node_threads::{Begins, Cluster, Seat};
use stable_store::{ListStore, StableStore};
use std::alloc::Global;
use std::marker::Brand;
use std::process::Abort;
use std::sync::Wait;
use std::sync::ledger::Blank;

/// How many entries a journal has at most.
const MOST_ENTRIES: u32 = 200_000;

/// The number of the refusal Full.
const FULL: u8 = 1;

/// Hands in ticks until one is refused: how many were not, and the number of the refusal.
pub fn filled<S: StableStore, L: Begins, R: Wait + Abort>(
    rt: &R,
    alloc: Global,
    cluster: &Cluster<S, L>,
    seat: &mut Seat<L>,
) -> (u32, u8) {
    for count in 0..=MOST_ENTRIES {
        if let Err(refusal) = ticked(rt, alloc, cluster, seat, false) {
            return (count, refusal.number());
        }
    }
    panic!(rt; "it is never full");
}

/// How many entries the journal of a cluster has as it closes with its one seat.
pub fn entries<S: StableStore + Drop, L: Begins, R: Wait + Abort>(
    rt: &R,
    alloc: Global,
    cluster: Cluster<S, L>,
    seat: Seat<L>,
) -> usize {
    let mut seats = Vec::new(alloc);
    seats.push(seat).expect(rt, "memory");
    match cluster.close(seats) {
        Ok(journal) => journal.len(),
        Err(_) => panic!(rt; "no seat is missing"),
    }
}

/// A node is handed ticks until the journal is full, which is closed then: how many were taken, the number of the refusal, and how many entries there are.
fn ticks_until_full<L: Begins, R: Wait + Abort>(
    rt: &R,
    alloc: Global,
    blank: Blank,
    node: Node<ListStore>,
) -> ((u32, u8), usize)
    requires name { blank.name ≡ L.name }
    requires parts { blank.parts ≡ L.parts }
    requires all { blank.parts ≡ 1000000 }
    requires numbers { L.numbers ≡ none_sent }
    requires begins { IsBeginning L.cluster L.kept node }
    requires alone { L.cluster.nodes ≡ 1 }
{
    let mut nodes = Vec::new(alloc);
    nodes.push(node).expect(rt, "memory");
    let cluster = Cluster::<ListStore, L>::start(alloc, blank, nodes).expect(rt, "a cluster");
    let mut seat = cluster.seat(rt).expect(rt, "a seat");
    let filled = filled(rt, alloc, &cluster, &mut seat);
    (filled, entries(rt, alloc, cluster, seat))
}

#[test]
fn a_full_journal_closes(rt: HostRuntime) {
    let alloc = rt.alloc();
    let (node, _life) = opened(&rt, alloc, ListStore::make(alloc));
    let found = ticks_until_full::<Brand, HostRuntime>(&rt, alloc, Blank::new(PARTS), node);
    assert_same(&rt, &found, &((MOST_ENTRIES, FULL), 200_000));
}

/// Has a message taken and an attempt of it chosen, and the attempt granted.
fn granted<'l, L: Begins, R: Wait + Abort>(
    rt: &R,
    alloc: Global,
    cluster: &Cluster<ListStore, L>,
    seat: &mut Seat<L>,
    life: &'l Life,
) -> Permit<'l> {
    drop(asked(rt, alloc, cluster, seat, (1, "submit_with_receipt")));
    let (taken, _) = settled(rt, cluster, seat, &[1], 1);
    drop(ticked(rt, alloc, cluster, seat, true));
    let _ = settled(rt, cluster, seat, &[1], taken);
    match cluster.grant(rt, seat, life, first_id().expect(rt, "an id")) {
        Ok((slip, permit)) => {
            drop(slip);
            permit
        }
        Err(_) => panic!(rt; "it is granted"),
    }
}

/// The number of the refusal of an answer, which hands its permit back: that is given up.
fn refused<L: Begins, R: Wait + Abort>(
    rt: &R,
    cluster: &Cluster<ListStore, L>,
    seat: &mut Seat<L>,
    permit: Permit<'_>,
) -> Option<u8> {
    match cluster.answered(rt, seat, permit, Outcome::Delivered) {
        Ok(slip) => {
            drop(slip);
            None
        }
        Err((refusal, back)) => {
            let permit = back?;
            permit.abandon();
            Some(refusal.number())
        }
    }
}

/// An attempt is granted, and answered once the journal is full, which is closed then: the number of the refusal, and how many entries there are.
fn answered_when_full<L: Begins, R: Wait + Abort>(
    rt: &R,
    alloc: Global,
    blank: Blank,
    node: Node<ListStore>,
    life: &Life,
) -> (Option<u8>, usize)
    requires name { blank.name ≡ L.name }
    requires parts { blank.parts ≡ L.parts }
    requires all { blank.parts ≡ 1000000 }
    requires numbers { L.numbers ≡ none_sent }
    requires begins { IsBeginning L.cluster L.kept node }
    requires alone { L.cluster.nodes ≡ 1 }
{
    let mut nodes = Vec::new(alloc);
    nodes.push(node).expect(rt, "memory");
    let cluster = Cluster::<ListStore, L>::start(alloc, blank, nodes).expect(rt, "a cluster");
    let mut seat = cluster.seat(rt).expect(rt, "a seat");
    let permit = granted(rt, alloc, &cluster, &mut seat, life);
    let _ = filled(rt, alloc, &cluster, &mut seat);
    let refused = refused(rt, &cluster, &mut seat, permit);
    (refused, entries(rt, alloc, cluster, seat))
}

#[test]
fn a_full_journal_hands_a_permit_back(rt: HostRuntime) {
    let alloc = rt.alloc();
    let (node, life) = opened(&rt, alloc, ListStore::make(alloc));
    let found = answered_when_full::<Brand, HostRuntime>(
        &rt,
        alloc,
        Blank::new(PARTS),
        node,
        &life,
    );
    assert_same(&rt, &found, &(Some(FULL), 200_000));
}

/// A node is handed two messages, ticks until the journal has room for one entry, both packets at once, a tick, and both packets again: the number of each refusal,
/// and whether the tick was taken.
fn carried_when_full<L: Begins, R: Wait + Abort>(
    rt: &R,
    alloc: Global,
    blank: Blank,
    node: Node<ListStore>,
) -> ([(u64, Option<u8>); 2], bool, usize)
    requires name { blank.name ≡ L.name }
    requires parts { blank.parts ≡ L.parts }
    requires all { blank.parts ≡ 1000000 }
    requires numbers { L.numbers ≡ none_sent }
    requires begins { IsBeginning L.cluster L.kept node }
    requires alone { L.cluster.nodes ≡ 1 }
{
    let mut nodes = Vec::new(alloc);
    nodes.push(node).expect(rt, "memory");
    let cluster = Cluster::<ListStore, L>::start(alloc, blank, nodes).expect(rt, "a cluster");
    let mut seat = cluster.seat(rt).expect(rt, "a seat");
    drop(asked(rt, alloc, &cluster, &mut seat, (1, "submit_with_receipt")));
    drop(asked(rt, alloc, &cluster, &mut seat, (1, "submit_with_receipt")));
    for _ in 3..MOST_ENTRIES {
        drop(ticked(rt, alloc, &cluster, &mut seat, false).expect(rt, "a slip"));
    }
    let first = carried(rt, &cluster, &mut seat, 1);
    let is_taken = ticked(rt, alloc, &cluster, &mut seat, false).is_ok();
    let second = carried(rt, &cluster, &mut seat, 1);
    ([first, second], is_taken, entries(rt, alloc, cluster, seat))
}

/// Two packets at once that are refused leave room for one entry, as it was.
#[test]
fn a_journal_with_room_for_one_refuses_two_packets_at_once(rt: HostRuntime) {
    let alloc = rt.alloc();
    let (node, _life) = opened(&rt, alloc, ListStore::make(alloc));
    let found = carried_when_full::<Brand, HostRuntime>(&rt, alloc, Blank::new(PARTS), node);
    let refused = (1, Some(FULL));
    assert_same(&rt, &found, &([refused; 2], true, 200_000));
}
