//! A journal of one node that is closed and goes on: its message is taken in the first part, and delivered in the second.

ghost use Rattle.std.specs.Prelude.{◌≡◌};
ghost use Rattle.stable_store.specs.Stored.{stored_in};
ghost use Rattle.journal_parts.specs.Closing.{IsClosed};
ghost use Rattle.journal_parts.specs.GoingOn.{GoesOn};
ghost use Rattle.journal_parts.specs.Members.{IsBeginning};
ghost use Rattle.journal_parts.specs.Numbers.{none_sent};

use crate::lives::{attempted, delivered, submitted};
use crate::same::assert_same;
use crate::tables::{PARTS, opened, settled};
use node_core::{Life, Node};
use node_threads::{Begins, Cluster, Journal, Seat, closed_journals_go_on};
use stable_store::ListStore;
use std::alloc::Global;
use std::marker::Brand;
use std::process::Abort;
use std::sync::Wait;
use std::sync::ledger::Blank;

/// What the first part begins with.
#[derive(Drop)]
pub struct First {
    pub blank: Blank,
    pub node: Node<ListStore>,
}

/// What the second part goes on with, and from which number on packets of the first may still come.
#[derive(Drop)]
struct Second {
    blank: Blank,
    journal: Journal<ListStore>,
    from: u64,
}

/// The journal of a cluster with one seat, as it closes.
pub fn closed<L: Begins>(
    rt: &impl Abort,
    alloc: Global,
    cluster: Cluster<ListStore, L>,
    seat: Seat<L>,
) -> Journal<ListStore>
    ensures { IsClosed (λ list. stored_in list 0) L.cluster L.kept L.numbers result }
{
    let mut seats = Vec::new(alloc);
    seats.push(seat).expect(rt, "memory");
    match cluster.close(seats) {
        Ok(journal) => journal,
        Err(_) => panic!(rt; "no seat is missing"),
    }
}

/// The journal of the first part, in which a message is taken.
pub fn first_part<L: Begins, R: Wait + Abort>(
    rt: &R,
    alloc: Global,
    blank: Blank,
    node: Node<ListStore>,
) -> Journal<ListStore>
    requires name { blank.name ≡ L.name }
    requires parts { blank.parts ≡ L.parts }
    requires all { blank.parts ≡ 1000000 }
    requires numbers { L.numbers ≡ none_sent }
    requires begins { IsBeginning L.cluster L.kept node }
    requires alone { L.cluster.nodes ≡ 1 }
    ensures { IsClosed (λ list. stored_in list 0) L.cluster L.kept L.numbers result }
{
    let mut nodes = Vec::new(alloc);
    nodes.push(node).expect(rt, "memory");
    let cluster = Cluster::<ListStore, L>::start(alloc, blank, nodes).expect(rt, "a cluster");
    let mut seat = cluster.seat(rt).expect(rt, "a seat");
    submitted(rt, alloc, &cluster, &mut seat);
    let _taken = settled(rt, &cluster, &mut seat, 1);
    closed(rt, alloc, cluster, seat)
}

/// The first packets that are missing from 3 and from 4 on as the second part begins, and behind the attempt and its delivery; and how many entries it has, and
/// how many packets have numbers, once it is closed.
fn second_part<L: Begins, R: Wait + Abort>(
    rt: &R,
    alloc: Global,
    second: Second,
    life: Life,
) -> [u64; 6]
    requires name { second.blank.name ≡ L.name }
    requires parts { second.blank.parts ≡ L.parts }
    requires all { second.blank.parts ≡ 1000000 }
    requires goes { GoesOn (λ list. stored_in list 0) L.cluster L.kept L.numbers second.journal }
{
    let Second {
        blank,
        journal,
        from,
    } = second;
    let Ok(cluster) = Cluster::<ListStore, L>::go_on(alloc, blank, journal, from) else {
        panic!(rt; "it goes on");
    };
    let mut seat = cluster.seat(rt).expect(rt, "a seat");
    let lost = settled(rt, &cluster, &mut seat, 3);
    let again = settled(rt, &cluster, &mut seat, 4);
    attempted(rt, alloc, &cluster, &mut seat);
    let chosen = settled(rt, &cluster, &mut seat, 5);
    delivered(rt, &cluster, &mut seat, &life);
    let reported = settled(rt, &cluster, &mut seat, chosen);
    drop(life);
    let journal = closed(rt, alloc, cluster, seat);
    let entries = journal.len() as u64;
    [lost, again, chosen, reported, entries, journal.packets()]
}

/// Both parts, the second with the packets from this number on.
fn both_parts<L: Begins, R: Wait + Abort>(
    rt: &R,
    alloc: Global,
    first: First,
    life: Life,
    from: u64,
) -> [u64; 6]
    requires name { first.blank.name ≡ L.name }
    requires parts { first.blank.parts ≡ L.parts }
    requires all { first.blank.parts ≡ 1000000 }
    requires numbers { L.numbers ≡ none_sent }
    requires begins { IsBeginning L.cluster L.kept first.node }
    requires alone { L.cluster.nodes ≡ 1 }
{
    let journal = first_part::<L, R>(rt, alloc, first.blank, first.node);
    assert_same(rt, &(journal.len(), journal.packets()), &(5, 4));
    if !journal.is_sound() {
        panic!(rt; "no node is astray");
    }
    closed_journals_go_on::<ListStore>();
    let second = Second {
        blank: Blank::new(PARTS),
        journal,
        from,
    };
    second_part::<Brand, R>(rt, alloc, second, life)
}

/// A new cluster of one node, of whose first part the packets from this number on may still come.
fn gone_on<R: Wait + Abort>(rt: &R, alloc: Global, from: u64) -> [u64; 6] {
    let (node, life) = opened(rt, alloc);
    let first = First {
        blank: Blank::new(PARTS),
        node,
    };
    both_parts::<Brand, R>(rt, alloc, first, life, from)
}

/// The message of the first part is attempted and delivered in the second, in the life that its node began in, with packets from the number 5 on; none of the
/// first part comes again.
#[test]
fn a_closed_journal_goes_on_with_its_next_packet(rt: HostRuntime) {
    let numbers = gone_on(&rt, rt.alloc(), 5);
    assert_same(&rt, &numbers, &[3, 4, 9, 17, 15, 16]);
}

/// The last packet of the first part may still come, and is an entry of the second then; the one before it is gone.
#[test]
fn a_packet_that_was_carried_comes_again(rt: HostRuntime) {
    let numbers = gone_on(&rt, rt.alloc(), 4);
    assert_same(&rt, &numbers, &[3, 5, 9, 17, 16, 16]);
}
