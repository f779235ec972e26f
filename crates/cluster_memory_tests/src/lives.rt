//! A message of one node, from its submit_sm to its delivery, and a start anew.

ghost use Rattle.std.specs.Prelude.{◌≡◌};
ghost use Rattle.journal_parts.specs.Members.{IsBeginning};
ghost use Rattle.journal_parts.specs.Numbers.{none_sent};

use crate::calls::{asked, concluded, granted, restarted, settled, ticked};
use crate::openings::{First, PARTS, TRIES, opened, started};
use crate::same::assert_same;
use node_core::Life;
use node_threads::{Begins, Cluster, Seat};
use stable_store::ListStore;
use std::alloc::Global;
use std::marker::Brand;
use std::process::Abort;
use std::sync::Wait;
use std::sync::ledger::Blank;

/// The numbers of the first packets that are missing behind the submit_sm, the attempt and its delivery.
fn delivered<L: Begins, R: Wait + Abort>(
    rt: &R,
    alloc: Global,
    cluster: &Cluster<ListStore, L>,
    seat: &mut Seat<L>,
    life: &Life,
) -> [u64; 3] {
    let _waits = asked(rt, alloc, cluster, seat, "submit_with_receipt");
    let taken = settled(rt, cluster, seat, 1);
    let _nothing = ticked(rt, alloc, cluster, seat);
    let chosen = settled(rt, cluster, seat, taken);
    let permit = granted(rt, cluster, seat, life);
    concluded(rt, cluster, seat, permit);
    let reported = settled(rt, cluster, seat, chosen);
    [taken, chosen, reported]
}

/// The same numbers; and in which incarnation the node is once it started anew, and how many slips there are. The number of its first reply is 1.
fn lived<L: Begins, R: Wait + Abort>(
    rt: &R,
    alloc: Global,
    cluster: &Cluster<ListStore, L>,
    life: Life,
) -> [u64; 5] {
    let mut seat = cluster.seat(rt).expect(rt, "a seat");
    let [taken, chosen, reported] = delivered(rt, alloc, cluster, &mut seat, &life);
    let next = restarted(rt, cluster, &mut seat, life);
    let told = asked(rt, alloc, cluster, &mut seat, "query");
    assert_same(rt, &told, &("Waits", [1, 0, 0, 0]));
    let incarnation = u64::from(next.incarnation().number());
    let slips = seat.slips().len() as u64;
    [taken, chosen, reported, incarnation, slips]
}

/// What comes of a cluster; none if there was no memory to start it.
fn tried<L: Begins, R: Wait + Abort>(
    rt: &R,
    alloc: Global,
    first: First,
    life: Life,
) -> Option<[u64; 5]>
    requires name { first.blank.name ≡ L.name }
    requires parts { first.blank.parts ≡ L.parts }
    requires all { first.blank.parts ≡ 1000000 }
    requires numbers { L.numbers ≡ none_sent }
    requires begins { IsBeginning L.cluster L.kept first.node }
    requires alone { L.cluster.nodes ≡ 1 }
{
    match started::<L>(rt, alloc, first) {
        Some(cluster) => Some(lived(rt, alloc, &cluster, life)),
        None => None,
    }
}

/// What comes of a new cluster; none if there was no memory to start it.
fn new_life<R: Wait + Abort>(rt: &R, alloc: Global) -> Option<[u64; 5]> {
    let (node, life) = opened(rt, alloc);
    let blank = Blank::new(PARTS);
    tried::<Brand, R>(rt, alloc, First { blank, node }, life)
}

/// Each round of a node alone sends a Prepare, a Promise, a Propose and a Voted, and each packet is one step.
#[test]
fn a_message_is_delivered_and_its_node_starts_anew(rt: HostRuntime) {
    for _ in 0..TRIES {
        if let Some(found) = new_life(&rt, rt.alloc()) {
            assert_same(&rt, &found, &[5, 9, 17, 2, 22]);
            return;
        }
    }
    panic!(rt; "memory");
}
