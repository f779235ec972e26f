//! A save that lasts while another node answers: no lock of the cluster is held meanwhile but that of its own node.

ghost use Rattle.std.specs.Prelude.{◌≡◌, length};
ghost use Rattle.journal_parts.specs.Numbers.{none_sent};
ghost use Rattle.node_threads.specs.Actions.{AllBegin};

use crate::hands::{asked, numbered, settled};
use crate::opened::{HeldStore, PARTS, three_held};
use crate::same::assert_same;
use lines_of_tests::{Answer, told_in};
use node_core::Node;
use node_threads::{Action, Begins, Cluster, Seat};
use stable_store::Latch;
use std::alloc::Global;
use std::marker::Brand;
use std::process::Abort;
use std::sync::ledger::Blank;
use std::sync::{Arc, Wait};
use std::thread;
use std::thread::Threads;

/// How often a thread looks whether a save is held up, at most.
const MOST_LOOKS: u32 = 1_000_000;

/// Whether a save came within so many looks, between which other threads run.
fn is_reached(latch: &Latch) -> bool {
    for _ in 0..MOST_LOOKS {
        if latch.is_reached() {
            return true;
        }
        thread::yield_now();
    }
    false
}

/// A packet comes to node 1, which saves: the number of the entry.
fn saved<L: Begins, R: Wait + Abort>(
    rt: &R,
    cluster: &Cluster<HeldStore, L>,
    seat: &mut Seat<L>,
    number: u64,
) -> u64 {
    let node = numbered(rt, 1);
    let slip = cluster.act(rt, seat, Action::Deliver { number, node });
    slip.expect(rt, "a slip").number()
}

/// Once node 1 saves, node 2 is asked for the message, and hears node 3; then node 1 may go on. What node 2 told last, with the number of that entry.
fn queried<L: Begins, R: Wait + Abort>(
    rt: &R,
    alloc: Global,
    cluster: &Cluster<HeldStore, L>,
    seat: &mut Seat<L>,
    latch: &Latch,
) -> (Answer, u64) {
    assert!(rt; is_reached(latch));
    let slip = asked(rt, alloc, cluster, seat, (2, "query"));
    let from = slip.packets_before().checked_add(1).expect(rt, "a number");
    let _ = settled(rt, cluster, seat, &[3, 2], from);
    latch.open();
    let last = seat.slips().last().expect(rt, "a slip");
    (told_in(last.outputs()), last.number())
}

/// What node 2 told while a save of node 1 was held up, and whether that stands in the journal before the step of the save.
fn told_meanwhile<L: Begins + Send + Sync, R: Threads + Wait + Abort + Sync>(
    rt: &R,
    alloc: Global,
    blank: Blank,
    nodes: Vec<Node<HeldStore>>,
    latch: &Latch,
) -> (Answer, bool)
    requires name { blank.name ≡ L.name }
    requires parts { blank.parts ≡ L.parts }
    requires all { blank.parts ≡ 1000000 }
    requires numbers { L.numbers ≡ none_sent }
    requires begin { AllBegin L.cluster L.kept nodes.items }
    requires count { length nodes.items ≡ L.cluster.nodes }
{
    let cluster = Cluster::<HeldStore, L>::start(alloc, blank, nodes).expect(rt, "a cluster");
    let mut one = cluster.seat(rt).expect(rt, "a seat");
    let mut other = cluster.seat(rt).expect(rt, "a seat");
    drop(asked(rt, alloc, &cluster, &mut one, (1, "submit_with_receipt")));
    let (taken, _) = settled(rt, &cluster, &mut one, &[1, 2, 3], 1);
    drop(asked(rt, alloc, &cluster, &mut one, (1, "submit_with_receipt")));
    let (saved, (told, answered)) = thread::join(
        rt,
        || saved(rt, &cluster, &mut one, taken),
        || queried(rt, alloc, &cluster, &mut other, latch),
    );
    (told, answered < saved)
}

fn told<R: Threads + Wait + Abort + Sync>(rt: &R, alloc: Global) -> (Answer, bool) {
    let latch = Arc::new(alloc, Latch::new()).expect(rt, "memory");
    let (nodes, lives) = three_held(rt, alloc, &latch);
    drop(lives);
    told_meanwhile::<Brand, R>(rt, alloc, Blank::new(PARTS), nodes, &latch)
}

/// Node 2 tells that the message is ENROUTE (1) while node 1 saves the promise for another one.
#[test]
fn a_query_is_answered_during_a_save(rt: HostRuntime) {
    let found = told(&rt, rt.alloc());
    assert_same(&rt, &found, &(("Shown", [1, 1, 0, 0]), true));
}
