//! Four threads, with a seat each: an entry stands for each of their slips.

ghost use Rattle.std.specs.Prelude.{◌≡◌, length};
ghost use Rattle.journal_parts.specs.Numbers.{none_sent};
ghost use Rattle.node_threads.specs.Actions.{AllBegin};

use crate::clusters::{asked, closed, ticked};
use crate::openings::over_new_stores;
use crate::same::assert_same;
use crate::tables::PARTS;
use node_core::Node;
use node_threads::{Begins, Cluster, Journal, Seat};
use stable_store::ListStore;
use std::alloc::Global;
use std::marker::Brand;
use std::process::Abort;
use std::sync::Wait;
use std::sync::ledger::Blank;
use std::thread;
use std::thread::Threads;

/// How many threads there are.
const THREADS: usize = 4;

/// How many steps each of them hands in.
const STEPS: u64 = 50;

/// Hands in the steps of a thread at three nodes in turn: a submit_sm and a tick by turns.
fn handed_in<L: Begins, R: Wait + Abort>(
    rt: &R,
    alloc: Global,
    cluster: &Cluster<ListStore, L>,
    seat: &mut Seat<L>,
) {
    for step in 0..STEPS {
        let node = step % 3 + 1;
        let slip = if step % 2 == 0 {
            asked(rt, alloc, cluster, seat, (node, "submit_with_receipt"))
        } else {
            ticked(rt, alloc, cluster, seat, node)
        };
        drop(slip);
    }
}

/// A seat for each thread.
fn seats_of<L: Begins, R: Wait + Abort>(
    rt: &R,
    alloc: Global,
    cluster: &Cluster<ListStore, L>,
) -> Vec<Seat<L>> {
    let mut seats = Vec::new(alloc);
    for _ in 0..THREADS {
        let seat = cluster.seat(rt).expect(rt, "a seat");
        seats.push(seat).expect(rt, "memory");
    }
    seats
}

/// The journal of the steps that all threads hand in at once.
fn journal_of<L: Begins + Send + Sync, R: Threads + Wait + Abort + Sync>(
    rt: &R,
    alloc: Global,
    blank: Blank,
    nodes: Vec<Node<ListStore>>,
) -> Journal<ListStore>
    requires name { blank.name ≡ L.name }
    requires parts { blank.parts ≡ L.parts }
    requires all { blank.parts ≡ 1000000 }
    requires numbers { L.numbers ≡ none_sent }
    requires begin { AllBegin L.cluster L.kept nodes.items }
    requires count { length nodes.items ≡ L.cluster.nodes }
{
    let cluster = Cluster::<ListStore, L>::start(alloc, blank, nodes).expect(rt, "a cluster");
    let mut seats = seats_of(rt, alloc, &cluster);
    thread::for_each_mut(
        rt,
        seats.as_mut_slice(),
        THREADS,
        &|_, seat| { handed_in(rt, alloc, &cluster, seat) },
    );
    closed(rt, cluster, seats)
}

fn entries<R: Threads + Wait + Abort + Sync>(rt: &R, alloc: Global) -> usize {
    let (nodes, lives) = over_new_stores(rt, alloc, 3);
    drop(lives);
    journal_of::<Brand, R>(rt, alloc, Blank::new(PARTS), nodes).len()
}

#[test]
fn each_slip_of_four_threads_has_an_entry(rt: HostRuntime) {
    assert_same(&rt, &entries(&rt, rt.alloc()), &200);
}
