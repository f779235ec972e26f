//! A delivery that lasts while another node answers: no lock is held meanwhile.

ghost use Rattle.std.specs.Prelude.{◌≡◌, length};
ghost use Rattle.journal_parts.specs.Numbers.{none_sent};
ghost use Rattle.node_threads.specs.Actions.{AllBegin};

use crate::clusters::{asked, closed_by_two, settled_at, ticked};
use crate::events::{Event, events_in};
use crate::gates::{Esme, PlayedGate};
use crate::openings::over_new_stores;
use crate::same::assert_same;
use crate::tables::{PARTS, first};
use fate_chain::Final;
use node_core::{Life, Node};
use node_threads::{Begins, Cluster, Journal, Seat};
use node_workers::{hint, worker};
use pdu_codec::Pdu;
use stable_store::ListStore;
use std::alloc::Global;
use std::marker::Brand;
use std::process::Abort;
use std::sync::Wait;
use std::sync::atomic::{AtomicBool, Ordering};
use std::sync::ledger::Blank;
use std::thread;
use std::thread::Threads;
use worker_parts::{Gate, Hints};

/// How often a thread looks whether it may go on, at most.
const MOST_LOOKS: u32 = 1_000_000;

/// What the thread of a delivery and another one tell each other: that it is under way, or that there is none; and that it may end.
#[derive(Drop)]
struct Signs {
    is_under_way: AtomicBool,
    may_end: AtomicBool,
}

/// Whether a sign is given within 1,000,000 looks, between which other threads run.
fn is_given(sign: &AtomicBool) -> bool {
    for _ in 0..MOST_LOOKS {
        if sign.load(Ordering::SeqCst) {
            return true;
        }
        thread::yield_now();
    }
    false
}

/// A gate to a ready ESME, which answers once its delivery may end, and fails if that is not told.
#[derive(Drop)]
struct HeldGate<'a> {
    signs: &'a Signs,
}

impl<R: Wait> Gate<R> for HeldGate<'_> {
    fn deliver(&mut self, rt: &R, account: &[u8], octets: &[u8]) -> Option<Pdu> {
        self.signs.is_under_way.store(true, Ordering::SeqCst);
        if !is_given(&self.signs.may_end) {
            return None;
        }
        let mut gate = PlayedGate { esme: Esme::Ready };
        gate.deliver(rt, account, octets)
    }
}

/// Has a message taken at three nodes, and an attempt of it chosen, and hints at it.
fn attempt_chosen<L: Begins, R: Wait + Abort>(
    rt: &R,
    alloc: Global,
    cluster: &Cluster<ListStore, L>,
    seat: &mut Seat<L>,
    hints: &Hints,
) {
    drop(asked(rt, alloc, cluster, seat, (1, "submit_with_receipt")));
    let taken = settled_at(rt, cluster, seat, &[1, 2, 3], 1);
    drop(ticked(rt, alloc, cluster, seat, 1));
    let _chosen = settled_at(rt, cluster, seat, &[1, 2, 3], taken);
    hint(cluster, rt, first(rt), hints).expect(rt, "a node");
    hints.shut(rt);
}

/// Has node 2 asked for the message once a delivery is under way, and what packets that brings handed in at the nodes 2 and 3 alone; it may end then.
fn queried<L: Begins, R: Wait + Abort>(
    rt: &R,
    alloc: Global,
    cluster: &Cluster<ListStore, L>,
    seat: &mut Seat<L>,
    signs: &Signs,
) {
    assert!(rt; is_given(&signs.is_under_way));
    let slip = asked(rt, alloc, cluster, seat, (2, "query"));
    let from = slip.packets_before().checked_add(1).expect(rt, "a number");
    let _answered = settled_at(rt, cluster, seat, &[2, 3], from);
    signs.may_end.store(true, Ordering::SeqCst);
}

/// The journal of a delivery that lasts until another thread had node 2 asked.
fn journal_of<L: Begins + Send + Sync, R: Threads + Wait + Abort + Sync>(
    rt: &R,
    alloc: Global,
    blank: Blank,
    nodes: Vec<Node<ListStore>>,
    life: &Life,
) -> Journal<ListStore>
    requires name { blank.name ≡ L.name }
    requires parts { blank.parts ≡ L.parts }
    requires all { blank.parts ≡ 1000000 }
    requires numbers { L.numbers ≡ none_sent }
    requires begin { AllBegin L.cluster L.kept nodes.items }
    requires count { length nodes.items ≡ L.cluster.nodes }
{
    let cluster = Cluster::<ListStore, L>::start(alloc, blank, nodes).expect(rt, "a cluster");
    let mut one = cluster.seat(rt).expect(rt, "a seat");
    let mut other = cluster.seat(rt).expect(rt, "a seat");
    let hints = Hints::make(alloc, 10).expect(rt, "hints");
    attempt_chosen(rt, alloc, &cluster, &mut one, &hints);
    let signs = Signs {
        is_under_way: AtomicBool::new(false),
        may_end: AtomicBool::new(false),
    };
    let ((), worked) = thread::join(
        rt,
        || queried(rt, alloc, &cluster, &mut other, &signs),
        || {
            let mut gate = HeldGate { signs: &signs };
            worker(&cluster, rt, &mut one, life, &hints, &mut gate)
        },
    );
    worked.expect(rt, "no refusal");
    closed_by_two(rt, alloc, cluster, one, other)
}

fn events<R: Threads + Wait + Abort + Sync>(rt: &R, alloc: Global) -> Vec<Event> {
    let (nodes, lives) = over_new_stores(rt, alloc, 3);
    let life = lives.first().expect(rt, "a life");
    let journal = journal_of::<Brand, R>(rt, alloc, Blank::new(PARTS), nodes, life);
    events_in(rt, alloc, &journal)
}

/// Node 2 tells that the message is ENROUTE (1) between the grant and the answer of its attempt.
#[test]
fn a_query_is_answered_during_a_delivery(rt: HostRuntime) {
    let events = events(&rt, rt.alloc());
    let wanted = [
        Event::Told(("Waits", [1, 0, 0, 0])),
        Event::Told(("Accepted", [1, 1000100001, 0, 0])),
        Event::Told(("Granted", [1, 1, 0, 0])),
        Event::Told(("Waits", [1, 0, 0, 0])),
        Event::Told(("Shown", [1, 1, 0, 0])),
        Event::Ended(Final::Delivered),
    ];
    assert_same(&rt, &events.as_slice(), &wanted.as_slice());
}
