//! A message that one thread hands in, and of which another asks once the slip with its ESME_ROK was handed over.

ghost use Rattle.std.specs.Prelude.{◌≡◌, length};
ghost use Rattle.journal_parts.specs.Numbers.{none_sent};
ghost use Rattle.node_threads.specs.Actions.{AllBegin};

use crate::clusters::{asked, closed_by_two, numbered, settled_at};
use crate::events::{Event, events_in};
use crate::openings::over_new_stores;
use crate::same::assert_same;
use crate::tables::PARTS;
use node_core::Node;
use node_threads::{Action, Begins, Cluster, Journal, Seat, Slip};
use stable_store::ListStore;
use std::alloc::Global;
use std::marker::Brand;
use std::process::Abort;
use std::sync::Wait;
use std::sync::ledger::Blank;
use std::thread;
use std::thread::Threads;
use waiting_requests::Answer;

/// Whether a slip has the ESME_ROK to a submit_sm.
fn is_accepted(slip: &Slip) -> bool {
    match slip.outputs().replies.as_slice() {
        [reply] => reply.answer().is(&Answer::Accepted),
        _ => false,
    }
}

/// Whether the packet with this number brings the ESME_ROK at one of three nodes: then it comes to no further one.
fn is_accepted_by<L: Begins, R: Wait + Abort>(
    rt: &R,
    cluster: &Cluster<ListStore, L>,
    seat: &mut Seat<L>,
    number: u64,
) -> bool {
    for node in 1..4 {
        let node = numbered(rt, node);
        let act = cluster.act(rt, seat, Action::Deliver { number, node });
        let slip = act.expect(rt, "a slip");
        if is_accepted(&slip) {
            return true;
        }
        drop(slip);
    }
    false
}

/// Hands in a submit_sm at node 1, and its packets at three nodes until it is answered ESME_ROK.
fn accepted<L: Begins, R: Wait + Abort>(
    rt: &R,
    alloc: Global,
    cluster: &Cluster<ListStore, L>,
    seat: &mut Seat<L>,
) {
    drop(asked(rt, alloc, cluster, seat, (1, "submit_with_receipt")));
    for number in 1..9 {
        if is_accepted_by(rt, cluster, seat, number) {
            return;
        }
    }
    panic!(rt; "it is accepted");
}

/// Has node 2 asked for the message, and what packets that brings handed in at three nodes.
fn queried<L: Begins, R: Wait + Abort>(
    rt: &R,
    alloc: Global,
    cluster: &Cluster<ListStore, L>,
    seat: &mut Seat<L>,
) {
    let slip = asked(rt, alloc, cluster, seat, (2, "query"));
    let from = slip.packets_before().checked_add(1).expect(rt, "a number");
    let _answered = settled_at(rt, cluster, seat, &[1, 2, 3], from);
}

/// The journal of two threads, of which the second begins with the last slip of the first: it has the ESME_ROK.
fn journal_of<L: Begins + Send + Sync, R: Threads + Wait + Abort + Sync>(
    rt: &R,
    alloc: Global,
    blank: Blank,
    nodes: Vec<Node<ListStore>>,
) -> Journal<ListStore>
    requires name { blank.name ≡ L.name }
    requires parts { blank.parts ≡ L.parts }
    requires all { blank.parts ≡ 1000000 }
    requires numbers { L.numbers ≡ none_sent }
    requires begin { AllBegin L.cluster L.kept nodes.items }
    requires count { length nodes.items ≡ L.cluster.nodes }
{
    let cluster = Cluster::<ListStore, L>::start(alloc, blank, nodes).expect(rt, "a cluster");
    let mut one = cluster.seat(rt).expect(rt, "a seat");
    let mut other = cluster.seat(rt).expect(rt, "a seat");
    thread::join(rt, || accepted(rt, alloc, &cluster, &mut one), || ());
    assert!(rt; one.slips().last().is_some_and(|slip| is_accepted(slip)));
    thread::join(rt, || queried(rt, alloc, &cluster, &mut other), || ());
    closed_by_two(rt, alloc, cluster, one, other)
}

fn events<R: Threads + Wait + Abort + Sync>(rt: &R, alloc: Global) -> Vec<Event> {
    let (nodes, lives) = over_new_stores(rt, alloc, 3);
    drop(lives);
    let journal = journal_of::<Brand, R>(rt, alloc, Blank::new(PARTS), nodes);
    events_in(rt, alloc, &journal)
}

/// Node 2, to which not enough votes came, tells that the message is ENROUTE (1), and not that there is none.
#[test]
fn a_message_that_was_accepted_is_known_at_another_node(rt: HostRuntime) {
    let events = events(&rt, rt.alloc());
    let wanted = [
        Event::Told(("Waits", [1, 0, 0, 0])),
        Event::Told(("Accepted", [1, 1000100001, 0, 0])),
        Event::Told(("Waits", [1, 0, 0, 0])),
        Event::Told(("Shown", [1, 1, 0, 0])),
    ];
    assert_same(&rt, &events.as_slice(), &wanted.as_slice());
}
