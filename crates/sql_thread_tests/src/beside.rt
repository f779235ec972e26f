//! Worked rows over nodes in threads, played from one seat while another thread hands in steps from another.

ghost use Rattle.std.specs.Prelude.{◌≡◌, length};
ghost use Rattle.node_threads.specs.Actions.{AllBegin};
ghost use Rattle.node_threads.specs.Numbers.{none_sent};

use crate::closing::closed;
use crate::hands::Hands;
use crate::playing::{Row, play_row};
use crate::said::{Told, said_in};
use crate::same::assert_same;
use crate::stores::{InMemory, PARTS, over_new_stores};
use lines_of_tests::{NOTHING, OF_THREE_NODES, account, node, request, told_in};
use mc_types::NodeNo;
use node_core::{Life, Node};
use node_threads::{Action, Begins, Cluster, Entry, Journal};
use stable_store::StableStore;
use std::alloc::Global;
use std::marker::Brand;
use std::process::Abort;
use std::sync::Wait;
use std::sync::ledger::Blank;
use std::thread;
use std::thread::Threads;
use world::Step;

/// The node at which the other thread asks.
fn second(rt: &impl Abort) -> NodeNo {
    node(2).expect(rt, "a node")
}

/// Asks for the message of the row at node 2, ten times, after which all packets come again each time.
fn ask_again<S: StableStore, L: Begins, R: Wait + Abort>(
    rt: &R,
    cluster: &Cluster<S, L>,
    hands: &mut Hands<L>,
) {
    for _ in 0..10u32 {
        let query = Action::Request {
            node: second(rt),
            account: account(hands.alloc).expect(rt, "an account"),
            request: request(hands.alloc, "query").expect(rt, "a request"),
        };
        let _asked = hands.act(rt, cluster, query);
        hands.begin_again();
        let _told = hands.settle(rt, cluster);
    }
}

/// The journal of a row beside a thread that asks.
fn journal_of<
    S: StableStore + Send + Sync + Drop,
    L: Begins + Send + Sync,
    R: Threads + Wait + Abort + Sync,
>(
    rt: &R,
    alloc: Global,
    blank: Blank,
    opened: (Vec<Node<S>>, Vec<Life>),
    row: Row<'_>,
) -> Journal<S>
    requires name { blank.name ≡ L.name }
    requires parts { blank.parts ≡ L.parts }
    requires all { blank.parts ≡ 1000000 }
    requires numbers { L.numbers ≡ none_sent }
    requires begin { AllBegin L.cluster L.kept opened.0.items }
    requires count { length opened.0.items ≡ L.cluster.nodes }
{
    let (nodes, lives) = opened;
    let cluster = Cluster::<S, L>::start(alloc, blank, nodes).expect(rt, "a cluster");
    let mut one = Hands::at(rt, alloc, &cluster);
    let mut other = Hands::at(rt, alloc, &cluster);
    let ((), played) = thread::join(
        rt,
        || ask_again(rt, &cluster, &mut other),
        || play_row(rt, &cluster, &mut one, lives, row),
    );
    drop(played);
    let mut seats = Vec::new(alloc);
    seats.push(one.seat).expect(rt, "memory");
    seats.push(other.seat).expect(rt, "memory");
    closed(rt, cluster, seats)
}

/// The node that took the step of an entry.
fn node_of(entry: &Entry) -> NodeNo {
    match &entry.done.step {
        Step::Deliver { node, .. }
        | Step::Request { node, .. }
        | Step::Tick { node, .. }
        | Step::Grant { node, .. }
        | Step::Answered { node, .. }
        | Step::Crash { node, .. }
        | Step::Restart { node } => *node,
    }
}

/// What an entry tells, unless nobody is told or it is of node 2.
fn told_by(rt: &impl Abort, entry: &Entry) -> Option<Told<'static>> {
    let node = node_of(entry);
    let told = told_in(&entry.done.outputs);
    if node == second(rt) || told == NOTHING {
        return None;
    }
    Some((u64::from(node.number()), told))
}

/// What all nodes but node 2 told.
fn told_in_journal<S: StableStore>(
    rt: &impl Abort,
    alloc: Global,
    journal: &Journal<S>,
) -> Vec<Told<'static>> {
    let mut all = Vec::new(alloc);
    for place in 0..journal.len() {
        let entry = journal.entry(place + 1).expect(rt, "an entry");
        if let Some(told) = told_by(rt, entry) {
            all.push(told).expect(rt, "memory");
        }
    }
    all
}

/// What the lines of a row say of what is told: neither a packet that is sent, nor a grant that is refused.
fn told_in_row<'r>(rt: &impl Abort, alloc: Global, row: &'r str) -> Vec<Told<'r>> {
    let mut all = Vec::new(alloc);
    for line in row.lines() {
        if let Some((node, said)) = said_in(rt, line) {
            if said.0 != "Started" && said.0 != "Unprepared" {
                all.push((node, said)).expect(rt, "memory");
            }
        }
    }
    all
}

#[test]
fn rows_beside_a_thread_that_asks(rt: HostRuntime) {
    let alloc = rt.alloc();
    for text in OF_THREE_NODES.split("\n\n") {
        let opened = over_new_stores(&rt, alloc);
        let row = Row { text };
        let journal = journal_of::<InMemory, Brand, HostRuntime>(
            &rt,
            alloc,
            Blank::new(PARTS),
            opened,
            row,
        );
        let told = told_in_journal(&rt, alloc, &journal);
        let said = told_in_row(&rt, alloc, text);
        assert_same(&rt, &told.as_slice(), &said.as_slice());
    }
}
