//! How a node opens, and what a device that fails leaves.

ghost use Rattle.node_core.specs.Nodes.{IsLifeOf};

use crate::same::assert_same;
use crate::walks::{assert_part, input, opened_over, second, walked};
use node_core::{Found, Life, Loaded, Node, StepFault, open_node};
use stable_store::{FailingStore, Found as Leaves, ListStore, StableStore, StoreFault};
use std::alloc::Global;
use std::process::Abort;
use synod_acceptor::Packet;

// That a node answers as the rows say before a stop, and once it is opened again over its store.
fn assert_stopped<S: StableStore + Drop>(
    rt: &impl Abort,
    alloc: Global,
    store: S,
    before: &str,
    after: &str,
) {
    let store = walked(rt, alloc, store, second(rt), before);
    let store = walked(rt, alloc, store, second(rt), after);
    drop(store);
}

#[test]
fn what_was_voted_outlives_a_stop(rt: HostRuntime) {
    let before = "\
before
propose 1 262162 => Voted 262162";
    let after = "\
after
ask 3 => Told 262162
prepare 1 262161 => Refused 262162";
    let alloc = rt.alloc();
    assert_stopped(&rt, alloc, ListStore::make(alloc), before, after);
}

#[test]
fn a_node_whose_save_fails_is_broken(rt: HostRuntime) {
    let before = "\
before
prepare 1 262161 => Promised
propose 1 262161 => Uncommitted 4
ask 3 => Unprepared 1";
    let after = "\
after
ask 3 => Told 262161";
    let alloc = rt.alloc();
    let store = failing(alloc, 2, Leaves::After);
    assert_stopped(&rt, alloc, store, before, after);
}

// The number and the incarnation of the second node of three that opens over a store, and the store once it has stopped.
fn started(rt: &impl Abort, alloc: Global, store: ListStore) -> ((u8, u16), ListStore) {
    let (node, life) = opened_over(rt, alloc, store, second(rt));
    let numbers = (life.node().number(), life.incarnation().number());
    (numbers, node.into_store())
}

#[test]
fn each_start_is_another_incarnation(rt: HostRuntime) {
    let alloc = rt.alloc();
    let (first, store) = started(&rt, alloc, ListStore::make(alloc));
    let (second, store) = started(&rt, alloc, store);
    let (third, store) = started(&rt, alloc, store);
    drop(store);
    assert_same(&rt, &[first, second, third], &[(2, 1), (2, 2), (2, 3)]);
}

// The number and the incarnation of the second node of three that is loaded over a store, and begins then.
fn begun(rt: &impl Abort, alloc: Global, store: ListStore) -> (u8, u16) {
    let Ok(loaded) = Loaded::of(alloc, store, second(rt)) else {
        panic!(rt; "it is loaded");
    };
    let number = loaded.setup().node().number();
    let Ok((node, life)) = loaded.begin() else {
        panic!(rt; "it begins");
    };
    drop(node);
    (number, life.incarnation().number())
}

#[test]
fn a_node_that_is_loaded_begins_later(rt: HostRuntime) {
    let alloc = rt.alloc();
    let (first, store) = started(&rt, alloc, ListStore::make(alloc));
    let next = begun(&rt, alloc, store);
    assert_same(&rt, &[first, next], &[(2, 1), (2, 2)]);
}

fn use_up(rt: &impl Abort, store: &mut ListStore) {
    for _ in 0..9999 {
        let next = store.next_incarnation();
        next.expect(rt, "an incarnation");
    }
}

// Why a node does not open over a store that is used up, and how much its store holds then.
fn not_opened(rt: &impl Abort, alloc: Global, store: ListStore) -> (StoreFault, usize) {
    match open_node(alloc, store, second(rt)) {
        Ok(_) => panic!(rt; "no incarnation is left"),
        Err((fault, mut store)) => {
            let records = store.load().expect(rt, "records");
            (fault, records.len())
        }
    }
}

#[test]
fn a_store_is_handed_back(rt: HostRuntime) {
    let mut store = ListStore::make(rt.alloc());
    use_up(&rt, &mut store);
    let left = not_opened(&rt, rt.alloc(), store);
    assert_same(&rt, &left, &(StoreFault::Incarnations, 0));
}

// The life of a node that opens again after its save failed at what came.
fn reopened(
    rt: &impl Abort,
    alloc: Global,
    node: &mut Node<FailingStore>,
    first: Life,
    comes: &str,
) -> Life
    requires { IsLifeOf node.old first }
    ensures { IsLifeOf node.new result }
{
    let pending = node
        .prepare_step(input(rt, alloc, comes))
        .expect(rt, "a step");
    let Err(StepFault::Device) = node.commit(pending) else {
        panic!(rt; "its save fails");
    };
    let Ok(second) = node.reopen(first) else {
        panic!(rt; "it opens again");
    };
    second
}

// A store of which this save fails first and leaves that.
fn failing(alloc: Global, save: u64, leaves: Leaves) -> FailingStore {
    FailingStore::make(ListStore::make(alloc), save, leaves)
}

#[test]
fn a_broken_node_opens_again(rt: HostRuntime) {
    let alloc = rt.alloc();
    let store = failing(alloc, 1, Leaves::After);
    let (mut node, first) = opened_over(&rt, alloc, store, second(&rt));
    let life = reopened(&rt, alloc, &mut node, first, "propose 1 262161");
    assert_part(&rt, alloc, &mut node, "again\nask 3 => Told 262161");
    drop(node);
    let numbers = (life.node().number(), life.incarnation().number());
    assert_same(&rt, &numbers, &(2, 2));
}

// What a node tells of the save in which it stopped: the ballot of its Prepare or Propose, and what was stored.
fn told<S: StableStore>(node: &Node<S>) -> Option<(u64, Found)> {
    let stopped = node.stopped()?;
    match &stopped.packet {
        Packet::Prepare { ballot, .. } => Some((ballot.number(), stopped.found)),
        Packet::Propose { vote, .. } => Some((vote.ballot.number(), stopped.found)),
        _ => None,
    }
}

// What comes to a node, what the first save of its store, which fails, leaves, and what the node tells of that.
type Row = (&'static str, Leaves, Found);

const TOLD: &[Row] = &[
    ("prepare 1 262161", Leaves::Before, Found::Before),
    ("prepare 1 262161", Leaves::After, Found::After),
    ("propose 1 262161", Leaves::Before, Found::Before),
    ("propose 1 262161", Leaves::After, Found::After),
];

// The save of a node fails at what comes, and it opens again twice: what it tells each time.
fn told_twice(
    rt: &impl Abort,
    alloc: Global,
    node: &mut Node<FailingStore>,
    first: Life,
    comes: &str,
) -> (Option<(u64, Found)>, Option<(u64, Found)>)
    requires { IsLifeOf node.old first }
{
    let second = reopened(rt, alloc, node, first, comes);
    let once = told(node);
    let Ok(_third) = node.reopen(second) else {
        panic!(rt; "it opens once more");
    };
    (once, told(node))
}

// That the node tells it when it opens again, and nothing when it does so once more.
fn assert_told(rt: &impl Abort, alloc: Global, (comes, leaves, found): Row) {
    let store = failing(alloc, 1, leaves);
    let (mut node, first) = opened_over(rt, alloc, store, second(rt));
    let told = told_twice(rt, alloc, &mut node, first, comes);
    drop(node);
    let wanted = (Some((262161, found)), None);
    assert_same(rt, &(comes, told), &(comes, wanted));
}

#[test]
fn a_node_tells_in_which_save_it_stopped(rt: HostRuntime) {
    for row in TOLD {
        assert_told(&rt, rt.alloc(), *row);
    }
}
