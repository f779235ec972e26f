//! Workers that deliver messages of one node.

ghost use Rattle.std.specs.Prelude.{◌≡◌, None};
ghost use Rattle.mc_model.specs.message.Ids.{IsNode};
ghost use Rattle.node_core.specs.Setups.{IsSetup};
ghost use Rattle.journal_parts.specs.Members.{IsBeginning};
ghost use Rattle.journal_parts.specs.Numbers.{none_sent};

use crate::clusters::{closed, closed_by_two};
use crate::gates::{Esme, PlayedGate};
use crate::same::assert_same;
use crate::tables::{PARTS, first, opened, settled};
use delivery::Outcome;
use lines_of_tests::{account, request};
use mc_types::Moment;
use node_core::{Life, Node};
use node_threads::{Action, Begins, Cluster, Entry, Journal, Reach, Seat};
use node_workers::{hint, worker};
use stable_store::ListStore;
use std::alloc::Global;
use std::marker::Brand;
use std::process::Abort;
use std::sync::Wait;
use std::sync::ledger::Blank;
use std::thread;
use std::thread::Threads;
use worker_parts::Hints;
use world::Step;

/// A node that opened, and a ledger for its slips.
struct Opened {
    blank: Blank,
    node: Node<ListStore>,
    life: Life,
}

fn opened_now(rt: &impl Abort, alloc: Global) -> Opened
    ensures parts { result.blank.parts ≡ 1000000 }
    ensures node { IsNode result.node.kept.setup.node }
    ensures setup { IsSetup result.node.kept.setup }
    ensures alone { result.node.kept.setup.nodes ≡ 1 }
    ensures finished { result.node.unfinished ≡ None }
{
    let (node, life) = opened(rt, alloc);
    Opened {
        blank: Blank::new(PARTS),
        node,
        life,
    }
}

/// Hands in so many submit_sms, has them taken, and has an attempt of each chosen.
fn handed_in<L: Begins, R: Wait + Abort>(
    rt: &R,
    alloc: Global,
    cluster: &Cluster<ListStore, L>,
    seat: &mut Seat<L>,
    messages: u32,
) {
    for _ in 0..messages {
        let submit = Action::Request {
            node: first(rt),
            account: account(alloc).expect(rt, "an account"),
            request: request(alloc, "submit_with_receipt").expect(rt, "a request"),
        };
        drop(cluster.act(rt, seat, submit).expect(rt, "a slip"));
    }
    let taken = settled(rt, cluster, seat, 1);
    let mut up = Vec::new(alloc);
    up.push(account(alloc).expect(rt, "an account"))
        .expect(rt, "memory");
    let tick = Action::Tick {
        node: first(rt),
        moment: Moment::least(),
        reach: Reach::of_all(up),
    };
    drop(cluster.act(rt, seat, tick).expect(rt, "a slip"));
    let _chosen = settled(rt, cluster, seat, taken);
}

/// The outcome of an attempt that an entry has, if it is of one.
fn outcome_in(entry: &Entry) -> Option<Outcome> {
    match entry.done.step {
        Step::Answered { outcome, .. } => Some(outcome),
        _ => None,
    }
}

/// The outcomes of attempts that a journal has, in their order.
fn outcomes(rt: &impl Abort, alloc: Global, journal: &Journal<ListStore>) -> Vec<Outcome> {
    let mut outcomes = Vec::new(alloc);
    for place in 0..journal.len() {
        if let Some(outcome) = journal.entry(place + 1).and_then(|entry| outcome_in(entry)) {
            outcomes.push(outcome).expect(rt, "memory");
        }
    }
    outcomes
}

/// What comes of two messages of which a worker hears, through a gate to this ESME.
fn worked<L: Begins, R: Wait + Abort>(
    rt: &R,
    alloc: Global,
    opened: Opened,
    esme: Esme,
) -> Vec<Outcome>
    requires name { opened.blank.name ≡ L.name }
    requires parts { opened.blank.parts ≡ L.parts }
    requires all { opened.blank.parts ≡ 1000000 }
    requires numbers { L.numbers ≡ none_sent }
    requires begins { IsBeginning L.cluster L.kept opened.node }
    requires alone { L.cluster.nodes ≡ 1 }
{
    let Opened { blank, node, life } = opened;
    let mut nodes = Vec::new(alloc);
    nodes.push(node).expect(rt, "memory");
    let cluster = Cluster::<ListStore, L>::start(alloc, blank, nodes).expect(rt, "a cluster");
    let mut seat = cluster.seat(rt).expect(rt, "a seat");
    let hints = Hints::make(alloc, 10).expect(rt, "hints");
    handed_in(rt, alloc, &cluster, &mut seat, 2);
    hint(&cluster, rt, first(rt), &hints).expect(rt, "a node");
    hints.shut(rt);
    let mut gate = PlayedGate { esme };
    worker(&cluster, rt, &mut seat, &life, &hints, &mut gate).expect(rt, "no refusal");
    let mut seats = Vec::new(alloc);
    seats.push(seat).expect(rt, "memory");
    outcomes(rt, alloc, &closed(rt, cluster, seats))
}

fn outcomes_through<R: Wait + Abort>(rt: &R, alloc: Global, esme: Esme) -> Vec<Outcome> {
    worked::<Brand, R>(rt, alloc, opened_now(rt, alloc), esme)
}

#[test]
fn what_the_gate_gave_is_handed_in(rt: HostRuntime) {
    let alloc = rt.alloc();
    let silent = outcomes_through(&rt, alloc, Esme::Silent);
    let strange = outcomes_through(&rt, alloc, Esme::Numbered(9));
    let ready = outcomes_through(&rt, alloc, Esme::Ready);
    assert_same(
        &rt,
        &silent.as_slice(),
        &[Outcome::unanswered(), Outcome::unanswered()].as_slice(),
    );
    assert_same(
        &rt,
        &strange.as_slice(),
        &[Outcome::unanswered(), Outcome::unanswered()].as_slice(),
    );
    assert_same(
        &rt,
        &ready.as_slice(),
        &[Outcome::Delivered, Outcome::Delivered].as_slice(),
    );
}

/// The first octets of a worker have the sequence_number 1, and the next ones 2.
#[test]
fn a_workers_octets_are_numbered(rt: HostRuntime) {
    let alloc = rt.alloc();
    let one = outcomes_through(&rt, alloc, Esme::Numbered(1));
    let two = outcomes_through(&rt, alloc, Esme::Numbered(2));
    assert_same(
        &rt,
        &one.as_slice(),
        &[Outcome::Delivered, Outcome::unanswered()].as_slice(),
    );
    assert_same(
        &rt,
        &two.as_slice(),
        &[Outcome::unanswered(), Outcome::Delivered].as_slice(),
    );
}

/// Hands in two messages, hints at them, and shuts the hints.
fn handed_in_and_shut<L: Begins, R: Wait + Abort>(
    rt: &R,
    alloc: Global,
    cluster: &Cluster<ListStore, L>,
    seat: &mut Seat<L>,
    hints: &Hints,
) {
    handed_in(rt, alloc, cluster, seat, 2);
    hint(cluster, rt, first(rt), hints).expect(rt, "a node");
    hints.shut(rt);
}

/// What comes of two messages that another thread hands in while a worker waits for them.
fn worked_beside<L: Begins + Send + Sync, R: Threads + Wait + Abort + Sync>(
    rt: &R,
    alloc: Global,
    opened: Opened,
) -> Vec<Outcome>
    requires name { opened.blank.name ≡ L.name }
    requires parts { opened.blank.parts ≡ L.parts }
    requires all { opened.blank.parts ≡ 1000000 }
    requires numbers { L.numbers ≡ none_sent }
    requires begins { IsBeginning L.cluster L.kept opened.node }
    requires alone { L.cluster.nodes ≡ 1 }
{
    let Opened { blank, node, life } = opened;
    let mut nodes = Vec::new(alloc);
    nodes.push(node).expect(rt, "memory");
    let cluster = Cluster::<ListStore, L>::start(alloc, blank, nodes).expect(rt, "a cluster");
    let mut seat = cluster.seat(rt).expect(rt, "a seat");
    let mut other = cluster.seat(rt).expect(rt, "a seat");
    let hints = Hints::make(alloc, 10).expect(rt, "hints");
    let mut gate = PlayedGate { esme: Esme::Ready };
    let ((), worked) = thread::join(
        rt,
        || handed_in_and_shut(rt, alloc, &cluster, &mut other, &hints),
        || worker(&cluster, rt, &mut seat, &life, &hints, &mut gate),
    );
    worked.expect(rt, "no refusal");
    outcomes(rt, alloc, &closed_by_two(rt, alloc, cluster, seat, other))
}

#[test]
fn a_worker_delivers_what_another_thread_hands_in(rt: HostRuntime) {
    let alloc = rt.alloc();
    let outcomes = worked_beside::<Brand, HostRuntime>(&rt, alloc, opened_now(&rt, alloc));
    assert_same(
        &rt,
        &outcomes.as_slice(),
        &[Outcome::Delivered, Outcome::Delivered].as_slice(),
    );
}
