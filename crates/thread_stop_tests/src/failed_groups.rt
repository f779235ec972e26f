//! A node of a cluster of which the save of several packets fails.

ghost use Rattle.std.specs.Prelude.{◌≡◌, None};
ghost use Rattle.mc_model.specs.message.Ids.{IsNode};
ghost use Rattle.node_core.specs.Setups.{IsSetup};
ghost use Rattle.journal_parts.specs.Members.{IsBeginning};
ghost use Rattle.journal_parts.specs.Numbers.{none_sent};

use crate::full::{entries, filled};
use crate::hands::{asked, carried};
use crate::opened::{PARTS, opened};
use crate::same::assert_same;
use node_core::{Found, Life, Node};
use node_threads::{Begins, Cluster, Seat, Unfinished};
use stable_store::{FailingStore, Found as Leaves, ListStore};
use std::alloc::Global;
use std::marker::Brand;
use std::process::Abort;
use std::sync::Wait;
use std::sync::ledger::Blank;

/// The numbers of the refusals Broken and Device.
const BROKEN: u8 = 2;

const DEVICE: u8 = 9;

/// A node that opened, its life, and how many messages it is handed.
#[derive(Drop)]
struct Handed {
    node: Node<FailingStore>,
    life: Life,
    messages: u64,
}

/// How many messages a node is handed, which of its saves fails, and what that leaves.
type Fault = (u64, u64, Leaves);

/// What is seen then: the first number of the packets whose save fails, and the number of the refusal; how many of their steps are taken; the number of the next
/// refusal; and the save that the start anew names.
type Seen = ((u64, Option<u8>), usize, Option<u8>, Option<Unfinished>);

/// A node that opens over a new store, of which a save fails.
fn over_failing_store(rt: &impl Abort, alloc: Global, fault: Fault) -> Handed
    ensures node { IsNode result.node.kept.setup.node }
    ensures setup { IsSetup result.node.kept.setup }
    ensures alone { result.node.kept.setup.nodes ≡ 1 }
    ensures finished { result.node.unfinished ≡ None }
{
    let (messages, save, leaves) = fault;
    let store = FailingStore::make(ListStore::make(alloc), save, leaves);
    let (node, life) = opened(rt, alloc, store);
    Handed {
        node,
        life,
        messages,
    }
}

/// Hands in so many messages to node 1.
fn submitted<L: Begins, R: Wait + Abort>(
    rt: &R,
    alloc: Global,
    cluster: &Cluster<FailingStore, L>,
    seat: &mut Seat<L>,
    messages: u64,
) {
    for _ in 0..messages {
        drop(asked(rt, alloc, cluster, seat, (1, "submit_with_receipt")));
    }
}

/// How many steps a seat has behind those of so many messages, and of the packets before a number.
fn behind<L: Begins>(rt: &impl Abort, seat: &Seat<L>, messages: u64, number: u64) -> usize {
    let steps = (seat.slips().len() as u64).checked_sub(messages);
    let taken = steps.and_then(|steps| steps.checked_sub(number.saturating_sub(1)));
    usize::try_from(taken.expect(rt, "steps")).expect(rt, "a number")
}

/// A node is handed messages, and their packets, many at once, until a save fails; then packets more, a start anew, and all that is left of the packets.
fn seen<L: Begins, R: Wait + Abort>(
    rt: &R,
    cluster: &Cluster<FailingStore, L>,
    seat: &mut Seat<L>,
    life: Life,
    messages: u64,
) -> Seen {
    let stopped = carried(rt, cluster, seat, 1);
    let taken = behind(rt, seat, messages, stopped.0);
    let (_, broken) = carried(rt, cluster, seat, stopped.0);
    let Ok((slip, _life)) = cluster.restart(rt, seat, life) else {
        panic!(rt; "it starts anew");
    };
    let unfinished = slip.unfinished();
    let (_, rest) = carried(rt, cluster, seat, stopped.0);
    assert_same(rt, &rest, &None);
    (stopped, taken, broken, unfinished)
}

/// The same from its beginning, and whether the journal that is closed then has an entry for each slip.
fn seen_whole<L: Begins, R: Wait + Abort>(
    rt: &R,
    alloc: Global,
    blank: Blank,
    handed: Handed,
) -> (Seen, bool)
    requires name { blank.name ≡ L.name }
    requires parts { blank.parts ≡ L.parts }
    requires all { blank.parts ≡ 1000000 }
    requires numbers { L.numbers ≡ none_sent }
    requires begins { IsBeginning L.cluster L.kept handed.node }
    requires alone { L.cluster.nodes ≡ 1 }
{
    let Handed {
        node,
        life,
        messages,
    } = handed;
    let mut nodes = Vec::new(alloc);
    nodes.push(node).expect(rt, "memory");
    let cluster = Cluster::<FailingStore, L>::start(alloc, blank, nodes).expect(rt, "a cluster");
    let mut seat = cluster.seat(rt).expect(rt, "a seat");
    submitted(rt, alloc, &cluster, &mut seat, messages);
    let seen = seen(rt, &cluster, &mut seat, life, messages);
    let slips = seat.slips().len();
    (seen, entries(rt, alloc, cluster, seat) == slips)
}

/// What is seen of a fault.
fn assert_seen(
    rt: &(impl Wait + Abort),
    alloc: Global,
    (messages, save, leaves): Fault,
    (first, taken, number): (u64, usize, u64),
) {
    let handed = over_failing_store(rt, alloc, (messages, save, leaves));
    let found = seen_whole::<Brand, _>(rt, alloc, Blank::new(PARTS), handed);
    let unfinished = Unfinished {
        number,
        found: found_of(leaves),
    };
    let wanted = ((first, Some(DEVICE)), taken, Some(BROKEN), Some(unfinished));
    assert_same(rt, &found, &(wanted, true));
}

/// What a node finds of a save that leaves this.
fn found_of(leaves: Leaves) -> Found {
    match leaves {
        Leaves::Before => Found::Before,
        Leaves::After => Found::After,
    }
}

/// Faults; behind each the first packet whose save fails, how many steps of that group are taken, and the packet that the start anew names.
const FAULTS: &[(Fault, (u64, usize, u64))] = &[
    ((2, 1, Leaves::Before), (1, 0, 1)),
    ((2, 1, Leaves::After), (1, 1, 2)),
    ((5, 1, Leaves::Before), (1, 0, 1)),
    ((5, 1, Leaves::After), (1, 4, 5)),
    ((5, 2, Leaves::Before), (11, 0, 11)),
    ((5, 2, Leaves::After), (11, 4, 15)),
    ((64, 2, Leaves::Before), (129, 0, 129)),
    ((64, 2, Leaves::After), (129, 63, 192)),
];

/// The first save is that of the Prepares, from packet 1 on; the second that of the Proposes, behind them and the Promises. If all of a group is found its steps
/// are taken, but for the last one.
#[test]
fn a_start_anew_names_one_packet_of_those_whose_save_failed(rt: HostRuntime) {
    let alloc = rt.alloc();
    for (fault, wanted) in FAULTS {
        assert_seen(&rt, alloc, *fault, *wanted);
    }
}

/// A node is handed messages, and their packets, until a save fails; then a start anew, and ticks until the journal is full: how many entries it has as it closes.
fn entries_when_full<L: Begins, R: Wait + Abort>(
    rt: &R,
    alloc: Global,
    blank: Blank,
    handed: Handed,
) -> usize
    requires name { blank.name ≡ L.name }
    requires parts { blank.parts ≡ L.parts }
    requires all { blank.parts ≡ 1000000 }
    requires numbers { L.numbers ≡ none_sent }
    requires begins { IsBeginning L.cluster L.kept handed.node }
    requires alone { L.cluster.nodes ≡ 1 }
{
    let Handed {
        node,
        life,
        messages,
    } = handed;
    let mut nodes = Vec::new(alloc);
    nodes.push(node).expect(rt, "memory");
    let cluster = Cluster::<FailingStore, L>::start(alloc, blank, nodes).expect(rt, "a cluster");
    let mut seat = cluster.seat(rt).expect(rt, "a seat");
    submitted(rt, alloc, &cluster, &mut seat, messages);
    let (_, stopped) = carried(rt, &cluster, &mut seat, 1);
    assert_same(rt, &stopped, &Some(DEVICE));
    if cluster.restart(rt, &mut seat, life).is_err() {
        panic!(rt; "it starts anew");
    }
    let _ = filled(rt, alloc, &cluster, &mut seat);
    entries(rt, alloc, cluster, seat)
}

/// What a group claimed of the journal and did not use is free again: the journal has as many entries as ever.
#[test]
fn the_claims_of_a_group_whose_save_failed_are_given_back(rt: HostRuntime) {
    let alloc = rt.alloc();
    for leaves in [Leaves::Before, Leaves::After] {
        let handed = over_failing_store(&rt, alloc, (5, 1, leaves));
        let found = entries_when_full::<Brand, HostRuntime>(&rt, alloc, Blank::new(PARTS), handed);
        assert_same(&rt, &found, &200_000);
    }
}
