//! Packets whose steps are prepared and saved together.

ghost use Rattle.std.specs.Prelude.{◌≡◌, []};
ghost use Rattle.node_core.specs.Nodes.{IsLifeOf};

use crate::same::assert_same;
use crate::walks::{assert_part, input, opened, opened_over, second};
use lines_of_tests::{Answer, answer_in};
use mc_types::{MsgId, Slot};
use node_core::{Found, Input, JoinFault, Life, MOST_GROUPED, Node, Outputs, StepFault, StepGroup};
use stable_store::{FailingStore, Found as Leaves, GroupStore, ListStore, StableStore, StoreFault};
use std::alloc::Global;
use std::process::Abort;
use synod_acceptor::Packet;

// The packet that comes by a line.
fn packet(rt: &impl Abort, alloc: Global, comes: &str) -> Packet {
    match input(rt, alloc, comes) {
        Input::Packet(packet) => packet,
        _ => panic!(rt; "a packet"),
    }
}

// The Prepare that comes by a line, for the message of this number behind the first.
fn prepare(rt: &impl Abort, alloc: Global, comes: &str, number: u64) -> Packet {
    let Packet::Prepare { from, slot, ballot } = packet(rt, alloc, comes) else {
        panic!(rt; "a Prepare");
    };
    let id = slot.id.number().saturating_add(number);
    let slot = Slot {
        id: MsgId::of_number(id).expect(rt, "an id"),
        place: slot.place,
    };
    Packet::Prepare { from, slot, ballot }
}

// Why a packet does not join a group; none if it joins.
fn fault_of<S: StableStore>(
    node: &Node<S>,
    group: &mut StepGroup,
    packet: Packet,
) -> Option<JoinFault>
    requires { group.old.was ≡ node.now.kept }
    ensures { group.new.was ≡ group.old.was }
{
    match node.join(group, packet) {
        Ok(()) => None,
        Err((fault, packet)) => {
            drop(packet);
            Some(fault)
        }
    }
}

// Prepares of the first messages, up to this number, by a line, in a group.
fn group_of<S: StableStore>(
    rt: &impl Abort,
    alloc: Global,
    node: &Node<S>,
    comes: &str,
    number: u64,
) -> StepGroup
    ensures { result.was ≡ node.now.kept }
{
    let mut group = node.begin_group().expect(rt, "a group");
    for next in 0..number {
        let packet = prepare(rt, alloc, comes, next);
        assert_same(rt, &fault_of(node, &mut group, packet), &None);
    }
    group
}

// What a node answers to one packet that is taken alone.
fn taken_alone<S: StableStore>(rt: &impl Abort, node: &mut Node<S>, packet: Packet) -> Answer {
    let pending = node
        .prepare_step(Input::Packet(packet))
        .expect(rt, "a step");
    answer_in(&node.commit(pending).expect(rt, "it is saved"))
}

// That a node which takes the first messages' Prepares by a line one by one answers each so.
fn assert_as_alone<S: StableStore>(
    rt: &impl Abort,
    alloc: Global,
    node: &mut Node<S>,
    comes: &str,
    given: &[Outputs],
) {
    for (number, outputs) in (0..64).zip(given.iter()) {
        let packet = prepare(rt, alloc, comes, number);
        let alone = taken_alone(rt, node, packet);
        assert_same(rt, &answer_in(outputs), &alone);
    }
}

// What the steps of three packets give out.
fn said(rt: &impl Abort, group: &StepGroup) -> [Answer; 3] {
    let [first, second, third] = group.outputs() else {
        panic!(rt; "three outputs");
    };
    [answer_in(first), answer_in(second), answer_in(third)]
}

// A node that promised to vote for the first message below no ballot but this.
fn promised(rt: &impl Abort, alloc: Global) -> Node<ListStore> {
    let (mut node, _life) = opened(rt, alloc, second(rt));
    assert_part(rt, alloc, &mut node, "before\nprepare 1 262162 => Promised");
    node
}

#[test]
fn packets_of_three_messages_join_in_their_order(rt: HostRuntime) {
    let alloc = rt.alloc();
    let node = promised(&rt, alloc);
    let mut group = node.begin_group().expect(&rt, "a group");
    let faults = [
        fault_of(&node, &mut group, packet(&rt, alloc, "propose 1 262162")),
        fault_of(
            &node,
            &mut group,
            prepare(&rt, alloc, "prepare 1 262161", 2),
        ),
        fault_of(
            &node,
            &mut group,
            prepare(&rt, alloc, "prepare 1 262161", 1),
        ),
    ];
    assert_same(&rt, &faults, &[None, None, None]);
    let wanted = [
        ("Voted", [262162, 0, 0, 0]),
        ("Promised", [0; 4]),
        ("Promised", [0; 4]),
    ];
    assert_same(&rt, &said(&rt, &group), &wanted);
    assert_same(&rt, &group.changes().len(), &3);
}

#[test]
fn a_packet_that_does_not_join_is_handed_back(rt: HostRuntime) {
    let alloc = rt.alloc();
    let node = promised(&rt, alloc);
    let mut group = node.begin_group().expect(&rt, "a group");
    let faults = [
        fault_of(&node, &mut group, packet(&rt, alloc, "ask 3")),
        fault_of(&node, &mut group, packet(&rt, alloc, "prepare 1 262161")),
        fault_of(&node, &mut group, packet(&rt, alloc, "prepare 1 262162")),
        fault_of(&node, &mut group, packet(&rt, alloc, "propose 1 262162")),
        fault_of(&node, &mut group, packet(&rt, alloc, "prepare 1 262163")),
    ];
    let wanted = [
        Some(JoinFault::Alone),
        Some(JoinFault::Idle),
        Some(JoinFault::Idle),
        None,
        Some(JoinFault::SameMessage),
    ];
    assert_same(&rt, &faults, &wanted);
    assert_same(&rt, &group.len(), &1);
}

#[test]
fn a_group_of_64_is_saved_as_its_packets_alone(rt: HostRuntime) {
    let alloc = rt.alloc();
    let mut node = promised(&rt, alloc);
    let mut group = group_of(&rt, alloc, &node, "prepare 1 262163", 64);
    let packet = prepare(&rt, alloc, "prepare 1 262163", 64);
    let fault = fault_of(&node, &mut group, packet);
    let full = (Some(JoinFault::Full), MOST_GROUPED);
    assert_same(&rt, &(fault, group.len()), &full);
    let given = node.commit_all(group).expect(&rt, "it is saved");
    assert_same(&rt, &given.len(), &64);
    assert_as_alone(
        &rt,
        alloc,
        &mut promised(&rt, alloc),
        "prepare 1 262163",
        &given,
    );
    let again = group_of(&rt, alloc, &node, "prepare 1 262165", 64);
    let given = node.commit_all(again).expect(&rt, "it is saved");
    assert_same(&rt, &given.len(), &64);
}

#[test]
fn a_group_of_no_packets_saves_nothing(rt: HostRuntime) {
    let alloc = rt.alloc();
    let store = failing(alloc, Leaves::Before);
    let (mut node, _life) = opened_over(&rt, alloc, store, second(&rt));
    let group = node.begin_group().expect(&rt, "a group");
    let given = node.commit_all(group).expect(&rt, "nothing is saved");
    assert_same(&rt, &(given.len(), node.is_broken()), &(0, false));
}

// A store of which the first save fails and leaves that.
fn failing(alloc: Global, leaves: Leaves) -> FailingStore {
    FailingStore::make(ListStore::make(alloc), 1, leaves)
}

// A node of which the save of a group of so many Prepares failed: it is not opened again before that is settled.
fn halted(
    rt: &impl Abort,
    alloc: Global,
    leaves: Leaves,
    packets: u64,
) -> (Node<FailingStore>, Life)
    ensures { IsLifeOf result.0 result.1 }
{
    let (mut node, first) = opened_over(rt, alloc, failing(alloc, leaves), second(rt));
    let group = group_of(rt, alloc, &node, "prepare 1 262162", packets);
    let Err(StepFault::Device) = node.commit_all(group) else {
        panic!(rt; "its save fails");
    };
    assert_same(rt, &(node.is_broken(), node.waits()), &(true, true));
    let Err((StoreFault::Memory, life)) = node.reopen(first) else {
        panic!(rt; "it waits");
    };
    (node, life)
}

// What a node tells of the save in which it stopped: the serial of the message of its Prepare, and what was stored.
fn told<S: StableStore>(node: &Node<S>) -> Option<(u64, Found)> {
    let stopped = node.stopped()?;
    match &stopped.packet {
        Packet::Prepare { slot, .. } => Some((slot.id.number() % 100, stopped.found)),
        _ => None,
    }
}

// How many packets a group has, what the save leaves that fails, how many steps are taken once it is settled, which message is told then, and what was
// stored.
type Row = (u64, Leaves, usize, u64, Found);

const SETTLED: &[Row] = &[
    (1, Leaves::Before, 0, 1, Found::Before),
    (1, Leaves::After, 0, 1, Found::After),
    (2, Leaves::Before, 0, 1, Found::Before),
    (2, Leaves::After, 1, 2, Found::After),
    (5, Leaves::Before, 0, 1, Found::Before),
    (5, Leaves::After, 4, 5, Found::After),
    (64, Leaves::Before, 0, 1, Found::Before),
    (64, Leaves::After, 63, 64, Found::After),
];

// That the node answers a lower Prepare for the last message of a group as what was stored says.
fn assert_stored(
    rt: &impl Abort,
    alloc: Global,
    node: &mut Node<FailingStore>,
    packets: u64,
    found: Found,
) {
    let wanted = match found {
        Found::Before => ("Promised", [0; 4]),
        Found::After => ("Refused", [262162, 0, 0, 0]),
    };
    let last = prepare(rt, alloc, "prepare 1 262161", packets.saturating_sub(1));
    assert_same(rt, &taken_alone(rt, node, last), &wanted);
}

// That a group is settled so, and told when the node opens again.
fn assert_settled(rt: &impl Abort, alloc: Global, (packets, leaves, steps, serial, found): Row) {
    let (mut node, first) = halted(rt, alloc, leaves, packets);
    let given = node.settle().expect(rt, "it is settled");
    assert_same(rt, &(given.len(), node.waits()), &(steps, false));
    let (mut other, _life) = opened(rt, alloc, second(rt));
    assert_as_alone(rt, alloc, &mut other, "prepare 1 262162", &given);
    let Ok(_second) = node.reopen(first) else {
        panic!(rt; "it opens again");
    };
    assert_same(rt, &told(&node), &Some((serial, found)));
    assert_stored(rt, alloc, &mut node, packets, found);
}

#[test]
fn a_group_whose_save_fails_is_settled(rt: HostRuntime) {
    let alloc = rt.alloc();
    for row in SETTLED {
        assert_settled(&rt, alloc, *row);
    }
}

#[test]
fn a_node_in_which_no_group_waits_has_nothing_to_settle(rt: HostRuntime) {
    let alloc = rt.alloc();
    let mut node = promised(&rt, alloc);
    let given = node.settle().expect(&rt, "nothing waits");
    assert_same(&rt, &(given.len(), node.is_broken()), &(0, false));
}
