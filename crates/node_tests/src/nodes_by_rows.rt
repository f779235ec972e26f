//! What a node does with requests, packets, attempts and ticks.

use crate::same::assert_same;
use crate::walks::{alone, assert_part, assert_walk, input, opened, second};
use lines_of_tests::{
    ALONE, ATTEMPTS, Answer, LIVE, PACKETS, TICKS, answer_in, copied, first_other, node,
};
use mc_types::TypeFault;
use node_core::{GrantRefusal, Input, Node, Setup};
use stable_store::ListStore;
use std::alloc::Global;
use std::process::Abort;
use synod_acceptor::Packet;

// That a node, another one for each part, answers as the rows say.
fn assert_parts(rt: &impl Abort, alloc: Global, setup: Setup, parts: &str) {
    for part in parts.split("\n\n") {
        assert_walk(rt, alloc, setup, part);
    }
}

// The last line is of another answer.
const WRONG: &str = "\
a row that is wrong is found
query => Waits 1
back => Accepted 1";

#[test]
fn a_row_that_is_wrong_is_found(rt: HostRuntime) {
    let alloc = rt.alloc();
    let (mut node, _life) = opened(&rt, alloc, alone(&rt));
    let other = first_other(alloc, &mut node, WRONG);
    drop(node);
    assert_same(&rt, &other, &Some((1, ("Unknown", [1, 0, 0, 0]))));
}

#[test]
fn a_node_alone(rt: HostRuntime) {
    assert_parts(&rt, rt.alloc(), alone(&rt), ALONE);
}

#[test]
fn packets(rt: HostRuntime) {
    assert_parts(&rt, rt.alloc(), second(&rt), PACKETS);
}

#[test]
fn attempts(rt: HostRuntime) {
    assert_parts(&rt, rt.alloc(), second(&rt), ATTEMPTS);
}

#[test]
fn ticks(rt: HostRuntime) {
    assert_parts(&rt, rt.alloc(), second(&rt), TICKS);
}

// Votes that 89 messages are deleted, and then those on a live one.
fn many_decided(rt: &impl Abort, alloc: Global) -> String {
    let mut rows = String::from_str(alloc, "a live message is found among many\n").expect(
        rt, "memory",
    );
    for more in 1..90u8 {
        let votes = write!(
            rows,
            "deleted 1 {more} => Nothing\ndeleted 3 {more} => Nothing\n"
        );
        votes.expect(rt, "memory");
    }
    rows.push_str(LIVE).expect(rt, "memory");
    rows
}

#[test]
fn a_live_message_is_found_among_many_that_are_decided(rt: HostRuntime) {
    let rows = many_decided(&rt, rt.alloc());
    assert_walk(&rt, rt.alloc(), second(&rt), &rows);
}

// What a node would answer to a Propose that is let go, and what a copy of that says.
fn let_go(rt: &impl Abort, alloc: Global, node: &Node<ListStore>) -> (Answer, Answer) {
    let input = input(rt, alloc, "propose 1 262161");
    let pending = node.prepare_step(input).expect(rt, "a step");
    let answers = (answer_in(pending.outputs()), copied(pending.outputs()));
    drop(pending);
    answers
}

#[test]
fn what_is_prepared_goes_out_and_changes_nothing_before(rt: HostRuntime) {
    let alloc = rt.alloc();
    let (mut node, _life) = opened(&rt, alloc, second(&rt));
    let answers = let_go(&rt, alloc, &node);
    assert_part(&rt, alloc, &mut node, "afterwards\nask 3 => ToldNothing");
    drop(node);
    let voted = ("Voted", [262161, 0, 0, 0]);
    assert_same(&rt, &answers, &(voted, voted));
}

// Whether a node would give out the same at one line as at another.
fn alike_at(
    rt: &impl Abort,
    alloc: Global,
    node: &Node<ListStore>,
    one: &str,
    other: &str,
) -> bool {
    let one = node
        .prepare_step(input(rt, alloc, one))
        .expect(rt, "a step");
    let other = node
        .prepare_step(input(rt, alloc, other))
        .expect(rt, "a step");
    let alike = one.outputs().is(other.outputs());
    drop(one);
    drop(other);
    alike
}

#[test]
fn what_goes_out_is_compared_with_other_outputs(rt: HostRuntime) {
    let alloc = rt.alloc();
    let (node, _life) = opened(&rt, alloc, second(&rt));
    let alike = [
        alike_at(&rt, alloc, &node, "propose 1 262161", "propose 1 262161"),
        alike_at(&rt, alloc, &node, "propose 1 262161", "propose 1 262162"),
        alike_at(&rt, alloc, &node, "query", "query"),
        alike_at(&rt, alloc, &node, "query", "submit_nowhere"),
    ];
    drop(node);
    assert_same(&rt, &alike, &[true, false, true, false]);
}

// The packet that comes by a line.
fn packet(rt: &impl Abort, alloc: Global, line: &str) -> Packet {
    match input(rt, alloc, line) {
        Input::Packet(packet) => packet,
        _ => panic!(rt; "a packet"),
    }
}

// Whether a node takes the step of a packet quietly.
fn quiet_at(rt: &impl Abort, alloc: Global, node: &mut Node<ListStore>, line: &str) -> bool {
    let packet = packet(rt, alloc, line);
    let taken = node.take_quietly(&packet);
    drop(packet);
    taken
}

// No round of it runs, and it asks nothing. The first vote and the one that makes the chain known take memory.
#[test]
fn a_packet_that_changes_little_is_taken_quietly(rt: HostRuntime) {
    let alloc = rt.alloc();
    let (mut node, _life) = opened(&rt, alloc, second(&rt));
    let first = quiet_at(&rt, alloc, &mut node, "voted 1");
    assert_part(&rt, alloc, &mut node, "a first vote\nvoted 1 => Nothing");
    let quiet = [
        first,
        quiet_at(&rt, alloc, &mut node, "voted 1"),
        quiet_at(&rt, alloc, &mut node, "voted 3"),
        quiet_at(&rt, alloc, &mut node, "promise 1 262161"),
        quiet_at(&rt, alloc, &mut node, "tell 1"),
        quiet_at(&rt, alloc, &mut node, "propose 1 262161"),
    ];
    drop(node);
    assert_same(&rt, &quiet, &[false, true, false, true, true, false]);
}

#[test]
fn a_node_is_one_of_its_cluster(rt: HostRuntime) {
    let refused = (
        Setup::make(node(2).expect(&rt, "a node"), 1, 1, 172800).err(),
        Setup::make(node(1).expect(&rt, "a node"), 1, 100000, 172800).err(),
    );
    let out_of_range = Some(TypeFault::OutOfRange);
    assert_same(&rt, &refused, &(out_of_range, out_of_range));
    assert_same(&rt, &GrantRefusal::Closed.number(), &5);
}
