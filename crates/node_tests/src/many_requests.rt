//! Many requests of one message, which are answered by one step.

use crate::same::assert_same;
use crate::walks::{alone, assert_part, input, opened, second};
use lines_of_tests::put_back;
use node_core::{Input, Node, Outputs};
use stable_store::ListStore;
use std::alloc::Global;
use std::collections::VecDeque;
use std::process::Abort;
use synod_acceptor::Packet;

// What a node gives out at what comes.
fn outputs_at(rt: &impl Abort, node: &mut Node<ListStore>, comes: Input) -> Outputs {
    let pending = node.prepare_step(comes).expect(rt, "a step");
    let outputs = node.commit(pending);
    outputs.expect(rt, "outputs")
}

// How many packets, replies and receipts outputs have, and whether their copy is alike.
fn counted(rt: &impl Abort, outputs: Outputs) -> ([usize; 3], bool) {
    let copy = outputs.copy().expect(rt, "memory");
    let alike = outputs.is(&copy);
    drop(copy);
    let counts = [
        outputs.packets.len(),
        outputs.replies.len(),
        outputs.receipts.len(),
    ];
    drop(outputs);
    (counts, alike)
}

// Hands in what comes by a line, and leaves what the node sends.
fn hand_in(
    rt: &impl Abort,
    alloc: Global,
    node: &mut Node<ListStore>,
    line: &str,
    left: &mut VecDeque<Packet>,
) {
    let outputs = outputs_at(rt, node, input(rt, alloc, line));
    put_back(outputs, left).expect(rt, "memory");
}

// So many query_sms wait at a node.
fn ask(
    rt: &impl Abort,
    alloc: Global,
    node: &mut Node<ListStore>,
    count: usize,
    left: &mut VecDeque<Packet>,
) {
    for _ in 0..count {
        hand_in(rt, alloc, node, "query", left);
    }
}

fn counted_at(
    rt: &impl Abort,
    alloc: Global,
    node: &mut Node<ListStore>,
    line: &str,
) -> ([usize; 3], bool) {
    let outputs = outputs_at(rt, node, input(rt, alloc, line));
    counted(rt, outputs)
}

// What a node gives out at which so many query_sms wait, after 29 seconds and after 30.
fn asked_again(rt: &impl Abort, alloc: Global, count: usize) -> [([usize; 3], bool); 2] {
    let mut left = VecDeque::new(alloc);
    let (mut node, _life) = opened(rt, alloc, second(rt));
    ask(rt, alloc, &mut node, count, &mut left);
    drop(left);
    let counts = [
        counted_at(rt, alloc, &mut node, "tick 946684829"),
        counted_at(rt, alloc, &mut node, "tick 946684830"),
    ];
    drop(node);
    counts
}

#[test]
fn each_of_many_requests_waits_for_30_seconds(rt: HostRuntime) {
    for count in [12, 500] {
        let counts = asked_again(&rt, rt.alloc(), count);
        assert_same(
            &rt,
            &counts,
            &[([count, 0, 0], true), ([0, count, 0], true)],
        );
    }
}

const GRANTED: &str = "\
an attempt is granted
submit_with_receipt => Waits 1
back => Accepted 1 1000100001
tick 946684800 sme1 => Started 1000100001 1 262161
back => Nothing
grant => Granted 1 1";

// Whether it is a vote for the chain of a message that was taken, attempted and delivered, and whose receipt is told.
fn is_of_the_told(packet: &Packet) -> bool {
    match packet {
        Packet::Voted { vote, .. } => vote.chain.place() == 3,
        _ => false,
    }
}

// Each packet that is left comes back, up to that vote; it is left out.
fn up_to_the_told(
    rt: &impl Abort,
    node: &mut Node<ListStore>,
    left: &mut VecDeque<Packet>,
) -> Packet {
    for _ in 0..20 {
        let packet = left.pop_front().expect(rt, "a packet");
        if is_of_the_told(&packet) {
            return packet;
        }
        let outputs = outputs_at(rt, node, Input::Packet(packet));
        put_back(outputs, left).expect(rt, "memory");
    }
    panic!(rt; "a vote");
}

// Each packet that is left comes back.
fn settle(rt: &impl Abort, node: &mut Node<ListStore>, left: &mut VecDeque<Packet>) {
    for _ in 0..100 {
        let Some(packet) = left.pop_front() else {
            break;
        };
        let outputs = outputs_at(rt, node, Input::Packet(packet));
        put_back(outputs, left).expect(rt, "memory");
    }
}

// What a node alone gives out as it knows that the receipt is told, and twelve query_sms wait for that.
fn told_at_once(rt: &impl Abort, alloc: Global) -> ([usize; 3], bool) {
    let mut left = VecDeque::new(alloc);
    let (mut node, _life) = opened(rt, alloc, alone(rt));
    assert_part(rt, alloc, &mut node, GRANTED);
    hand_in(rt, alloc, &mut node, "delivered", &mut left);
    let vote = up_to_the_told(rt, &mut node, &mut left);
    ask(rt, alloc, &mut node, 12, &mut left);
    settle(rt, &mut node, &mut left);
    drop(left);
    let outputs = outputs_at(rt, &mut node, Input::Packet(vote));
    drop(node);
    counted(rt, outputs)
}

#[test]
fn twelve_requests_are_answered_as_the_receipt_goes_out(rt: HostRuntime) {
    let counts = told_at_once(&rt, rt.alloc());
    assert_same(&rt, &counts, &([0, 12, 1], true));
}
