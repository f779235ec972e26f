//! Attempts that a node grants by a permit.

use crate::same::assert_same;
use crate::walks::{alone, assert_part, opened, second};
use delivery::Outcome;
use fate_chain::Chain;
use lines_of_tests::{first_id, put_back};
use mc_types::MsgId;
use node_core::{GrantRefusal, Input, Life, Node, Outputs, Permit, StepFault};
use pdu_tables::State;
use stable_store::ListStore;
use std::alloc::Global;
use std::collections::VecDeque;
use std::process::Abort;
use synod_acceptor::Packet;

// A submit_sm is taken, and its first attempt is chosen.
const ATTEMPT: &str = "\
an attempt is chosen
submit_with_receipt => Waits 1
back => Accepted 1 1000100001
tick 946684800 sme1 => Started 1000100001 1 262161
back => Nothing";

fn outputs_of(rt: &impl Abort, node: &mut Node<ListStore>, packet: Packet) -> Outputs {
    let pending = node
        .prepare_step(Input::Packet(packet))
        .expect(rt, "a step");
    let outputs = node.commit(pending);
    outputs.expect(rt, "outputs")
}

// The state of the message whose receipt is due first by the outputs, if one is. Their packets are left.
fn due_in(rt: &impl Abort, outputs: Outputs, left: &mut VecDeque<Packet>) -> Option<State> {
    let due = outputs.receipts.first().map(Chain::state);
    put_back(outputs, left).expect(rt, "memory");
    due
}

// The same as the packets of the outputs come back to the node.
fn receipt_after(
    rt: &impl Abort,
    node: &mut Node<ListStore>,
    outputs: Outputs,
    left: &mut VecDeque<Packet>,
) -> Option<State> {
    let mut due = due_in(rt, outputs, left);
    for _ in 0..20 {
        let Some(packet) = left.pop_front() else {
            break;
        };
        let outputs = outputs_of(rt, node, packet);
        due = due.or(due_in(rt, outputs, left));
    }
    due
}

// Why the attempt is not granted, if it is not. Else its permit is given up.
fn why_not(rt: &impl Abort, node: &mut Node<ListStore>, life: &Life) -> Option<StepFault> {
    match node.grant(life, first_id().expect(rt, "an id")) {
        Ok((permit, outputs)) => {
            permit.abandon();
            drop(outputs);
            None
        }
        Err(fault) => Some(fault),
    }
}

// The attempt of a permit was delivered. A permit that comes back is given up.
fn spent(node: &mut Node<ListStore>, permit: Permit) -> Result<Outputs, StepFault> {
    match node.answered(permit, Outcome::Delivered) {
        Ok(outputs) => Ok(outputs),
        Err((fault, Some(back))) => {
            back.abandon();
            Err(fault)
        }
        Err((fault, None)) => Err(fault),
    }
}

// The permit of the attempt, and the number of the attempt in the outputs.
fn granted<'l>(rt: &impl Abort, node: &mut Node<ListStore>, life: &'l Life) -> (Permit<'l>, u8) {
    let id = first_id().expect(rt, "an id");
    let (permit, outputs) = node.grant(life, id).expect(rt, "a permit");
    let number = outputs.granted.as_ref().map_or(0, Chain::attempts);
    drop(outputs);
    (permit, number)
}

#[test]
fn an_attempt_is_granted_by_a_permit_and_delivered(rt: HostRuntime) {
    let alloc = rt.alloc();
    let mut left = VecDeque::new(alloc);
    let (mut node, life) = opened(&rt, alloc, alone(&rt));
    assert_part(&rt, alloc, &mut node, ATTEMPT);
    let (permit, number) = granted(&rt, &mut node, &life);
    let attempt = (permit.id().number(), permit.slot().place, number);
    let again = why_not(&rt, &mut node, &life);
    let outputs = spent(&mut node, permit).expect(&rt, "outputs");
    let state = receipt_after(&rt, &mut node, outputs, &mut left);
    drop(node);
    assert_same(&rt, &attempt, &(1000100001, 1, 1));
    let refused = Some(StepFault::Grant(GrantRefusal::AlreadyGranted));
    assert_same(&rt, &(again, state), &(refused, Some(State::Delivered)));
}

#[test]
fn a_strange_life_is_refused_last_and_an_attempt_given_up_stays_granted(rt: HostRuntime) {
    let alloc = rt.alloc();
    let (other, strange) = opened(&rt, alloc, second(&rt));
    drop(other);
    let (mut node, life) = opened(&rt, alloc, alone(&rt));
    let early = why_not(&rt, &mut node, &strange);
    assert_part(&rt, alloc, &mut node, ATTEMPT);
    let reasons = [
        early,
        why_not(&rt, &mut node, &strange),
        why_not(&rt, &mut node, &life),
        why_not(&rt, &mut node, &life),
    ];
    drop(node);
    let wanted = [
        Some(StepFault::Grant(GrantRefusal::NotChosen)),
        Some(StepFault::StrangeLife),
        None,
        Some(StepFault::Grant(GrantRefusal::AlreadyGranted)),
    ];
    assert_same(&rt, &reasons, &wanted);
}

// What another node of the cluster answers to a permit of a node alone.
fn spent_at(rt: &impl Abort, alloc: Global, other: &mut Node<ListStore>) -> Option<StepFault> {
    let (mut node, life) = opened(rt, alloc, alone(rt));
    assert_part(rt, alloc, &mut node, ATTEMPT);
    let (permit, _number) = granted(rt, &mut node, &life);
    drop(node);
    spent(other, permit).err()
}

#[test]
fn a_permit_is_worth_nothing_at_another_node(rt: HostRuntime) {
    let (mut other, _strange) = opened(&rt, rt.alloc(), second(&rt));
    let spent = spent_at(&rt, rt.alloc(), &mut other);
    drop(other);
    assert_same(&rt, &spent, &Some(StepFault::NotGranted));
}

// Two submit_sms are taken, and the first attempt of each is chosen.
const TWO_ATTEMPTS: &str = "\
two attempts are chosen
submit_with_receipt => Waits 1
submit_with_receipt => Waits 2
back => Accepted 2 1000100002
tick 946684800 sme1 => Other
back => Nothing";

// The number of the next message behind this one whose attempt could be granted.
fn grantable_behind(node: &Node<ListStore>, after: Option<MsgId>) -> Option<u64> {
    let id = node.grantable_after(after)?;
    Some(id.number())
}

// Of the first message of all, and of the first one behind message 1000100001.
fn grantable(node: &Node<ListStore>) -> [Option<u64>; 2] {
    [
        grantable_behind(node, None),
        grantable_behind(node, first_id()),
    ]
}

#[test]
fn an_attempt_is_found_until_it_is_granted(rt: HostRuntime) {
    let alloc = rt.alloc();
    let (mut node, life) = opened(&rt, alloc, alone(&rt));
    let before = grantable(&node);
    assert_part(&rt, alloc, &mut node, TWO_ATTEMPTS);
    let chosen = grantable(&node);
    let refused = why_not(&rt, &mut node, &life);
    let left = grantable(&node);
    drop(node);
    let both = [Some(1000100001), Some(1000100002)];
    assert_same(&rt, &(before, chosen), &([None, None], both));
    let last = [Some(1000100002), Some(1000100002)];
    assert_same(&rt, &(refused, left), &(None, last));
}
