//! An attempt that is granted by a permit, and a node that opens again.

ghost use Rattle.node_core.specs.Nodes.{IsLifeOf};

use crate::nodes::{assert_rows, opened, setup};
use crate::same::assert_same;
use delivery::Outcome;
use lines_of_tests::{answer_in, first_id};
use node_core::{Life, Node, Outputs, Permit, StepFault};
use stable_store::{ListStore, StoreFault};
use std::process::Abort;

/// A message is taken, and its first attempt is chosen.
const ATTEMPT: &str = "\
submit_with_receipt => Waits 1
back => Accepted 1 1000100001
tick 946684800 sme1 => Started 1000100001 1 262161
back => Nothing";

/// What comes after a node opened again: it knows its message.
const LATER: &str = "\
query => Waits 1
back => Shown 1 1";

/// The permit of the attempt, and what was given out with it; none if there was no memory.
fn tried<'l>(
    rt: &impl Abort,
    node: &mut Node<ListStore>,
    life: &'l Life,
) -> Option<(Permit<'l>, Outputs)> {
    match node.grant(life, first_id().expect(rt, "an id")) {
        Ok(granted) => Some(granted),
        Err(fault) => {
            assert_same(rt, &fault, &StepFault::Memory);
            None
        }
    }
}

fn granted<'l>(rt: &impl Abort, node: &mut Node<ListStore>, life: &'l Life) -> Permit<'l> {
    let granted = match tried(rt, node, life) {
        Some(granted) => granted,
        None => {
            let Some(granted) = tried(rt, node, life) else {
                panic!(rt; "a permit");
            };
            granted
        }
    };
    let (permit, outputs) = granted;
    let answer = answer_in(&outputs);
    drop(outputs);
    if answer != ("Granted", [1, 1, 0, 0]) {
        permit.abandon();
        panic!(rt; "the first attempt");
    }
    permit
}

/// The permit comes back if there was no memory, and only then.
fn concluded(rt: &impl Abort, node: &mut Node<ListStore>, permit: Permit<'_>) -> Outputs {
    let back = match node.answered(permit, Outcome::Delivered) {
        Ok(outputs) => return outputs,
        Err((StepFault::Memory, Some(back))) => back,
        Err((_, Some(back))) => {
            back.abandon();
            panic!(rt; "no permit comes back");
        }
        Err((_, None)) => panic!(rt; "a permit comes back"),
    };
    match node.answered(back, Outcome::Delivered) {
        Ok(outputs) => outputs,
        Err((_, back)) => {
            if let Some(back) = back {
                back.abandon();
            }
            panic!(rt; "outputs");
        }
    }
}

#[test]
fn an_attempt_is_granted_and_delivered(rt: HostRuntime) {
    let alloc = rt.alloc();
    let (mut node, life) = opened(&rt, alloc, ListStore::make(alloc), setup(&rt, 1, 1));
    assert_rows(&rt, alloc, &mut node, ATTEMPT);
    let permit = granted(&rt, &mut node, &life);
    let outputs = concluded(&rt, &mut node, permit);
    let answer = answer_in(&outputs);
    drop(outputs);
    drop(node);
    assert_same(&rt, &answer, &("Started", [1000100001, 2, 262161, 0]));
}

/// The next life of a node that opens again, also if there was no memory for it at first.
fn reopened(rt: &impl Abort, node: &mut Node<ListStore>, life: Life) -> Life
    requires { IsLifeOf node.old life }
{
    let life = match node.reopen(life) {
        Ok(next) => return next,
        Err((fault, life)) => {
            assert_same(rt, &fault, &StoreFault::Memory);
            life
        }
    };
    match node.reopen(life) {
        Ok(next) => next,
        Err(_) => panic!(rt; "it opens again"),
    }
}

/// The rows are played by a node that is lent, so it is not known to live this life any more.
fn checked(rt: &impl Abort, node: &Node<ListStore>, life: &Life)
    ensures { IsLifeOf node.now life.now }
{
    if !node.is_life(life) {
        panic!(rt; "its life");
    }
}

#[test]
fn a_node_opens_again(rt: HostRuntime) {
    let alloc = rt.alloc();
    let (mut node, life) = opened(&rt, alloc, ListStore::make(alloc), setup(&rt, 1, 1));
    assert_rows(&rt, alloc, &mut node, ATTEMPT);
    checked(&rt, &node, &life);
    let next = reopened(&rt, &mut node, life);
    assert_same(&rt, &next.incarnation().number(), &2);
    drop(next);
    assert_rows(&rt, alloc, &mut node, LATER);
    drop(node);
}
