//! Walks of a node over what comes to it, a line each.

use crate::answers::{Answer, NOTHING, UNREAD, answer_in, answer_said, copied, failed, told_in};
use crate::inputs::input;
use node_core::{Input, Node, Outputs};
use stable_store::StableStore;
use std::alloc::{AllocError, Global};
use std::collections::VecDeque;
use synod_acceptor::Packet;

/// What a step gives out.
#[derive(Clone, Copy)]
pub struct Given {
    /// What it gives out, packets too.
    pub answer: Answer,
    /// What it tells, whatever packets are sent besides.
    pub told: Answer,
}

fn alike(answer: Answer) -> Given {
    Given {
        answer,
        told: answer,
    }
}

/// Leaves the packets of outputs. After an `Err`, which is want of memory, some of them.
pub fn put_back(outputs: Outputs, left: &mut VecDeque<Packet>) -> Result<(), AllocError> {
    for packet in outputs.packets {
        left.push_back(packet)?;
    }
    Ok(())
}

/// What outputs say, if their copy says the same. Their packets are left.
fn leave(outputs: Outputs, left: &mut VecDeque<Packet>) -> Given {
    let given = Given {
        answer: answer_in(&outputs),
        told: told_in(&outputs),
    };
    let copied = copied(&outputs);
    if put_back(outputs, left).is_err() {
        return alike(UNREAD);
    }
    if copied != given.answer {
        return alike(("Copied", [0; 4]));
    }
    given
}

/// What a node gives out at an input, once it is committed. Its packets are left.
pub fn step<S: StableStore>(
    node: &mut Node<S>,
    input: Input,
    left: &mut VecDeque<Packet>,
) -> Given {
    match node.prepare_step(input) {
        Ok(pending) => match node.commit(pending) {
            Ok(outputs) => leave(outputs, left),
            Err(fault) => alike(failed("Uncommitted", fault)),
        },
        Err(fault) => alike(failed("Unprepared", fault)),
    }
}

/// The last thing that a node tells as each packet that is left comes back to it.
fn last_told<S: StableStore>(node: &mut Node<S>, left: &mut VecDeque<Packet>) -> Answer {
    let mut last = NOTHING;
    for _ in 0..20 {
        let Some(packet) = left.pop_front() else {
            break;
        };
        let told = step(node, Input::Packet(packet), left).told;
        if told != NOTHING {
            last = told;
        }
    }
    last
}

/// What a node answers to what comes; to `back` that is the last thing that it tells.
fn answer_to<S: StableStore>(
    alloc: Global,
    node: &mut Node<S>,
    left: &mut VecDeque<Packet>,
    comes: &str,
) -> Answer {
    if comes == "back" {
        return last_told(node, left);
    }
    match input(alloc, comes) {
        Some(input) => step(node, input, left).answer,
        None => UNREAD,
    }
}

/// What the node answers to what comes by a row, if it is not what the row says.
fn other_than<S: StableStore>(
    alloc: Global,
    node: &mut Node<S>,
    left: &mut VecDeque<Packet>,
    row: &str,
) -> Option<Answer> {
    let Some((comes, said)) = row.split_once(" => ") else {
        return Some(UNREAD);
    };
    let answer = answer_to(alloc, node, left, comes);
    if answer_said(said) == Some(answer) {
        return None;
    }
    Some(answer)
}

/// The first row of a part at which the node answers otherwise: its number, from 0, and the answer. The first line of a part says what its
/// rows show.
pub fn first_other<S: StableStore>(
    alloc: Global,
    node: &mut Node<S>,
    part: &str,
) -> Option<(usize, Answer)> {
    let mut left = VecDeque::new(alloc);
    for (number, row) in part.lines().skip(1).enumerate() {
        if let Some(answer) = other_than(alloc, node, &mut left, row) {
            return Some((number, answer));
        }
    }
    None
}
