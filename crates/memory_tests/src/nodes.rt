//! Nodes over a list and over SQL, to which each kind of input comes.

ghost use Rattle.node_core.specs.Nodes.{IsLifeOf};

use crate::same::assert_same;
use desk::Request;
use lines_of_tests::{NOTHING, answer_in, answer_said, input, node, told_in};
use node_core::{Input, Life, Node, Outputs, Setup, StepFault, open_node};
use sql_store::SqlStore;
use stable_store::{ListStore, StableStore, StoreFault};
use std::alloc::Global;
use std::collections::VecDeque;
use std::process::Abort;
use synod_acceptor::Packet;

/// More packets than are ever left.
const MOST: usize = 50;

/// Of a node alone: what comes to it, and what it gives out. `back` stands for all packets that it gave out, as they come back.
pub const ALONE: &str = "\
query => Waits 1
back => Unknown 1
submit_with_receipt => Waits 2
back => Accepted 2 1000100001
query => Waits 3
back => Shown 3 1
submit_nowhere => Turned 11
tick 946684800 sme1 => Started 1000100001 1 262161
back => Nothing
grant => Granted 1 1
delivered => Started 1000100001 2 262161
back => Reported 1000100001 2 946684800
cancel => Waits 4
back => Kept 4
query => Waits 5
tick 946684829 => Asked
tick 946684830 => TooLate 5";

/// Of the second node of three.
const SECOND: &str = "\
ask 3 => ToldNothing
prepare 1 262162 => Promised
prepare 3 262161 => Refused 262162
propose 1 262161 => Refused 262162
propose 1 262162 => Voted 262162
ask 3 => Told 262162
promise 1 262162 => Nothing
refused 1 262162 524305 => Nothing
attempted 1 2 1 => Nothing
attempted 3 2 1 => Nothing
grant => Granted 1 1
failed => Started 1000100001 2 262162
tick 946944000 => Started 1000100001 2 524306";

/// What comes to a node.
#[derive(Clone, Copy)]
enum Comes<'a> {
    Line(&'a str),
    Packet(&'a Packet),
}

/// Whether it is a submit_sm without a route.
fn has_no_route(input: &Input) -> bool {
    matches!(input, Input::Request(_, Request::Submit(_, None)))
}

/// What comes, but for a submit_sm without a route: there was no memory for the account to which its message goes.
pub fn routed(input: Input) -> Option<Input> {
    if has_no_route(&input) {
        drop(input);
        return None;
    }
    Some(input)
}

/// None if there was no memory.
fn tried_input(alloc: Global, comes: Comes<'_>) -> Option<Input> {
    match comes {
        Comes::Line("submit_nowhere") => input(alloc, "submit_nowhere"),
        Comes::Line(line) => routed(input(alloc, line)?),
        Comes::Packet(packet) => match packet.copy() {
            Ok(packet) => Some(Input::Packet(packet)),
            Err(_) => None,
        },
    }
}

fn input_of(rt: &impl Abort, alloc: Global, comes: Comes<'_>) -> Input {
    match tried_input(alloc, comes) {
        Some(input) => input,
        None => tried_input(alloc, comes).expect(rt, "an input"),
    }
}

/// None if there was no memory, which is the only reason.
fn tried<S: StableStore>(rt: &impl Abort, node: &mut Node<S>, input: Input) -> Option<Outputs> {
    let fault = match node.prepare_step(input) {
        Ok(pending) => match node.commit(pending) {
            Ok(outputs) => return Some(outputs),
            Err(fault) => fault,
        },
        Err(fault) => fault,
    };
    assert_same(rt, &fault, &StepFault::Memory);
    None
}

/// What a node gives out at what comes, also if there was no memory for it at first.
fn taken<S: StableStore>(
    rt: &impl Abort,
    alloc: Global,
    node: &mut Node<S>,
    comes: Comes<'_>,
) -> Outputs {
    let input = input_of(rt, alloc, comes);
    match tried(rt, node, input) {
        Some(outputs) => outputs,
        None => {
            let again = input_of(rt, alloc, comes);
            tried(rt, node, again).expect(rt, "outputs")
        }
    }
}

/// Leaves the packets of outputs, for which there is room.
pub fn leave(rt: &impl Abort, outputs: Outputs, left: &mut VecDeque<Packet>) {
    for packet in outputs.packets {
        left.push_back(packet).expect(rt, "room");
    }
}

/// The last thing that a node tells as each packet that is left comes back to it.
fn last_told<S: StableStore>(
    rt: &impl Abort,
    alloc: Global,
    node: &mut Node<S>,
    left: &mut VecDeque<Packet>,
) -> (&'static str, [u64; 4]) {
    let mut last = NOTHING;
    for _ in 0..MOST {
        let Some(packet) = left.pop_front() else {
            break;
        };
        let outputs = taken(rt, alloc, node, Comes::Packet(&packet));
        let told = told_in(&outputs);
        leave(rt, outputs, left);
        drop(packet);
        if told != NOTHING {
            last = told;
        }
    }
    last
}

/// What a node answers to what comes by a row.
fn answer_to<S: StableStore>(
    rt: &impl Abort,
    alloc: Global,
    node: &mut Node<S>,
    left: &mut VecDeque<Packet>,
    comes: &str,
) -> (&'static str, [u64; 4]) {
    if comes == "back" {
        return last_told(rt, alloc, node, left);
    }
    let outputs = taken(rt, alloc, node, Comes::Line(comes));
    let answer = answer_in(&outputs);
    leave(rt, outputs, left);
    answer
}

/// Room for packets.
pub fn room(rt: &impl Abort, alloc: Global) -> VecDeque<Packet> {
    match VecDeque::with_capacity(alloc, MOST) {
        Ok(left) => left,
        Err(_) => VecDeque::with_capacity(alloc, MOST).expect(rt, "memory"),
    }
}

/// That a node answers as the rows say.
pub fn assert_rows<S: StableStore>(rt: &impl Abort, alloc: Global, node: &mut Node<S>, rows: &str) {
    let mut left = room(rt, alloc);
    for row in rows.lines() {
        let (comes, said) = row.split_once(" => ").expect(rt, "a row");
        let answer = answer_to(rt, alloc, node, &mut left, comes);
        assert_same(rt, &(row, Some(answer)), &(row, answer_said(said)));
    }
}

/// That of a node of so many.
pub fn setup(rt: &impl Abort, number: u64, nodes: u8) -> Setup {
    Setup::make(node(number).expect(rt, "a node"), nodes, 1, 172800).expect(rt, "a setup")
}

/// A node that opens over a store, also if there was no memory for it at first.
pub fn opened<S: StableStore + Drop>(
    rt: &impl Abort,
    alloc: Global,
    store: S,
    setup: Setup,
) -> (Node<S>, Life)
    ensures { IsLifeOf result.0 result.1 }
{
    let store = match open_node(alloc, store, setup) {
        Ok(opened) => return opened,
        Err((fault, store)) => {
            assert_same(rt, &fault, &StoreFault::Memory);
            store
        }
    };
    match open_node(alloc, store, setup) {
        Ok(opened) => opened,
        Err(_) => panic!(rt; "it opens"),
    }
}

/// That a node over a store answers as the rows say.
fn assert_walk<S: StableStore + Drop>(
    rt: &impl Abort,
    alloc: Global,
    store: S,
    setup: Setup,
    rows: &str,
) {
    let (mut node, life) = opened(rt, alloc, store, setup);
    assert_rows(rt, alloc, &mut node, rows);
    drop(life);
    drop(node);
}

#[test]
fn a_node_alone(rt: HostRuntime) {
    let alloc = rt.alloc();
    assert_walk(&rt, alloc, ListStore::make(alloc), setup(&rt, 1, 1), ALONE);
}

#[test]
fn the_second_of_three_nodes(rt: HostRuntime) {
    let alloc = rt.alloc();
    assert_walk(&rt, alloc, ListStore::make(alloc), setup(&rt, 2, 3), SECOND);
}

#[test]
fn a_node_alone_over_sql(rt: HostRuntime) {
    let alloc = rt.alloc();
    let store = match SqlStore::in_memory(alloc) {
        Ok(store) => store,
        Err(fault) => {
            assert_same(&rt, &fault, &StoreFault::Memory);
            SqlStore::in_memory(alloc).expect(&rt, "a store")
        }
    };
    assert_walk(&rt, alloc, store, setup(&rt, 1, 1), ALONE);
}
