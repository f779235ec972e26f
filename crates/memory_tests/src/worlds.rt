//! Two worlds in which the same happens: at most one of them is refused memory, and both give the same.

use crate::nodes::routed;
use crate::same::assert_same;
use lines_of_tests::{input, node};
use mc_types::NodeNo;
use node_core::{Found, Input};
use std::alloc::Global;
use std::process::Abort;
use world::{Given, StartFault, Step, World, WorldFault};

/// What happens at a node: an input, `crash` at a packet, or `restart`; or `settle`, if each packet from that number on comes to each node.
const ROWS: &[(&str, u64, u64)] = &[
    ("tick 1706659200", 1, 0),
    ("tick 1706659200", 2, 0),
    ("tick 1706659200", 3, 0),
    ("submit_with_receipt", 1, 0),
    ("settle", 0, 1),
    ("tick 1706659200 sme1", 1, 0),
    ("settle", 0, 5),
    ("grant", 1, 0),
    ("delivered", 1, 0),
    ("settle", 0, 9),
    ("query", 3, 0),
    ("crash", 2, 13),
    ("restart", 2, 0),
    ("settle", 0, 13),
    ("cancel", 2, 0),
    ("settle", 0, 17),
];

/// What is given out: a ticket or 0, how many replies, receipts, attempts and packets.
type Told = [u64; 5];

fn told_by(given: &Given) -> Told {
    [
        given.ticket.unwrap_or(0),
        given.replies.len() as u64,
        given.receipts.len() as u64,
        u64::from(given.granted.is_some()),
        given.packets as u64,
    ]
}

fn started(rt: &impl Abort, alloc: Global) -> World {
    match World::start(alloc, 3, 1, 259_200) {
        Ok(world) => world,
        Err(fault) => {
            assert_same(rt, &fault, &StartFault::Memory);
            World::start(alloc, 3, 1, 259_200).expect(rt, "a world")
        }
    }
}

/// None if there was no memory.
fn tried_step(alloc: Global, node: NodeNo, (comes, _, number): (&str, u64, u64)) -> Option<Step> {
    match comes {
        "come" => Some(Step::Deliver { number, node }),
        "crash" => Some(Step::Crash {
            node,
            number,
            found: Found::After,
        }),
        "restart" => Some(Step::Restart { node }),
        _ => step_with(node, routed(input(alloc, comes)?)?),
    }
}

fn step_with(node: NodeNo, input: Input) -> Option<Step> {
    match input {
        Input::Request(account, request) => Some(Step::Request {
            node,
            account,
            request,
        }),
        Input::Tick(moment, reach) => Some(Step::Tick {
            node,
            moment,
            reach,
        }),
        Input::Grant(id) => Some(Step::Grant { node, id }),
        Input::Answered(slot, outcome) => Some(Step::Answered {
            node,
            slot,
            outcome,
        }),
        Input::Packet(packet) => {
            drop(packet);
            None
        }
    }
}

fn step_of(rt: &impl Abort, alloc: Global, row: (&str, u64, u64)) -> Step {
    let at = node(row.1).expect(rt, "a node");
    match tried_step(alloc, at, row) {
        Some(step) => step,
        None => tried_step(alloc, at, row).expect(rt, "a step"),
    }
}

/// None if there was no memory, which is the only reason.
fn tried(rt: &impl Abort, world: &mut World, step: Step) -> Option<Told> {
    match world.step(step) {
        Ok(given) => Some(told_by(&given)),
        Err(fault) => {
            assert_same(rt, &fault, &WorldFault::Memory);
            None
        }
    }
}

/// What a step gives, also if there was no memory for it at first.
fn given(rt: &impl Abort, alloc: Global, world: &mut World, row: (&str, u64, u64)) -> Told {
    let step = step_of(rt, alloc, row);
    match tried(rt, world, step) {
        Some(told) => told,
        None => {
            let again = step_of(rt, alloc, row);
            tried(rt, world, again).expect(rt, "what is given")
        }
    }
}

/// The sum of what is given as the packets from this number on come to each of three nodes.
fn settled(rt: &impl Abort, alloc: Global, world: &mut World, from: u64) -> Told {
    let mut sum = [0; 5];
    for number in from..100 {
        if number > world.packets().len() as u64 {
            break;
        }
        come(rt, alloc, world, number, &mut sum);
    }
    sum
}

/// Adds what is given as a packet comes to each of the nodes.
fn come(rt: &impl Abort, alloc: Global, world: &mut World, number: u64, sum: &mut Told) {
    for at in 1..=3 {
        let told = given(rt, alloc, world, ("come", at, number));
        add(sum, told);
    }
}

fn add(sum: &mut Told, told: Told) {
    for (place, number) in sum.iter_mut().zip(told) {
        *place = place.saturating_add(number);
    }
}

fn played(rt: &impl Abort, alloc: Global, world: &mut World, row: (&str, u64, u64)) -> Told {
    match row.0 {
        "settle" => settled(rt, alloc, world, row.2),
        _ => given(rt, alloc, world, row),
    }
}

/// A start over the stores of the nodes may halt at one of them, and goes on with those that have not started anew.
fn start_over(rt: &impl Abort, world: &mut World) {
    if let Err(fault) = world.start_over() {
        assert_same(rt, &fault, &WorldFault::Memory);
        world.start_over().expect(rt, "it starts over");
    }
}

#[test]
fn the_same_happens_in_two_worlds(rt: HostRuntime) {
    let alloc = rt.alloc();
    let mut one = started(&rt, alloc);
    let mut other = started(&rt, alloc);
    for row in ROWS {
        let told = played(&rt, alloc, &mut one, *row);
        let again = played(&rt, alloc, &mut other, *row);
        assert_same(&rt, &(*row, told), &(*row, again));
    }
    start_over(&rt, &mut one);
    let told = played(&rt, alloc, &mut one, ("query", 1, 0));
    drop(one);
    drop(other);
    assert_same(&rt, &told, &[1, 0, 0, 0, 1]);
}
