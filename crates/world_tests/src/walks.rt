//! Walks of a world over what happens in it, and what it answers.

use crate::same::assert_same;
use delivery::Outcome;
use fate_chain::Final;
use lines_of_tests::{account, first_id, request};
use mc_types::{Moment, NodeNo, Slot};
use node_core::Found;
use pdu_codec::SystemId;
use std::alloc::Global;
use std::process::Abort;
use waiting_requests::Reply;
use world::{Given, Reach, Step, World, WorldFault};
use world_runs::{Trace, run};

// What happens in a world, at a node.
#[derive(Clone, Copy, Debug, PartialEq, Eq)]
pub enum Comes {
    // A request, by its word.
    Asks(u8, &'static str),
    Ticks(u8, u32),
    // The attempt of the first message is asked for, and concluded: nobody answered it.
    Grants(u8),
    GoesUnanswered(u8),
    Delivers(u64, u8),
    Crashes(u8, u64, Found),
    Restarts(u8),
    // The world starts over the stores of its nodes.
    StartsOver,
    // Each packet from this number on comes to each of the three nodes, in the order of sending, those that are sent meanwhile too.
    Settles(u64),
}

// What a world answers. It is `Other` if it gives out more than this one thing.
#[derive(Clone, Copy, Debug, PartialEq, Eq)]
pub enum Answer {
    Nothing,
    // The ticket of a request that came.
    Waits(u64),
    // A reply, with its ticket; a receipt may be due besides.
    Replied(u64, Said),
    Granted,
    Refused(WorldFault),
    Other,
}

// What a reply says.
#[derive(Clone, Copy, Debug, PartialEq, Eq)]
pub enum Said {
    Accepted,
    Shown,
    Removed,
    Other,
}

// What is to come of what happens.
pub type Row = (Comes, Answer);

fn word_of(reply: &Reply) -> Said {
    match reply.answer() {
        waiting_requests::Answer::Accepted => Said::Accepted,
        waiting_requests::Answer::Shown(_) => Said::Shown,
        waiting_requests::Answer::Removed(_) => Said::Removed,
        _ => Said::Other,
    }
}

fn answer_in(given: &Given) -> Answer {
    match (given.ticket, given.replies.as_slice(), &given.granted) {
        (Some(ticket), [], None) => Answer::Waits(ticket),
        (None, [reply], None) => Answer::Replied(reply.ticket(), word_of(reply)),
        (None, [], Some(_)) => Answer::Granted,
        (None, [], None) => Answer::Nothing,
        _ => Answer::Other,
    }
}

fn answer_of(given: Result<Given, WorldFault>) -> Answer {
    match given {
        Ok(given) => answer_in(&given),
        Err(fault) => Answer::Refused(fault),
    }
}

fn node(rt: &impl Abort, number: u8) -> NodeNo {
    NodeNo::make(number).expect(rt, "a node")
}

// The account sme1, of which a session may receive.
fn accounts(rt: &impl Abort, alloc: Global) -> Vec<SystemId> {
    let mut accounts = Vec::new(alloc);
    let put = accounts.push(account(alloc).expect(rt, "an account"));
    put.expect(rt, "memory");
    accounts
}

fn step_of(rt: &impl Abort, alloc: Global, comes: Comes) -> Step {
    match comes {
        Comes::Asks(number, asked) => Step::Request {
            node: node(rt, number),
            account: account(alloc).expect(rt, "an account"),
            request: request(alloc, asked).expect(rt, "a request"),
        },
        Comes::Ticks(number, seconds) => Step::Tick {
            node: node(rt, number),
            moment: Moment::make(seconds).expect(rt, "a moment"),
            reach: Reach::of_all(accounts(rt, alloc)),
        },
        Comes::Grants(number) => Step::Grant {
            node: node(rt, number),
            id: first_id().expect(rt, "an id"),
        },
        Comes::GoesUnanswered(number) => Step::Answered {
            node: node(rt, number),
            slot: Slot {
                id: first_id().expect(rt, "an id"),
                place: 1,
            },
            outcome: Outcome::unanswered(),
        },
        Comes::Delivers(number, to) => Step::Deliver {
            number,
            node: node(rt, to),
        },
        Comes::Crashes(number, packet, found) => Step::Crash {
            node: node(rt, number),
            number: packet,
            found,
        },
        Comes::Restarts(number) => Step::Restart {
            node: node(rt, number),
        },
        Comes::StartsOver | Comes::Settles(_) => panic!(rt; "a step"),
    }
}

// The last thing that is given out as the packet of this number comes to each of three nodes; nothing if none gives out anything.
fn delivered(rt: &impl Abort, world: &mut World, number: u64) -> Answer {
    let mut last = Answer::Nothing;
    for to in 1..=3 {
        let answer = answer_of(world.deliver(number, node(rt, to)));
        if answer != Answer::Nothing {
            last = answer;
        }
    }
    last
}

// The last thing that a settle of three nodes gives out.
fn settled(rt: &impl Abort, world: &mut World, from: u64) -> Answer {
    let mut last = Answer::Nothing;
    for number in from..1000 {
        if number > world.packets().len() as u64 {
            break;
        }
        let answer = delivered(rt, world, number);
        if answer != Answer::Nothing {
            last = answer;
        }
    }
    last
}

fn answer_to(rt: &impl Abort, alloc: Global, world: &mut World, comes: Comes) -> Answer {
    match comes {
        Comes::Settles(from) => settled(rt, world, from),
        Comes::StartsOver => match world.start_over() {
            Ok(()) => Answer::Nothing,
            Err(fault) => Answer::Refused(fault),
        },
        _ => answer_of(world.step(step_of(rt, alloc, comes))),
    }
}

// A world of so many nodes over new stores.
pub fn world(rt: &impl Abort, alloc: Global, nodes: u8) -> World {
    World::start(alloc, nodes, 1, 259_200).expect(rt, "a world")
}

// That a world of three nodes over new stores answers so, row by row. A failure tells what the rows show.
pub fn assert_walk(rt: &impl Abort, alloc: Global, shows: &str, rows: &[Row]) {
    let mut world = world(rt, alloc, 3);
    for (number, (comes, wanted)) in rows.iter().enumerate() {
        let answer = answer_to(rt, alloc, &mut world, *comes);
        assert_same(rt, &(shows, number, answer), &(shows, number, *wanted));
    }
}

// What a list of steps gave, step by step.
fn answers_in(rt: &impl Abort, alloc: Global, trace: Trace) -> Vec<Answer> {
    let mut answers = Vec::new(alloc);
    for given in trace.answers {
        answers.push(answer_of(given)).expect(rt, "memory");
    }
    answers
}

// The steps that told a final state of the first message, each with the state.
fn stated_in(rt: &impl Abort, alloc: Global, trace: Trace) -> Vec<(usize, Final)> {
    let statements = trace.statements();
    drop(trace);
    let mut stated = Vec::new(alloc);
    for one in statements.expect(rt, "memory") {
        if one.id == first_id().expect(rt, "an id") {
            stated.push((one.step, one.state)).expect(rt, "memory");
        }
    }
    stated
}

fn steps_of(rt: &impl Abort, alloc: Global, comes: &[Comes]) -> Vec<Step> {
    let mut steps = Vec::new(alloc);
    for one in comes {
        let put = steps.push(step_of(rt, alloc, *one));
        put.expect(rt, "memory");
    }
    steps
}

// That the step of this number among some is itself, and none of the others.
pub fn assert_itself_alone(
    rt: &impl Abort,
    alloc: Global,
    steps: &[Comes],
    number: usize,
    comes: Comes,
) {
    let step = step_of(rt, alloc, comes);
    for (place, one) in steps.iter().enumerate() {
        let other = step_of(rt, alloc, *one);
        let is = step.is(&other);
        drop(other);
        assert_same(rt, &(number, place, is), &(number, place, number == place));
    }
}

// What a list of steps gives in a world of so many nodes.
fn trace_of(rt: &impl Abort, alloc: Global, nodes: u8, comes: &[Comes]) -> Trace {
    let mut world = world(rt, alloc, nodes);
    let trace = run(alloc, &mut world, steps_of(rt, alloc, comes));
    drop(world);
    trace.expect(rt, "memory")
}

// That a list of steps gives this in a world of three nodes.
pub fn assert_answers(rt: &impl Abort, alloc: Global, comes: &[Comes], wanted: &[Answer]) {
    let answers = answers_in(rt, alloc, trace_of(rt, alloc, 3, comes));
    assert_same(rt, &answers.as_slice(), &wanted);
}

// That a list of steps states this in a world of one node.
pub fn assert_stated(rt: &impl Abort, alloc: Global, comes: &[Comes], wanted: &[(usize, Final)]) {
    let stated = stated_in(rt, alloc, trace_of(rt, alloc, 1, comes));
    assert_same(rt, &stated.as_slice(), &wanted);
}

// That a world of one node, which takes one list of steps, starts over its store, and takes another one, states this by the other one.
pub fn assert_stated_again(
    rt: &impl Abort,
    alloc: Global,
    first: &[Comes],
    second: &[Comes],
    wanted: &[(usize, Final)],
) {
    let mut world = world(rt, alloc, 1);
    drop(run(alloc, &mut world, steps_of(rt, alloc, first)).expect(rt, "memory"));
    let over = world.start_over();
    let trace = run(alloc, &mut world, steps_of(rt, alloc, second));
    drop(world);
    assert_same(rt, &over, &Ok(()));
    let stated = stated_in(rt, alloc, trace.expect(rt, "memory"));
    assert_same(rt, &stated.as_slice(), &wanted);
}

// What comes by a step; nothing if it is of a kind that no test looks at.
fn comes_by(step: &Step) -> Option<Comes> {
    match step {
        Step::Deliver { number, node } => Some(Comes::Delivers(*number, node.number())),
        Step::Tick {
            node,
            moment,
            reach,
        } if reach.up.len() == 1 => { Some(Comes::Ticks(node.number(), moment.seconds())) }
        Step::Restart { node } => Some(Comes::Restarts(node.number())),
        _ => None,
    }
}

// That the copy of a step is the step.
pub fn assert_copied(rt: &impl Abort, alloc: Global, comes: Comes) {
    let copy = step_of(rt, alloc, comes).copy();
    assert_same(rt, &comes_by(&copy.expect(rt, "memory")), &Some(comes));
}

// That in a world of one node the last step that gave a receipt is listed beside it.
pub fn assert_told_by(rt: &impl Abort, alloc: Global, comes: &[Comes], wanted: Comes) {
    let trace = trace_of(rt, alloc, 1, comes);
    let mut told = None;
    for (step, answer) in trace.steps.iter().zip(&trace.answers) {
        if let Ok(given) = answer
            && !given.receipts.is_empty()
        {
            told = comes_by(step);
        }
    }
    drop(trace);
    assert_same(rt, &told, &Some(wanted));
}
