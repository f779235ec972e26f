//! A world of three nodes. The numbers of packets are those of the worked scripts: a submit_sm sends a Prepare, three Promises, a Propose and
//! three Voted, packets 1 to 8.

use crate::same::assert_same;
use crate::walks::{Answer, Comes, Row, Said, assert_itself_alone, assert_walk};
use node_core::{Found, GrantRefusal};
use std::alloc::Global;
use world::{StartFault, World, WorldFault};

const NOON: u32 = 1_706_659_200;

const TAKEN_AND_SHOWN: &[Row] = &[
    (Comes::Asks(1, "submit_with_receipt"), Answer::Waits(1)),
    (Comes::Settles(1), Answer::Replied(1, Said::Accepted)),
    (Comes::Asks(2, "query"), Answer::Waits(1)),
    (Comes::Settles(9), Answer::Replied(1, Said::Shown)),
    (Comes::Asks(3, "cancel"), Answer::Waits(1)),
    (Comes::Settles(13), Answer::Replied(1, Said::Removed)),
];

const SAVED: &[Row] = &[
    (Comes::Asks(1, "submit_with_receipt"), Answer::Waits(1)),
    (Comes::Delivers(1, 1), Answer::Nothing),
    (Comes::Delivers(1, 2), Answer::Nothing),
    (Comes::Delivers(2, 1), Answer::Nothing),
    (Comes::Delivers(3, 1), Answer::Nothing),
    (Comes::Crashes(2, 4, Found::After), Answer::Nothing),
    (Comes::Delivers(4, 2), Answer::Refused(WorldFault::Down)),
    (Comes::Asks(2, "query"), Answer::Refused(WorldFault::Down)),
    (Comes::Restarts(2), Answer::Nothing),
    (Comes::Settles(4), Answer::Replied(1, Said::Accepted)),
];

// No node knows the message any more; a majority tells its vote, and that starts the round of its slot once more.
const STARTED_OVER: &[Row] = &[
    (Comes::Asks(1, "submit_with_receipt"), Answer::Waits(1)),
    (Comes::Settles(1), Answer::Replied(1, Said::Accepted)),
    (Comes::StartsOver, Answer::Nothing),
    (
        Comes::Delivers(1, 1),
        Answer::Refused(WorldFault::NoSuchPacket),
    ),
    (Comes::Asks(2, "query"), Answer::Waits(1)),
    (Comes::Settles(1), Answer::Replied(1, Said::Shown)),
];

const GRANTED: &[Row] = &[
    (Comes::Ticks(1, NOON), Answer::Nothing),
    (Comes::Asks(1, "submit_with_receipt"), Answer::Waits(1)),
    (
        Comes::Grants(1),
        Answer::Refused(WorldFault::Grant(GrantRefusal::NotChosen)),
    ),
    (Comes::Settles(1), Answer::Replied(1, Said::Accepted)),
    (Comes::Ticks(1, NOON), Answer::Nothing),
    (Comes::Settles(9), Answer::Nothing),
    (
        Comes::Grants(2),
        Answer::Refused(WorldFault::Grant(GrantRefusal::NotMine)),
    ),
    (
        Comes::GoesUnanswered(1),
        Answer::Refused(WorldFault::NotGranted),
    ),
    (Comes::Grants(1), Answer::Granted),
    (
        Comes::Grants(1),
        Answer::Refused(WorldFault::Grant(GrantRefusal::AlreadyGranted)),
    ),
    (Comes::GoesUnanswered(1), Answer::Nothing),
];

const NOT_THERE: &[Row] = &[
    (
        Comes::Delivers(1, 4),
        Answer::Refused(WorldFault::NoSuchPacket),
    ),
    (Comes::Asks(1, "submit_with_receipt"), Answer::Waits(1)),
    (
        Comes::Delivers(0, 1),
        Answer::Refused(WorldFault::NoSuchPacket),
    ),
    (
        Comes::Delivers(2, 1),
        Answer::Refused(WorldFault::NoSuchPacket),
    ),
    (
        Comes::Delivers(1, 4),
        Answer::Refused(WorldFault::NoSuchNode),
    ),
    (Comes::Restarts(4), Answer::Refused(WorldFault::NoSuchNode)),
    (Comes::Crashes(3, 1, Found::Before), Answer::Nothing),
    (Comes::Grants(3), Answer::Refused(WorldFault::Down)),
    (
        Comes::Delivers(2, 3),
        Answer::Refused(WorldFault::NoSuchPacket),
    ),
];

// What each of these walks shows, and its rows.
const WALKS: &[(&str, &[Row])] = &[
    (
        "a message is taken at one node and shown at another",
        TAKEN_AND_SHOWN,
    ),
    ("a vote that was saved outlives a stop", SAVED),
    ("a message outlives a start over", STARTED_OVER),
    ("an attempt is granted once at its node", GRANTED),
    ("what is not there is refused first", NOT_THERE),
];

#[test]
fn worlds_of_three_nodes(rt: HostRuntime) {
    for (shows, rows) in WALKS {
        assert_walk(&rt, rt.alloc(), shows, rows);
    }
}

// Why a world of so many nodes does not start, whose first messages have this serial.
fn not_started(alloc: Global, nodes: u8, serial: u32) -> Option<StartFault> {
    World::start(alloc, nodes, serial, 1).err()
}

#[test]
fn a_world_has_one_to_nine_nodes(rt: HostRuntime) {
    let alloc = rt.alloc();
    let faults = [
        not_started(alloc, 0, 1),
        not_started(alloc, 10, 0),
        not_started(alloc, 9, 0),
        not_started(alloc, 9, 99_999),
    ];
    let wanted = [
        Some(StartFault::Nodes),
        Some(StartFault::Nodes),
        Some(StartFault::Serial),
        None,
    ];
    assert_same(&rt, &faults, &wanted);
}

// No two of them are the same step.
const APART: &[Comes] = &[
    Comes::Asks(1, "query"),
    Comes::Asks(2, "query"),
    Comes::Asks(1, "cancel"),
    Comes::Ticks(1, NOON),
    Comes::Ticks(1, 1_706_659_201),
    Comes::Grants(1),
    Comes::Grants(2),
    Comes::GoesUnanswered(1),
    Comes::GoesUnanswered(2),
    Comes::Delivers(1, 2),
    Comes::Delivers(2, 1),
    Comes::Crashes(1, 1, Found::Before),
    Comes::Crashes(1, 1, Found::After),
    Comes::Restarts(1),
    Comes::Restarts(2),
];

#[test]
fn each_step_is_itself_alone(rt: HostRuntime) {
    for (number, comes) in APART.iter().enumerate() {
        assert_itself_alone(&rt, rt.alloc(), APART, number, *comes);
    }
}
