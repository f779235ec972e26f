//! A list of steps.

use crate::walks::{
    Answer, Comes, assert_answers, assert_copied, assert_stated, assert_stated_again,
    assert_told_by,
};
use fate_chain::Final;
use world::WorldFault;

const TO_ITS_END: &[Comes] = &[
    Comes::Delivers(1, 1),
    Comes::Asks(1, "submit_with_receipt"),
    Comes::Delivers(1, 1),
    Comes::Restarts(4),
];

const ANSWERS: &[Answer] = &[
    Answer::Refused(WorldFault::NoSuchPacket),
    Answer::Waits(1),
    Answer::Nothing,
    Answer::Refused(WorldFault::NoSuchNode),
];

#[test]
fn a_list_of_steps_is_taken_to_its_end(rt: HostRuntime) {
    assert_answers(&rt, rt.alloc(), TO_ITS_END, ANSWERS);
}

// One node takes a message, deletes it, and tells its receipt: each decree is a Prepare, a Promise, a Propose and a Voted, and the cancel_sm an
// Ask and a Tell.
const DELETION: &[Comes] = &[
    Comes::Asks(1, "submit_with_receipt"),
    Comes::Delivers(1, 1),
    Comes::Delivers(2, 1),
    Comes::Delivers(3, 1),
    Comes::Delivers(4, 1),
    Comes::Asks(1, "cancel"),
    Comes::Delivers(5, 1),
    Comes::Delivers(6, 1),
    Comes::Delivers(7, 1),
    Comes::Delivers(8, 1),
    Comes::Delivers(9, 1),
    Comes::Delivers(10, 1),
    Comes::Delivers(11, 1),
    Comes::Delivers(12, 1),
    Comes::Delivers(13, 1),
    Comes::Delivers(14, 1),
];

const STATED: &[(usize, Final)] = &[(11, Final::Deleted), (15, Final::Deleted)];

#[test]
fn a_deletion_is_stated_by_a_reply_and_by_a_receipt(rt: HostRuntime) {
    assert_stated(&rt, rt.alloc(), DELETION, STATED);
}

// No node knows the message any more: its own Tell says how far the chain has come, and the round of that slot is gone through once more.
const QUERY: &[Comes] = &[
    Comes::Delivers(1, 1),
    Comes::Asks(1, "query"),
    Comes::Delivers(1, 1),
    Comes::Delivers(2, 1),
    Comes::Delivers(3, 1),
    Comes::Delivers(4, 1),
    Comes::Delivers(5, 1),
    Comes::Delivers(6, 1),
];

// By the reply alone: the receipt came, and does not come once more.
const STATED_AGAIN: &[(usize, Final)] = &[(7, Final::Deleted)];

#[test]
fn a_deletion_is_told_over_a_start_over(rt: HostRuntime) {
    assert_stated_again(&rt, rt.alloc(), DELETION, QUERY, STATED_AGAIN);
}

#[test]
fn the_step_that_told_a_deletion_is_listed(rt: HostRuntime) {
    assert_told_by(&rt, rt.alloc(), DELETION, Comes::Delivers(14, 1));
}

#[test]
fn steps_are_copied(rt: HostRuntime) {
    assert_copied(&rt, rt.alloc(), Comes::Delivers(7, 2));
    assert_copied(&rt, rt.alloc(), Comes::Ticks(3, 1_706_659_200));
    assert_copied(&rt, rt.alloc(), Comes::Restarts(1));
}
