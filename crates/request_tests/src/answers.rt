//! What a request is answered (SMPP 3.4, sections 4.4.2, 4.8.2 and 4.9.2).

use crate::same::assert_same;
use crate::turns::{Turn, assert_turns};
use crate::values::{Begins, Known, asking, first, held, id, node, submit};
use synod_acceptor::Packet;

const ACCEPTED: &[Turn] = &[
    Turn::Answered(Known::Nothing, "waits", 0),
    Turn::Answered(Known::Taken, "accepted", 0),
];

#[test]
fn a_submit_is_accepted_once_it_is_known(rt: HostRuntime) {
    let held = submit(&rt, rt.alloc());
    let begun = (held.request().asks(), held.ticket());
    assert_turns(&rt, rt.alloc(), "accepted once it is known", held, ACCEPTED);
    assert_same(&rt, &begun, &(false, 1));
}

const UNTIL_A_MAJORITY: &[Turn] = &[
    Turn::Told(1, Known::Nothing),
    Turn::Told(1, Known::Nothing),
    Turn::Answered(Known::Taken, "waits", 0),
    Turn::Told(3, Known::Nothing),
    Turn::Answered(Known::Taken, "shown", 0),
    Turn::Answered(Known::Nothing, "unknown", 0),
];

const UNTIL_ALL: &[Turn] = &[
    Turn::Told(1, Known::Tried),
    Turn::Followed(None),
    Turn::Told(2, Known::Taken),
    Turn::Followed(Some(1)),
    Turn::Answered(Known::Taken, "waits", 0),
    Turn::Answered(Known::Tried, "shown", 1),
];

const OF_ANOTHER: &[Turn] = &[
    Turn::Told(1, Known::Nothing),
    Turn::Told(2, Known::Nothing),
    Turn::Answered(Known::Taken, "not owner", 0),
];

const SETTLED: &[Turn] = &[
    Turn::Told(1, Known::Nothing),
    Turn::Told(2, Known::Nothing),
    Turn::Answered(Known::Deleted, "waits", 0),
    Turn::Settled(Known::Taken, true),
    Turn::Settled(Known::Taken, false),
    Turn::Answered(Known::Taken, "waits", 0),
    Turn::Answered(Known::Deleted, "removed", 1),
    Turn::Answered(Known::ToldDeleted, "removed", 2),
    Turn::Answered(Known::Tried, "kept", 1),
    Turn::Answered(Known::ToldDelivered, "kept", 3),
];

const NOT_MATCHED: &[Turn] = &[
    Turn::Told(1, Known::Nothing),
    Turn::Told(2, Known::Nothing),
    Turn::Settled(Known::Taken, true),
    Turn::Cancels(false),
    Turn::Answered(Known::Taken, "not matched", 0),
];

// What each of these shows, the request, and what happens to it.
const ANSWERED: &[(&str, Begins, &[Turn])] = &[
    (
        "a query waits for a majority",
        Begins::Query(b"sme1"),
        UNTIL_A_MAJORITY,
    ),
    (
        "a query waits for all that was told",
        Begins::Query(b"sme1"),
        UNTIL_ALL,
    ),
    (
        "a query of another account is not shown",
        Begins::Query(b"sme2"),
        OF_ANOTHER,
    ),
    (
        "a cancel is settled and then answered",
        Begins::Cancel(b"155"),
        SETTLED,
    ),
    (
        "a cancel that does not match deletes nothing",
        Begins::Cancel(b"156"),
        NOT_MATCHED,
    ),
];

#[test]
fn requests_are_answered(rt: HostRuntime) {
    for (shows, begins, rows) in ANSWERED {
        assert_turns(&rt, rt.alloc(), shows, held(&rt, rt.alloc(), *begins), rows);
    }
}

const FITTING: &[Turn] = &[Turn::Fits(Known::Tried, true)];

#[test]
fn a_tell_is_of_the_message(rt: HostRuntime) {
    let held = asking(&rt, rt.alloc(), 1, b"sme1");
    let copy = held.copy();
    drop(held);
    let copy = copy.expect(&rt, "memory");
    let ids = (copy.id(), copy.request().id());
    assert_turns(&rt, rt.alloc(), "a tell", copy, FITTING);
    assert_same(&rt, &ids, &(id(&rt), id(&rt)));
}

// Of a question: the node that asks, the message, and the node, the incarnation and the ticket in its name.
fn parts_of(question: &Packet) -> Option<(u8, u64, u8, u16, u64)> {
    match question {
        Packet::Ask { from, id, name } => Some((
            from.number(),
            id.number(),
            name.node.number(),
            name.incarnation.number(),
            name.ticket,
        )),
        _ => None,
    }
}

#[test]
fn a_question_names_its_request(rt: HostRuntime) {
    let held = asking(&rt, rt.alloc(), 1, b"sme1");
    let question = held.question(node(&rt, 2), first(&rt));
    drop(held);
    let parts = parts_of(&question);
    drop(question);
    assert_same(&rt, &parts, &Some((2, 1000100001, 2, 1, 1)));
}
