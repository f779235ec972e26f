//! The requests that wait, in their queue.

use crate::same::assert_same;
use crate::values::{Begins, Known, after, asking, held, said};
use crate::waits::{Wait, alone, assert_waits, replies_at, tell_at};
use std::alloc::Global;
use std::process::Abort;
use waiting_requests::{Queue, Reply};

#[test]
fn a_queue_begins_empty(rt: HostRuntime) {
    let queue = Queue::make(rt.alloc()).expect(&rt, "memory");
    let begun = (queue.len(), queue.is_full(), queue.at(1).is_none());
    drop(queue);
    assert_same(&rt, &begun, &(0, false, true));
}

const A_SUBMIT: &[Wait] = &[
    Wait::Starts(30, false),
    Wait::Starts(29, true),
    Wait::Asks(0),
    Wait::Concluded(Known::Taken, "accepted", 0),
];

const A_CANCEL: &[Wait] = &[
    Wait::Told(1, Known::Taken),
    Wait::Told(2, Known::Taken),
    Wait::CancelsThen(Known::Taken, true),
    Wait::Concluded(Known::Taken, "waits", 1),
    Wait::Cancels(29, true),
    Wait::Concluded(Known::Deleted, "removed", 0),
];

const LATE: &[Wait] = &[
    Wait::Expired(29, "waits", 1),
    Wait::Expired(30, "too late", 0),
];

const A_QUERY: &[Wait] = &[
    Wait::Asks(1),
    Wait::Told(1, Known::Nothing),
    Wait::Told(2, Known::Nothing),
    Wait::Asks(0),
    Wait::Removed(2, 1),
    Wait::Removed(1, 0),
];

const HIGHEST: &[Wait] = &[
    Wait::Told(1, Known::Tried),
    Wait::Shown(Known::Taken, Some(1)),
];

// What each of these shows, the request, and what happens to its queue.
const WAITED: &[(&str, Begins, &[Wait])] = &[
    (
        "a submit starts the round of its chain",
        Begins::Submit,
        A_SUBMIT,
    ),
    (
        "a cancel is settled when its chain is known",
        Begins::Cancel(b""),
        A_CANCEL,
    ),
    (
        "a request waits for 30 seconds",
        Begins::Query(b"sme1"),
        LATE,
    ),
    (
        "a query asks until a majority told",
        Begins::Query(b"sme1"),
        A_QUERY,
    ),
    ("the highest vote is shown", Begins::Query(b"sme1"), HIGHEST),
];

#[test]
fn queues_are_waited_in(rt: HostRuntime) {
    for (shows, begins, rows) in WAITED {
        assert_waits(&rt, rt.alloc(), shows, held(&rt, rt.alloc(), *begins), rows);
    }
}

// The first id from a number on of which a request asks that waits for so many seconds.
fn asked_from(rt: &impl Abort, queue: &Queue, seconds: u32, number: u64) -> Option<u64> {
    let id = queue.next_id(after(rt, seconds), number)?;
    Some(id.number())
}

#[test]
fn a_walk_meets_the_ids_of_requests(rt: HostRuntime) {
    let queue = alone(&rt, rt.alloc(), asking(&rt, rt.alloc(), 1, b"sme1"));
    let asked = [
        asked_from(&rt, &queue, 29, 1000100001),
        asked_from(&rt, &queue, 29, 1000100002),
        asked_from(&rt, &queue, 30, 1000100001),
        asked_from(&rt, &queue, 30, 1000100002),
    ];
    drop(queue);
    assert_same(&rt, &asked, &[Some(1000100001), None, None, None]);
}

// Three query_sms, the second of which is of another account than the message.
fn three(rt: &impl Abort, alloc: Global) -> Queue {
    let mut queue = Queue::make(alloc).expect(rt, "memory");
    let first = Box::new(alloc, asking(rt, alloc, 1, b"sme1")).expect(rt, "memory");
    queue.push(first);
    let second = Box::new(alloc, asking(rt, alloc, 2, b"sme2")).expect(rt, "memory");
    queue.push(second);
    let third = Box::new(alloc, asking(rt, alloc, 3, b"sme1")).expect(rt, "memory");
    queue.push(third);
    queue
}

// The tickets of three replies, and what they say with which place.
fn three_in(rt: &impl Abort, replies: &[Reply]) -> [(u64, (&'static str, u8)); 3] {
    match replies {
        [first, second, third] => [
            (first.ticket(), said(Some(first.answer()))),
            (second.ticket(), said(Some(second.answer()))),
            (third.ticket(), said(Some(third.answer()))),
        ],
        _ => panic!(rt; "three replies"),
    }
}

#[test]
fn three_are_answered_at_once_by_ascending_tickets(rt: HostRuntime) {
    let alloc = rt.alloc();
    let mut queue = three(&rt, alloc);
    for ticket in 1..4 {
        tell_at(&rt, alloc, &mut queue, ticket, (1, Known::Nothing));
        tell_at(&rt, alloc, &mut queue, ticket, (2, Known::Nothing));
    }
    let replies = replies_at(&rt, alloc, &mut queue, Known::Tried);
    let left = queue.len();
    drop(queue);
    let answers = three_in(&rt, replies.as_slice());
    drop(replies);
    let wanted = [(1, ("shown", 1)), (2, ("not owner", 0)), (3, ("shown", 1))];
    assert_same(&rt, &(answers, left), &(wanted, 0));
}
