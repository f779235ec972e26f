//! Each call once, over an outlet that keeps what is put.

use crate::double::{Event, Kept, assert_events};
use crate::octets::{BIND, RECEIPT, SUBMIT, SUBMIT_ANSWER, TOLD};
use crate::replies::accepted;
use crate::same::assert_same;
use crate::values::{at, bound, chain, sme1};
use esme_service::Service;
use esme_site::{post_all, post_for, post_for_all, post_on, reply_all, tell};
use fate_chain::Chain;
use pdu_codec::SystemId;
use std::alloc::Global;
use std::process::Abort;
use waiting_requests::Reply;

fn replies(rt: &impl Abort, alloc: Global, tickets: &[u64]) -> Vec<Reply> {
    let mut replies = Vec::new(alloc);
    for ticket in tickets {
        let pushed = replies.push(accepted(rt, alloc, *ticket));
        pushed.ok().expect(rt, "memory");
    }
    replies
}

fn receipts(rt: &impl Abort, alloc: Global, count: u8) -> Vec<Chain> {
    let mut receipts = Vec::new(alloc);
    for _ in 0..count {
        let pushed = receipts.push(chain(rt, alloc, TOLD));
        pushed.ok().expect(rt, "memory");
    }
    receipts
}

fn serving(rt: &impl Abort, alloc: Global) -> Service {
    bound(rt, alloc, 2, (BIND, SUBMIT))
}

/// What each row shows, the tickets of the replies, which put wants memory, whether all went out, and what was put or lost.
const REPLIES: &[(&str, &[u64], u64, bool, &[Event])] = &[
    (
        "a reply goes to who holds its ticket alone",
        &[2],
        0,
        true,
        &[(2, 27)],
    ),
    (
        "each reply goes out once, in order",
        &[2, 1, 2],
        0,
        true,
        &[(2, 27), (1, 27)],
    ),
    ("nobody holds the ticket", &[3], 0, true, &[]),
    (
        "one wants memory, and the other goes out",
        &[1, 2],
        1,
        false,
        &[(1, 0), (2, 27)],
    ),
];

#[test]
fn replies_go_out(rt: HostRuntime) {
    let alloc = rt.alloc();
    for (shows, tickets, fails_in, is_whole, wanted) in REPLIES {
        let mut service = serving(&rt, alloc);
        let mut kept = Kept::none(alloc, *fails_in);
        let given = replies(&rt, alloc, tickets);
        let replied = reply_all(&mut service, &mut kept, &given);
        drop(given);
        drop(service);
        assert_same(&rt, &(*shows, replied.is_ok()), &(*shows, *is_whole));
        assert_events(&rt, shows, kept, wanted);
    }
}

#[test]
fn a_reply_is_its_response(rt: HostRuntime) {
    let alloc = rt.alloc();
    let mut service = serving(&rt, alloc);
    let mut kept = Kept::none(alloc, 0);
    let given = replies(&rt, alloc, &[1]);
    let replied = tell(&mut service, &mut kept, at(&rt, 0), &given, &[]);
    drop(given);
    drop(service);
    assert_same(&rt, &(replied.is_ok(), kept.last()), &(true, SUBMIT_ANSWER));
    drop(kept);
}

const ROOM: &[Event] = &[(1, 163); 10];

/// What each row shows, the sessions, the receipts that are due, which put wants memory, whether all went out, and what was put or lost.
const RECEIPTS: &[(&str, u8, u8, u64, bool, &[Event])] = &[
    ("nobody is there", 0, 1, 0, true, &[]),
    ("one receipt goes out", 2, 1, 0, true, &[(1, 163)]),
    (
        "as many go out as a window has places",
        1,
        11,
        0,
        true,
        ROOM,
    ),
    (
        "one in the middle wants memory",
        1,
        3,
        2,
        false,
        &[(1, 163), (1, 0), (1, 163)],
    ),
];

#[test]
fn receipts_go_out(rt: HostRuntime) {
    let alloc = rt.alloc();
    for (shows, sessions, count, fails_in, is_whole, wanted) in RECEIPTS {
        let mut service = bound(&rt, alloc, *sessions, (BIND, b""));
        let mut kept = Kept::none(alloc, *fails_in);
        let due = receipts(&rt, alloc, *count);
        let posted = post_all(&mut service, &mut kept, at(&rt, 0), &due);
        drop(due);
        drop(service);
        assert_same(&rt, &(*shows, posted.is_ok()), &(*shows, *is_whole));
        assert_events(&rt, shows, kept, wanted);
    }
}

/// A receipt waits, and then a session of its account is bound.
fn waiting(rt: &impl Abort, alloc: Global) -> Service {
    let mut service = bound(rt, alloc, 1, (BIND, b""));
    let posted = service.post(chain(rt, alloc, TOLD));
    posted.ok().expect(rt, "memory");
    service
}

#[test]
fn a_receipt_waits_for_its_account(rt: HostRuntime) {
    let alloc = rt.alloc();
    let mut service = waiting(&rt, alloc);
    let mut kept = Kept::none(alloc, 0);
    let account = sme1(&rt, alloc);
    let first = post_for(&mut service, &mut kept, at(&rt, 0), &account);
    let again = post_for(&mut service, &mut kept, at(&rt, 0), &account);
    drop(account);
    drop(service);
    assert_same(
        &rt,
        &(first.is_ok(), again.is_ok(), kept.last()),
        &(true, true, RECEIPT),
    );
    assert_events(&rt, "once", kept, &[(1, 163)]);
}

#[test]
fn a_receipt_goes_out_on_a_session_of_its_account(rt: HostRuntime) {
    let alloc = rt.alloc();
    let mut service = waiting(&rt, alloc);
    let mut kept = Kept::none(alloc, 0);
    let elsewhere = post_on(&mut service, &mut kept, at(&rt, 0), 2);
    assert_same(&rt, &(elsewhere.is_ok(), kept.events().len()), &(true, 0));
    let first = post_on(&mut service, &mut kept, at(&rt, 0), 1);
    let again = post_on(&mut service, &mut kept, at(&rt, 0), 1);
    drop(service);
    assert_same(
        &rt,
        &(first.is_ok(), again.is_ok(), kept.last()),
        &(true, true, RECEIPT),
    );
    assert_events(&rt, "once", kept, &[(1, 163)]);
}

#[test]
fn all_accounts_are_served(rt: HostRuntime) {
    let alloc = rt.alloc();
    let mut service = waiting(&rt, alloc);
    let mut kept = Kept::none(alloc, 0);
    let up: Vec<SystemId> = service.accounts_up().expect(&rt, "memory");
    let posted = post_for_all(&mut service, &mut kept, at(&rt, 0), &up);
    drop(up);
    drop(service);
    assert_same(&rt, &posted.is_ok(), &true);
    assert_events(&rt, "for its account", kept, &[(1, 163)]);
}
