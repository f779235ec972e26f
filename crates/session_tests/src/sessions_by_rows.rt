//! Sessions, by rows of events and of what comes of them.

use crate::events::event;
use crate::rows::{BINDS, FAULTS, GONE, PUSHES, REPLIES, TABLE, WINDOW};
use crate::same::assert_same;
use crate::values::accounts;
use accounts::Accounts;
use sessions::{Session, sequence_after};
use std::alloc::Global;
use std::process::Abort;

/// That what comes of the row's event is what the row says. With it comes the number of the row, from 0.
fn assert_row(
    rt: &impl Abort,
    alloc: Global,
    accounts: &Accounts,
    session: &mut Session,
    (number, row): (usize, &str),
) {
    let (happens, wanted) = row
        .split_once(" => ")
        .expect(rt, "an event and what comes of it");
    let told = event(rt, alloc, accounts, session, happens);
    assert_same(
        rt,
        &(number, happens, told.as_str()),
        &(number, happens, wanted),
    );
}

/// That there are so many rows, and that all of them are so, at one session.
fn assert_rows(rt: &impl Abort, alloc: Global, rows: &str, wanted: usize) {
    let accounts = accounts(rt, alloc);
    let mut session = Session::make(alloc).expect(rt, "memory");
    let mut count = 0;
    for row in rows.lines() {
        assert_row(rt, alloc, &accounts, &mut session, (count, row));
        count = usize::saturating_add(count, 1);
    }
    assert_same(rt, &count, &wanted);
}

#[test]
fn each_command_in_each_state(rt: HostRuntime) {
    assert_rows(&rt, rt.alloc(), TABLE, 380);
}

#[test]
fn each_fault_of_octets(rt: HostRuntime) {
    assert_rows(&rt, rt.alloc(), FAULTS, 105);
}

#[test]
fn each_refusal_of_a_bind(rt: HostRuntime) {
    assert_rows(&rt, rt.alloc(), BINDS, 40);
}

#[test]
fn eleventh_request(rt: HostRuntime) {
    assert_rows(&rt, rt.alloc(), WINDOW, 51);
}

#[test]
fn replies_by_ticket(rt: HostRuntime) {
    assert_rows(&rt, rt.alloc(), REPLIES, 12);
}

#[test]
fn pushed_requests(rt: HostRuntime) {
    assert_rows(&rt, rt.alloc(), PUSHES, 36);
}

#[test]
fn sessions_that_are_gone(rt: HostRuntime) {
    assert_rows(&rt, rt.alloc(), GONE, 16);
}

#[test]
fn sequence_numbers(rt: HostRuntime) {
    let next = [
        sequence_after(1),
        sequence_after(0x7FFF_FFFE),
        sequence_after(0x7FFF_FFFF),
    ];
    assert_same(&rt, &next, &[2, 0x7FFF_FFFF, 1]);
}
