//! What is due.

use crate::chains::*;
use crate::same::assert_same;
use delivery::{DueDecree, due};
use mc_types::Moment;
use std::alloc::Global;
use std::process::Abort;

/// The decrees on the message, how long after it was taken, whether its target is up, and what is due.
type Row<'a> = (&'a [Step], u32, bool, Option<DueDecree>);

const FIRST: &[Row<'static>] = &[
    (&[], 0, true, Some(DueDecree::Attempt(1))),
    (&[], 0, false, None),
    (&[], 259199, true, Some(DueDecree::Attempt(1))),
    (&[], 259200, true, Some(DueDecree::Expired)),
    (&[], 259200, false, Some(DueDecree::Expired)),
];

/// What is due for the message after these decrees, so long after it was taken, its target being up or not.
fn found(
    rt: &impl Abort,
    alloc: Global,
    steps: &[Step],
    after: u32,
    up: bool,
) -> Option<DueDecree> {
    let now = Moment::make(TAKEN.saturating_add(after)).expect(rt, "a moment");
    let chain = chain(rt, alloc, 1, steps);
    let found = due(&chain, now, up);
    drop(chain);
    found
}

fn assert_due(rt: &impl Abort, alloc: Global, rows: &[Row<'_>]) {
    for (number, (steps, after, up, due)) in rows.iter().enumerate() {
        let found = found(rt, alloc, steps, *after, *up);
        assert_same(rt, &(number, found), &(number, *due));
    }
}

#[test]
fn a_message_is_attempted_at_once(rt: HostRuntime) {
    assert_due(&rt, rt.alloc(), FIRST);
}

/// That the attempt of this number comes after so many decrees at this moment, and not before, if the target is up.
fn assert_next(rt: &impl Abort, alloc: Global, number: u8, decrees: usize, after: u32) {
    let steps = FAILURES.get(..decrees).expect(rt, "failures");
    let rows = [
        (steps, after.saturating_sub(1), true, None),
        (steps, after, true, Some(DueDecree::Attempt(number))),
        (steps, after, false, None),
    ];
    assert_due(rt, alloc, &rows);
}

#[test]
fn attempts_come_later_and_later(rt: HostRuntime) {
    let alloc = rt.alloc();
    assert_next(&rt, alloc, 2, 2, 60);
    assert_next(&rt, alloc, 3, 4, 180);
    assert_next(&rt, alloc, 4, 6, 360);
    assert_next(&rt, alloc, 5, 8, 600);
    assert_next(&rt, alloc, 6, 10, 900);
    assert_next(&rt, alloc, 7, 12, 1260);
    assert_next(&rt, alloc, 8, 14, 1680);
}

const NO_NINTH: &[Row<'static>] = &[
    (&FAILURES, 1680, true, Some(DueDecree::Undeliverable)),
    (&FAILURES, 1680, false, Some(DueDecree::Undeliverable)),
    (&FAILURES, 259200, true, Some(DueDecree::Expired)),
];

#[test]
fn there_is_no_ninth_attempt(rt: HostRuntime) {
    assert_due(&rt, rt.alloc(), NO_NINTH);
}

const NOTHING: &[Row<'static>] = &[
    (&[Step::Attempt(0, 1)], 60, true, None),
    (&[Step::Attempt(0, 1)], 259200, true, None),
    (TO_DELIVERED, 259200, true, None),
    (TOLD_DELIVERED, 259200, true, None),
];

#[test]
fn an_open_attempt_waits_for_its_outcome(rt: HostRuntime) {
    assert_due(&rt, rt.alloc(), NOTHING);
}
