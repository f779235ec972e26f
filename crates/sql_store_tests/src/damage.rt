//! Rows that stand for no record, and numbers that are no incarnation.

use crate::steps::{Step, assert_steps};
use stable_store::StoreFault;
use std::alloc::Global;
use std::process::Abort;

// A number that is no integer.
const NO_INTEGERS: &[&str] = &[
    "INSERT INTO slots VALUES (1000100001.5, 0, 262161, 0, x'')",
    "INSERT INTO slots VALUES (1000100001, 'a', 262161, 0, x'')",
    "INSERT INTO slots VALUES (1000100001, 0, 1.5, 0, x'')",
    "INSERT INTO slots VALUES (1000100001, 0, 262161, 'x', x'')",
    "INSERT INTO slots VALUES (1000100001, 0, 262161, 0, 'x')",
];

// A number that is no id.
const NO_IDS: &[&str] = &[
    "INSERT INTO slots VALUES (-1, 0, 262161, 0, x'')",
    "INSERT INTO slots VALUES (100100001, 0, 262161, 0, x'')",
    "INSERT INTO slots VALUES (1000000001, 0, 262161, 0, x'')",
];

// A number that is no place.
const NO_PLACES: &[&str] = &[
    "INSERT INTO slots VALUES (1000100001, -1, 262161, 0, x'')",
    "INSERT INTO slots VALUES (1000100001, 256, 262161, 0, x'')",
];

// A number that is no ballot.
const NO_BALLOTS: &[&str] = &[
    "INSERT INTO slots VALUES (1000100001, 0, -1, 0, x'')",
    "INSERT INTO slots VALUES (1000100001, 0, 262160, 0, x'')",
    "INSERT INTO slots VALUES (1000100001, 0, 9223372036854775807, 0, x'')",
    "INSERT INTO slots VALUES (1000100001, 0, 0, 0, x'')",
    "INSERT INTO slots VALUES (1000100001, 0, 524305, 262145, x'01000000003b9c50a1000101010001386d438004736d653104736d6531000101033134340101033135350000000100386d4380387138000248690000')",
];

// A vote above its promise.
const VOTES_ABOVE: &[&str] = &[
    "INSERT INTO slots VALUES (1000100001, 0, 262161, 262162, x'01000000003b9c50a1000101010001386d438004736d653104736d6531000101033134340101033135350000000100386d4380387138000248690000')",
];

// A chain under another slot.
const OTHER_SLOTS: &[&str] = &[
    "INSERT INTO slots VALUES (1000100002, 0, 262161, 262161, x'01000000003b9c50a1000101010001386d438004736d653104736d6531000101033134340101033135350000000100386d4380387138000248690000')",
    "INSERT INTO slots VALUES (1000100001, 1, 262161, 262161, x'01000000003b9c50a1000101010001386d438004736d653104736d6531000101033134340101033135350000000100386d4380387138000248690000')",
];

// A chain that is cut, or has an octet more.
const NO_CHAINS: &[&str] = &[
    "INSERT INTO slots VALUES (1000100001, 0, 262161, 262161, x'01000000003b9c50a1000101010001386d438004736d653104736d6531000101033134340101033135350000000100386d43803871380002486900')",
    "INSERT INTO slots VALUES (1000100001, 0, 262161, 262161, x'01000000003b9c50a1000101010001386d438004736d653104736d6531000101033134340101033135350000000100386d438038713800024869000000')",
    "INSERT INTO slots VALUES (1000100001, 0, 262161, 262161, x'')",
];

// No vote, with octets.
const VOTELESS_CHAINS: &[&str] = &[
    "INSERT INTO slots VALUES (1000100001, 0, 262161, 0, x'01000000003b9c50a1000101010001386d438004736d653104736d6531000101033134340101033135350000000100386d4380387138000248690000')",
];

const REFUSED: Step = Step::Loads(Err(StoreFault::Damaged));

const DAMAGED: &[&[&str]] = &[
    NO_INTEGERS,
    NO_IDS,
    NO_PLACES,
    NO_BALLOTS,
    VOTES_ABOVE,
    OTHER_SLOTS,
    NO_CHAINS,
    VOTELESS_CHAINS,
];

fn assert_damaged(rt: &impl Abort, alloc: Global, rows: &[&str]) {
    for row in rows {
        assert_steps(rt, alloc, row, &[Step::Runs(row), REFUSED]);
    }
}

#[test]
fn damaged_rows_are_refused(rt: HostRuntime) {
    for rows in DAMAGED {
        assert_damaged(&rt, rt.alloc(), rows);
    }
}

// The same rows in order are loaded.
const IN_ORDER: &[Step] = &[
    Step::Runs(
        "INSERT INTO slots VALUES (1000100001, 0, 262161, 262161, x'01000000003b9c50a1000101010001386d438004736d653104736d6531000101033134340101033135350000000100386d4380387138000248690000')",
    ),
    Step::Loads(Ok((
        1,
        Some((1000100001, 0, 262161, 262161)),
        Some((1000100001, 0, 262161, 262161)),
    ))),
];

#[test]
fn rows_in_order_are_loaded(rt: HostRuntime) {
    assert_steps(&rt, rt.alloc(), "rows in order", IN_ORDER);
}

type Row = (&'static str, Result<u16, StoreFault>);

// A statement that stores a number, and the incarnation that begins then: a number that is none is refused, and the last one is 9999.
const INCARNATIONS: &[Row] = &[
    ("INSERT INTO life VALUES (1, 'x')", Err(StoreFault::Damaged)),
    ("INSERT INTO life VALUES (1, 1.5)", Err(StoreFault::Damaged)),
    ("INSERT INTO life VALUES (1, 0)", Err(StoreFault::Damaged)),
    ("INSERT INTO life VALUES (1, -1)", Err(StoreFault::Damaged)),
    (
        "INSERT INTO life VALUES (1, 10000)",
        Err(StoreFault::Damaged),
    ),
    ("INSERT INTO life VALUES (1, 9998)", Ok(9999)),
    (
        "INSERT INTO life VALUES (1, 9999)",
        Err(StoreFault::Incarnations),
    ),
];

#[test]
fn numbers_that_are_no_incarnation_are_refused(rt: HostRuntime) {
    for (text, wanted) in INCARNATIONS {
        assert_steps(
            &rt,
            rt.alloc(),
            text,
            &[Step::Runs(text), Step::Begins(*wanted)],
        );
    }
}
