//! Tables beside the two, and whose a store is.

use crate::steps::{LIFE, Row, SLOTS, Step, Write, assert_rows};
use record_rows::{Fault, Found, ReadFault, WhoseRow};

const WHOSE: &str =
    "CREATE TABLE whose (one INTEGER PRIMARY KEY CHECK (one = 1), cluster INTEGER NOT NULL, node INTEGER NOT NULL, nodes INTEGER NOT NULL, at INTEGER NOT NULL)";

const KNOWN: &str =
    "CREATE TABLE known (id INTEGER PRIMARY KEY, place INTEGER NOT NULL, voted INTEGER NOT NULL, voters INTEGER NOT NULL, chain BLOB NOT NULL)";

const GONE: &str =
    "CREATE TABLE gone (first INTEGER PRIMARY KEY, last INTEGER NOT NULL, state INTEGER NOT NULL)";

const ENDED: &str =
    "CREATE TABLE ended (id INTEGER PRIMARY KEY, place INTEGER NOT NULL, promised INTEGER NOT NULL, voted INTEGER NOT NULL, voters INTEGER NOT NULL, chain BLOB NOT NULL, below BLOB NOT NULL)";

// Those beside the two are found behind them, in whatever order and however many; in front of them, and in another form, they are not.
const FOUND: &[Row] = &[
    (&[LIFE, SLOTS, WHOSE], &[], Found::LifeFirst),
    (&[SLOTS, LIFE, WHOSE], &[], Found::SlotsFirst),
    (
        &[LIFE, SLOTS, WHOSE, KNOWN, GONE, ENDED],
        &[],
        Found::LifeFirst,
    ),
    (
        &[SLOTS, LIFE, ENDED, GONE, KNOWN, WHOSE],
        &[],
        Found::SlotsFirst,
    ),
    (&[WHOSE, LIFE, SLOTS], &[], Found::Foreign),
    (&[LIFE, WHOSE], &[], Found::Foreign),
    (
        &[LIFE, SLOTS, "CREATE TABLE whose (one INTEGER PRIMARY KEY)"],
        &[],
        Found::Foreign,
    ),
    (
        &[
            LIFE,
            SLOTS,
            "CREATE TABLE gone (first INTEGER PRIMARY KEY, last INTEGER NOT NULL, state INTEGER)",
        ],
        &[],
        Found::Foreign,
    ),
    (
        &[LIFE, SLOTS, GONE, "CREATE INDEX states ON gone (state)"],
        &[],
        Found::Foreign,
    ),
];

#[test]
fn tables_beside_are_found(rt: HostRuntime) {
    assert_rows(&rt, rt.alloc(), FOUND);
}

const OURS: WhoseRow = WhoseRow {
    cluster: -7,
    node: 2,
    nodes: 3,
    at: 4,
};

// Rows are kept, in whichever order the two tables stand, and are put and read beside the others as without them.
const MARKED: &[Step] = &[
    Step::Writes(Write::Row((1000100001, 0, 262161, 0), &[]), Ok(())),
    Step::Writes(Write::Incarnation(None, 4), Ok(())),
    Step::Whose(false, Ok(None)),
    Step::Writes(Write::Beside, Ok(())),
    Step::Whose(true, Ok(None)),
    Step::Writes(Write::Whose(OURS), Ok(())),
    Step::Writes(Write::Whose(OURS), Err(Fault::Undone)),
    Step::Whose(true, Ok(Some(OURS))),
    Step::Writes(Write::Row((1000100001, 0, 262177, 262177), &[7]), Ok(())),
    Step::Writes(Write::Incarnation(Some(4), 5), Ok(())),
    Step::Sees(Ok((
        Some(((1000100001, 0, 262177, 262177), (1, Some(7), None))),
        None,
        None,
        None,
    ))),
    Step::Began(Ok(Some(5))),
];

const MARKS: &[Row] = &[
    (&[LIFE, SLOTS], MARKED, Found::LifeFirst),
    (&[SLOTS, LIFE], MARKED, Found::SlotsFirst),
    (
        &[
            LIFE,
            SLOTS,
            WHOSE,
            "INSERT INTO whose VALUES (1, 'x', 1, 1, 0)",
        ],
        &[Step::Whose(true, Err(ReadFault::Damaged))],
        Found::LifeFirst,
    ),
];

#[test]
fn a_store_says_whose_it_is(rt: HostRuntime) {
    assert_rows(&rt, rt.alloc(), MARKS);
}
