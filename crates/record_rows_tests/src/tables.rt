//! Tables that are found and made.

use crate::steps::{LIFE, NO_ROWS, Row, SLOTS, Step, Write, assert_rows};
use record_rows::{Fault, Found};

const OTHER: &str = "CREATE TABLE other (x)";

const UNCHECKED: &str = "CREATE TABLE life (one INTEGER PRIMARY KEY, incarnation INTEGER NOT NULL)";

// The tables are recognised, and no other form of them. Each is added beside the other. They are made together or not at all: what was there
// stays, and in a database that has one of them, neither is made.
const MADE: &[Row] = &[
    (&[], &[], Found::Neither),
    (&[LIFE], &[], Found::LifeAlone),
    (&[LIFE, SLOTS], &[], Found::LifeFirst),
    (&[LIFE, SLOTS, OTHER], &[], Found::Foreign),
    (&[SLOTS, LIFE], &[], Found::SlotsFirst),
    (&[UNCHECKED, SLOTS], &[], Found::Foreign),
    (
        &[LIFE],
        &[Step::Writes(Write::Slots, Ok(()))],
        Found::LifeFirst,
    ),
    (
        &[SLOTS],
        &[Step::Writes(Write::Life, Ok(()))],
        Found::SlotsFirst,
    ),
    (
        &[SLOTS],
        &[Step::Writes(Write::Both, Err(Fault::Undone))],
        Found::SlotsAlone,
    ),
    (
        &[],
        &[
            Step::Writes(Write::Both, Ok(())),
            Step::Sees(NO_ROWS),
            Step::Began(Ok(None)),
        ],
        Found::LifeFirst,
    ),
];

#[test]
fn tables_are_found_and_made(rt: HostRuntime) {
    assert_rows(&rt, rt.alloc(), MADE);
}
