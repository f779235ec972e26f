//! Rows that are put and read.

use crate::steps::{LIFE, NO_ROWS, Row, SLOTS, Step, Write, assert_row, assert_rows};
use record_rows::{Found, ReadFault};

// Rows that were put are read by id and place, and one that is put again takes the place of the first.
const PUT: &[Step] = &[
    Step::Sees(NO_ROWS),
    Step::Writes(Write::Row((1000200001, 0, 262161, 0), &[]), Ok(())),
    Step::Writes(Write::Row((1000100001, 1, 524305, 262161), &[1, 2]), Ok(())),
    Step::Writes(Write::Row((1000100001, 0, 262161, 262161), &[1]), Ok(())),
    Step::Writes(Write::Row((1000200001, 0, 262177, 262177), &[7]), Ok(())),
    Step::Sees(Ok((
        Some(((1000100001, 0, 262161, 262161), (1, Some(1), None))),
        Some(((1000100001, 1, 524305, 262161), (2, Some(1), Some(2)))),
        Some(((1000200001, 0, 262177, 262177), (1, Some(7), None))),
        None,
    ))),
];

// Rows that are put at once are there in their order: of two with one key the second is. No rows are none.
const TOGETHER: &[Step] = &[
    Step::Writes(Write::Rows(&[]), Ok(())),
    Step::Sees(NO_ROWS),
    Step::Writes(Write::Rows(&[((1000200001, 0, 262161, 0), &[])]), Ok(())),
    Step::Writes(
        Write::Rows(&[
            ((1000100001, 1, 262161, 262161), &[1, 2]),
            ((1000100001, 0, 262161, 262161), &[1]),
            ((1000100001, 1, 524305, 262161), &[3, 4]),
            ((1000200001, 0, 262177, 262177), &[7]),
        ]),
        Ok(()),
    ),
    Step::Sees(Ok((
        Some(((1000100001, 0, 262161, 262161), (1, Some(1), None))),
        Some(((1000100001, 1, 524305, 262161), (2, Some(3), Some(4)))),
        Some(((1000200001, 0, 262177, 262177), (1, Some(7), None))),
        None,
    ))),
];

const INCARNATIONS: &[Step] = &[
    Step::Began(Ok(None)),
    Step::Writes(Write::Incarnation(None, 1), Ok(())),
    Step::Began(Ok(Some(1))),
    Step::Writes(Write::Incarnation(Some(1), 2), Ok(())),
    Step::Began(Ok(Some(2))),
];

// Numbers out of range are left to the reader.
const RAW: &[Step] = &[Step::Sees(Ok((
    Some((
        (-1, 9223372036854775807, -9223372036854775808, 5),
        (2, Some(0), Some(255)),
    )),
    None,
    None,
    None,
)))];

const ROWS: &[Row] = &[
    (&[LIFE, SLOTS], PUT, Found::LifeFirst),
    (&[SLOTS, LIFE], PUT, Found::SlotsFirst),
    (&[LIFE, SLOTS], TOGETHER, Found::LifeFirst),
    (&[SLOTS, LIFE], TOGETHER, Found::SlotsFirst),
    (&[SLOTS, LIFE], INCARNATIONS, Found::SlotsFirst),
    (
        &[
            LIFE,
            SLOTS,
            "INSERT INTO slots VALUES (-1, 9223372036854775807, -9223372036854775808, '5', x'00ff')",
        ],
        RAW,
        Found::LifeFirst,
    ),
    (
        &[LIFE, SLOTS, "INSERT INTO life VALUES (1, 'x')"],
        &[Step::Began(Err(ReadFault::Damaged))],
        Found::LifeFirst,
    ),
];

#[test]
fn rows_are_put_and_read(rt: HostRuntime) {
    assert_rows(&rt, rt.alloc(), ROWS);
}

const REFUSED: &[Step] = &[Step::Sees(Err(ReadFault::Damaged))];

// What the columns of `slots` let through and no record is.
const DAMAGED: &[&[&str]] = &[
    &[LIFE, SLOTS, "INSERT INTO slots VALUES (1.5, 1, 1, 1, x'')"],
    &[LIFE, SLOTS, "INSERT INTO slots VALUES (1, 1.5, 1, 1, x'')"],
    &[LIFE, SLOTS, "INSERT INTO slots VALUES (1, 1, 1.5, 1, x'')"],
    &[LIFE, SLOTS, "INSERT INTO slots VALUES (1, 1, 1, 1.5, x'')"],
    &[LIFE, SLOTS, "INSERT INTO slots VALUES ('x', 1, 1, 1, x'')"],
    &[LIFE, SLOTS, "INSERT INTO slots VALUES (1, 'x', 1, 1, x'')"],
    &[LIFE, SLOTS, "INSERT INTO slots VALUES (1, 1, 'x', 1, x'')"],
    &[LIFE, SLOTS, "INSERT INTO slots VALUES (1, 1, 1, 'x', x'')"],
    &[
        LIFE,
        SLOTS,
        "INSERT INTO slots VALUES (x'01', 1, 1, 1, x'')",
    ],
    &[
        LIFE,
        SLOTS,
        "INSERT INTO slots VALUES (1, x'01', 1, 1, x'')",
    ],
    &[
        LIFE,
        SLOTS,
        "INSERT INTO slots VALUES (1, 1, x'01', 1, x'')",
    ],
    &[
        LIFE,
        SLOTS,
        "INSERT INTO slots VALUES (1, 1, 1, x'01', x'')",
    ],
    &[LIFE, SLOTS, "INSERT INTO slots VALUES (1, 0, 1, 0, 1)"],
    &[LIFE, SLOTS, "INSERT INTO slots VALUES (1, 0, 1, 0, 1.5)"],
    &[LIFE, SLOTS, "INSERT INTO slots VALUES (1, 0, 1, 0, 'x')"],
];

#[test]
fn damaged_rows_are_refused(rt: HostRuntime) {
    for texts in DAMAGED {
        assert_row(&rt, rt.alloc(), (texts, REFUSED, Found::LifeFirst));
    }
}
