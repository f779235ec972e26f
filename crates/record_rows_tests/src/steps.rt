//! What is done in a database and what is seen there, step by step.

use crate::same::assert_same;
use record_rows::{
    Fault, Found, ReadFault, SlotRow, WhoseRow, add_beside, add_life, add_slots, find_tables,
    has_whose, make_tables, put_incarnation, put_slot, put_slots, put_whose, read_incarnation,
    read_slots, read_whose,
};
use sqlite::{Alter, Connection};
use std::alloc::Global;
use std::process::Abort;

pub const LIFE: &str =
    "CREATE TABLE life (one INTEGER PRIMARY KEY CHECK (one = 1), incarnation INTEGER NOT NULL)";

pub const SLOTS: &str =
    "CREATE TABLE slots (id INTEGER NOT NULL, place INTEGER NOT NULL, promised INTEGER NOT NULL, voted INTEGER NOT NULL, chain BLOB NOT NULL, PRIMARY KEY (id, place))";

// An id and a place, a promise and a vote.
type Numbers = (i64, i64, i64, i64);

// What is seen of a row: its numbers, how many octets its chain has, and the first two.
pub type Seen = (Numbers, (usize, Option<u8>, Option<u8>));

// The first four rows that are read, or why none is.
pub type Seeing = Result<(Option<Seen>, Option<Seen>, Option<Seen>, Option<Seen>), ReadFault>;

pub const NO_ROWS: Seeing = Ok((None, None, None, None));

// What is written.
#[derive(Clone, Copy)]
pub enum Write {
    // One of the two tables, or both.
    Slots,
    Life,
    Both,
    // The tables beside the two.
    Beside,
    // A row with these numbers and this chain.
    Row(Numbers, &'static [u8]),
    // Several such rows at once.
    Rows(&'static [(Numbers, &'static [u8])]),
    // The incarnation behind this one.
    Incarnation(Option<i64>, i64),
    Whose(WhoseRow),
}

// What is done or read, and what that answers.
#[derive(Clone, Copy)]
pub enum Step {
    Writes(Write, Result<(), Fault>),
    Sees(Seeing),
    // The last incarnation.
    Began(Result<Option<i64>, ReadFault>),
    // Whether there is a table of whose the store is, and what it says.
    Whose(bool, Result<Option<WhoseRow>, ReadFault>),
}

// The statements that are run in a new database, the steps that are taken there, and which tables are found then.
pub type Row<'a> = (&'a [&'a str], &'a [Step], Found);

fn row(rt: &impl Abort, alloc: Global, numbers: Numbers, chain: &[u8]) -> SlotRow {
    let (id, place, promised, voted) = numbers;
    let chain = Vec::from_slice(alloc, chain).expect(rt, "octets");
    SlotRow {
        id,
        place,
        promised,
        voted,
        chain,
    }
}

fn put_all<S: Alter>(
    rt: &impl Abort,
    alloc: Global,
    conn: &mut Connection<S>,
    written: &[(Numbers, &[u8])],
) -> Result<(), Fault> {
    let mut rows = Vec::new(alloc);
    for (numbers, chain) in written {
        let row = row(rt, alloc, *numbers, chain);
        rows.push(row).ok().expect(rt, "memory");
    }
    put_slots(conn, &rows)
}

fn written<S: Alter>(
    rt: &impl Abort,
    alloc: Global,
    conn: &mut Connection<S>,
    write: Write,
) -> Result<(), Fault> {
    match write {
        Write::Slots => add_slots(conn),
        Write::Life => add_life(conn),
        Write::Both => make_tables(conn),
        Write::Beside => add_beside(conn),
        Write::Row(numbers, chain) => put_slot(conn, &row(rt, alloc, numbers, chain)),
        Write::Rows(rows) => put_all(rt, alloc, conn, rows),
        Write::Incarnation(last, next) => put_incarnation(conn, last, next),
        Write::Whose(row) => put_whose(conn, &row),
    }
}

fn seen_of(row: &SlotRow) -> Seen {
    let octets = row.chain.as_slice();
    let first = octets.first().copied();
    let second = octets.get(1).copied();
    (
        (row.id, row.place, row.promised, row.voted),
        (octets.len(), first, second),
    )
}

fn seen<S: Alter>(alloc: Global, conn: &mut Connection<S>) -> Seeing {
    let rows = read_slots(alloc, conn)?;
    let at = |place: usize| rows.get(place).map(seen_of);
    Ok((at(0), at(1), at(2), at(3)))
}

fn last<S: Alter>(conn: &mut Connection<S>) -> Result<Option<i64>, ReadFault> {
    read_incarnation(conn)
}

fn whose<S: Alter>(conn: &mut Connection<S>) -> (bool, Result<Option<WhoseRow>, ReadFault>) {
    (has_whose(conn), read_whose(conn))
}

// Takes a step, and compares what it answers. A failure prints the statements, and the number of the step.
fn take<S: Alter>(
    rt: &impl Abort,
    alloc: Global,
    conn: &mut Connection<S>,
    at: (&[&str], usize),
    step: Step,
) {
    match step {
        Step::Writes(write, wanted) => {
            let written = written(rt, alloc, conn, write);
            assert_same(rt, &(at, written), &(at, wanted));
        }
        Step::Sees(wanted) => assert_same(rt, &(at, seen(alloc, conn)), &(at, wanted)),
        Step::Began(wanted) => assert_same(rt, &(at, last(conn)), &(at, wanted)),
        Step::Whose(has, wanted) => assert_same(rt, &(at, whose(conn)), &(at, (has, wanted))),
    }
}

fn run<S: Alter>(rt: &impl Abort, conn: &mut Connection<S>, texts: &[&str]) {
    for text in texts {
        conn.execute(text, &[]).expect(rt, "a statement");
    }
}

fn play<S: Alter + Drop>(
    rt: &impl Abort,
    alloc: Global,
    mut conn: Connection<S>,
    (texts, steps, wanted): Row<'_>,
) {
    run(rt, &mut conn, texts);
    for (number, step) in steps.iter().enumerate() {
        take(rt, alloc, &mut conn, (texts, number), *step);
    }
    let found = find_tables(alloc, &conn).ok();
    drop(conn);
    assert_same(rt, &(texts, found), &(texts, Some(wanted)));
}

// That the steps of a row answer what they are to answer.
pub fn assert_row(rt: &impl Abort, alloc: Global, row: Row<'_>) {
    let conn = Connection::open_in_memory(alloc).expect(rt, "a database");
    play(rt, alloc, conn, row);
}

pub fn assert_rows(rt: &impl Abort, alloc: Global, rows: &[Row<'_>]) {
    for row in rows {
        assert_row(rt, alloc, *row);
    }
}
