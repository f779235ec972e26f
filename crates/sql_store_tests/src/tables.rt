//! Which databases are adopted.

use crate::same::assert_same;
use crate::steps::{Step, adopt, played};
use sql_store::SqlStore;
use sqlite::{Alter, Connection, MemStore};
use stable_store::StoreFault;
use std::alloc::Global;
use std::process::Abort;

const LIFE: &str =
    "CREATE TABLE life (one INTEGER PRIMARY KEY CHECK (one = 1), incarnation INTEGER NOT NULL)";

const SLOTS: &str =
    "CREATE TABLE slots (id INTEGER NOT NULL, place INTEGER NOT NULL, promised INTEGER NOT NULL, voted INTEGER NOT NULL, chain BLOB NOT NULL, PRIMARY KEY (id, place))";

const OTHER: &str = "CREATE TABLE other (x)";

const UNCHECKED: &str = "CREATE TABLE life (one INTEGER PRIMARY KEY, incarnation INTEGER NOT NULL)";

// A new database in which these statements were run.
fn database(rt: &impl Abort, alloc: Global, texts: &[&str]) -> Connection<MemStore> {
    let mut conn = Connection::open_in_memory(alloc).expect(rt, "a database");
    for text in texts {
        conn.execute(text, &[]).expect(rt, "a statement");
    }
    conn
}

// The statements that make a database, and the steps that are taken with the store over it.
type Adopted = (&'static [&'static str], &'static [Step<'static>]);

const ADOPTED: &[Adopted] = &[
    // The incarnation is kept if slots are absent.
    (
        &[LIFE, "INSERT INTO life VALUES (1, 5)"],
        &[Step::Loads(Ok((0, None, None))), Step::Begins(Ok(6))],
    ),
    // The records are kept if life is absent.
    (
        &[
            SLOTS,
            "INSERT INTO slots VALUES (1000100001, 3, 262161, 0, x'')",
        ],
        &[
            Step::Loads(Ok((
                1,
                Some((1000100001, 3, 262161, 0)),
                Some((1000100001, 3, 262161, 0)),
            ))),
            Step::Begins(Ok(1)),
        ],
    ),
    (&[SLOTS, LIFE], &[]),
];

fn assert_adopted<S: Alter + Drop>(
    rt: &impl Abort,
    alloc: Global,
    conn: Connection<S>,
    (texts, steps): Adopted,
) {
    let store = adopt(rt, alloc, conn);
    let name = texts.last().copied().unwrap_or("an empty database");
    drop(played(rt, alloc, store, name, steps));
}

#[test]
fn absent_tables_are_made(rt: HostRuntime) {
    let alloc = rt.alloc();
    for row in ADOPTED {
        assert_adopted(&rt, alloc, database(&rt, alloc, row.0), *row);
    }
}

// The statements that make a database, one that is run on the connection once it is refused and handed back, and whether it is adopted then.
type Refused = (&'static [&'static str], &'static str, bool);

const REFUSED: &[Refused] = &[
    // Foreign databases.
    (&[OTHER], "INSERT INTO other VALUES (1)", false),
    (&[LIFE, SLOTS, OTHER], "INSERT INTO other VALUES (1)", false),
    (&[UNCHECKED, SLOTS], "INSERT INTO life VALUES (1, 1)", false),
    // A connection in a transaction.
    (&["BEGIN"], "COMMIT", true),
];

// Whether this statement is run on the connection, and whether it is adopted then.
fn handed_back<S: Alter + Drop>(
    alloc: Global,
    mut conn: Connection<S>,
    text: &str,
) -> (bool, bool) {
    let ran = conn.execute(text, &[]).is_ok();
    (ran, SqlStore::adopt(alloc, conn).is_ok())
}

fn assert_refused<S: Alter + Drop>(
    rt: &impl Abort,
    alloc: Global,
    conn: Connection<S>,
    (texts, text, adopted): Refused,
) {
    let refusal = SqlStore::adopt(alloc, conn).err();
    let (fault, conn) = refusal.expect(rt, "a refusal");
    let found = (fault, handed_back(alloc, conn, text));
    let wanted = (StoreFault::Device, (true, adopted));
    assert_same(rt, &(texts, found), &(texts, wanted));
}

#[test]
fn foreign_databases_are_refused_and_handed_back(rt: HostRuntime) {
    let alloc = rt.alloc();
    for row in REFUSED {
        assert_refused(&rt, alloc, database(&rt, alloc, row.0), *row);
    }
}
