//! Rows of `known`, which stands behind `whose`.

use crate::same::assert_same;
use record_rows::{
    Found, KnownRow, ReadFault, add_beside, find_tables, has_known, make_tables, put_known,
    read_incarnation, read_known,
};
use sqlite::{Connection, MemStore};
use std::alloc::Global;
use std::process::Abort;

fn row(rt: &impl Abort, alloc: Global, id: i64, voted: i64) -> KnownRow {
    KnownRow {
        id,
        place: 1,
        voted,
        voters: 5,
        chain: Vec::from_slice(alloc, b"chain").expect(rt, "memory"),
    }
}

// A new database with all tables.
fn with_tables(rt: &impl Abort, alloc: Global) -> Connection<MemStore> {
    let mut conn = Connection::open_in_memory(alloc).expect(rt, "a database");
    make_tables(&mut conn).expect(rt, "tables");
    add_beside(&mut conn).expect(rt, "tables beside");
    conn
}

// Of each row that is read its id and its vote.
fn read(rt: &impl Abort, alloc: Global, conn: &mut Connection<MemStore>) -> Vec<(i64, i64)> {
    let rows = read_known(alloc, conn).expect(rt, "rows");
    let mut seen = Vec::new(alloc);
    for row in &rows {
        assert_same(rt, &(row.place, row.voters), &(1, 5));
        assert_same(rt, &row.chain.as_slice(), &b"chain".as_slice());
        seen.push((row.id, row.voted)).expect(rt, "memory");
    }
    drop(rows);
    seen
}

#[test]
fn a_row_takes_the_place_of_that_with_its_id(rt: HostRuntime) {
    let alloc = rt.alloc();
    let mut conn = with_tables(&rt, alloc);
    let before = (has_known(&conn), read(&rt, alloc, &mut conn).len());
    let first = [
        row(&rt, alloc, 7, 1),
        row(&rt, alloc, 4, 2),
        row(&rt, alloc, 7, 3),
    ];
    let put = put_known(&mut conn, &first);
    let second = [row(&rt, alloc, 4, 4)];
    let again = put_known(&mut conn, &second);
    let none = put_known(&mut conn, &[]);
    drop((first, second));
    let seen = read(&rt, alloc, &mut conn);
    let found = find_tables(alloc, &conn).expect(&rt, "memory");
    let incarnation = read_incarnation(&mut conn);
    drop(conn);
    assert_same(&rt, &before, &(true, 0));
    assert_same(&rt, &(put, again, none), &(Ok(()), Ok(()), Ok(())));
    assert_same(&rt, &seen.as_slice(), &[(4, 4), (7, 3)].as_slice());
    assert_same(&rt, &(found, incarnation), &(Found::LifeFirst, Ok(None)));
    drop(seen);
}

#[test]
fn tables_of_an_earlier_program_have_no_such_rows(rt: HostRuntime) {
    let alloc = rt.alloc();
    let mut conn = Connection::open_in_memory(alloc).expect(&rt, "a database");
    make_tables(&mut conn).expect(&rt, "tables");
    let has = has_known(&conn);
    let put = put_known(&mut conn, &[row(&rt, alloc, 7, 1)]);
    let found = find_tables(alloc, &conn).expect(&rt, "memory");
    drop(conn);
    assert_same(
        &rt,
        &(has, put.is_err(), found),
        &(false, true, Found::LifeFirst),
    );
}

#[test]
fn a_row_of_another_type_is_damaged(rt: HostRuntime) {
    let alloc = rt.alloc();
    let mut conn = with_tables(&rt, alloc);
    conn.execute_batch("INSERT INTO known VALUES (7, 1, 'text', 5, x'00')")
        .expect(&rt, "a row");
    let read = read_known(alloc, &mut conn);
    let is_damaged = matches!(&read, Err(ReadFault::Damaged));
    drop((read, conn));
    assert_same(&rt, &is_damaged, &true);
}
