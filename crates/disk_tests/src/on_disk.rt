//! A node over a store on disk.

use crate::member::opened_over;
use crate::same::assert_same;
use lines_of_tests::{ALONE, ATTEMPTS, PACKETS, TAKEN, TICKS, first_other, node};
use node_core::Setup;
use record_rows::{read_incarnation, read_slots};
use sql_store::SqlStore;
use sqlite::{Alter, Connection};
use stable_store::StableStore;
use std::alloc::Global;
use std::process::Abort;

// That of one of so many nodes, whose messages are valid for so many seconds.
pub fn set_up(rt: &impl Abort, number: u64, nodes: u8, validity: u32) -> Setup {
    let number = node(number).expect(rt, "a node");
    Setup::make(number, nodes, 1, validity).expect(rt, "a setup")
}

// That a node which opens over a store answers as the rows of a part say. The store, once it has stopped.
pub fn walked<S: StableStore + Drop>(
    rt: &impl Abort,
    alloc: Global,
    store: S,
    setup: Setup,
    part: &str,
) -> S {
    let mut node = opened_over(rt, alloc, store, setup);
    let other = first_other(alloc, &mut node, part);
    assert_same(rt, &(part, other), &(part, None));
    node.into_store()
}

// That a node over a new store on disk, another one for each part, answers as the rows say.
fn assert_parts(rt: &impl Abort, alloc: Global, setup: Setup, parts: &str) {
    for part in parts.split("\n\n") {
        let store = SqlStore::in_memory(alloc).expect(rt, "a store");
        drop(walked(rt, alloc, store, setup, part));
    }
}

#[test]
fn nodes_on_disk_answer_as_those_over_lists(rt: HostRuntime) {
    let alloc = rt.alloc();
    assert_parts(&rt, alloc, set_up(&rt, 1, 1, 172800), ALONE);
    let second = set_up(&rt, 2, 3, 172800);
    for parts in [PACKETS, ATTEMPTS, TICKS] {
        assert_parts(&rt, alloc, second, parts);
    }
}

// That the tables hold the first incarnation, and the vote for the chain of the first message alone, which is in its first slot.
fn assert_stored<S: Alter>(rt: &impl Abort, alloc: Global, conn: &mut Connection<S>) {
    assert_same(rt, &read_incarnation(conn), &Ok(Some(1)));
    let rows = read_slots(alloc, conn).expect(rt, "rows");
    let [row] = rows.as_slice() else {
        panic!(rt; "one row");
    };
    let numbers = (row.id, row.place, row.promised, row.voted);
    assert_same(rt, &numbers, &(1000100001, 0, 262161, 262161));
    assert_same(rt, &row.chain.as_slice(), &TAKEN);
    drop(rows);
}

#[test]
fn a_message_is_a_row(rt: HostRuntime) {
    let before = "\
a submit is stored
submit_with_receipt => Waits 1
back => Accepted 1 1000100001";
    let after = "\
it is there once the node opens again
query => Waits 1
back => Shown 1 1";
    let alloc = rt.alloc();
    // The message of the chain is valid for three days.
    let setup = set_up(&rt, 1, 1, 259200);
    let store = SqlStore::in_memory(alloc).expect(&rt, "a store");
    let store = walked(&rt, alloc, store, setup, before);
    let mut conn = store.into_connection();
    assert_stored(&rt, alloc, &mut conn);
    let Ok(store) = SqlStore::adopt(alloc, conn) else {
        panic!(&rt; "a store");
    };
    drop(walked(&rt, alloc, store, setup, after));
}
