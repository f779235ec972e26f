//! What a store says of itself.

use crate::same::assert_same;
use crate::steps::{Saved, Step, played};
use sql_store::{Said, SqlStore, WhoseRow};
use sqlite::Alter;
use stable_store::StoreFault;
use std::alloc::Global;
use std::process::Abort;

const OURS: WhoseRow = WhoseRow {
    cluster: 7,
    node: 1,
    nodes: 3,
    at: 1,
};

// It says whose it is once it is marked, and its records and its incarnation stay.
const MARKED: &[Step] = &[
    Step::Begins(Ok(1)),
    Step::Saves(Saved::Promise(1000100001, 3, 262161)),
    Step::Says(Said {
        whose: None,
        last: Some(1),
    }),
    Step::IsMarked(OURS),
    Step::Says(Said {
        whose: Some(OURS),
        last: Some(1),
    }),
    Step::Loads(Ok((
        1,
        Some((1000100001, 3, 262161, 0)),
        Some((1000100001, 3, 262161, 0)),
    ))),
    Step::Begins(Ok(2)),
];

// It is marked once.
fn assert_marked<S: Alter + Drop>(
    rt: &impl Abort,
    alloc: Global,
    opened: Result<SqlStore<S>, StoreFault>,
) {
    let store = opened.expect(rt, "a store");
    let store = played(rt, alloc, store, "a marked store says whose it is", MARKED);
    let again = store.marked(alloc, &OURS).err();
    assert_same(rt, &again, &Some(StoreFault::Device));
}

#[test]
fn a_marked_store_says_whose_it_is(rt: HostRuntime) {
    assert_marked(&rt, rt.alloc(), SqlStore::in_memory(rt.alloc()));
}
