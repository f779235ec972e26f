//! Notes in a store.

use crate::same::assert_same;
use crate::steps::{TAKEN, adopt, load};
use fate_chain::Chain;
use mc_types::{Ballot, NodeNo, NodeSet};
use noting_store::{Note, NotingStore};
use sql_store::{SqlStore, WhoseRow};
use sqlite::{Alter, MemStore};
use stable_store::{StableStore, StoreFault};
use std::alloc::Global;
use std::process::Abort;
use synod_acceptor::{Change, Record, Report, Vote};

const OURS: WhoseRow = WhoseRow {
    cluster: 7,
    node: 1,
    nodes: 3,
    at: 1,
};

// A store in memory that has all tables.
fn marked(rt: &impl Abort, alloc: Global) -> SqlStore<MemStore> {
    let store = SqlStore::in_memory(alloc).expect(rt, "a store");
    store.marked(alloc, &OURS).ok().expect(rt, "a mark")
}

fn set(rt: &impl Abort, numbers: &[u8]) -> NodeSet {
    let mut nodes = NodeSet::empty();
    for number in numbers {
        nodes.add(NodeNo::make(*number).expect(rt, "a node"));
    }
    nodes
}

fn vote(rt: &impl Abort, alloc: Global, ballot: u64) -> Vote {
    Vote {
        ballot: Ballot::of_number(ballot).expect(rt, "a ballot"),
        chain: Chain::read(alloc, TAKEN).expect(rt, "a chain"),
    }
}

// The fault of a call that stores a note of a vote at this ballot, of which these of three nodes told.
fn fault_of<S: Alter>(
    rt: &impl Abort,
    alloc: Global,
    store: &mut SqlStore<S>,
    ballot: u64,
    told: &[u8],
) -> Option<StoreFault> {
    let note = Note::make(3, vote(rt, alloc, ballot), set(rt, told)).expect(rt, "a note");
    let mut notes = Vec::new(alloc);
    notes.push(note).ok().expect(rt, "memory");
    let noted = store.note(&notes);
    drop(notes);
    noted.err()
}

fn fault_of_save<S: Alter>(
    rt: &impl Abort,
    alloc: Global,
    store: &mut SqlStore<S>,
) -> Option<StoreFault> {
    let voted = vote(rt, alloc, 262161);
    let after = Record::make(voted.ballot, Report::Held(voted)).expect(rt, "a record");
    store.save(&Change { after }).err()
}

// How many notes are loaded for so many nodes; and of the last of them the ballot, and who told.
type Loaded = Result<(usize, Option<(u64, NodeSet)>), StoreFault>;

fn loaded<S: Alter>(store: &mut SqlStore<S>, nodes: u8) -> Loaded {
    let notes = store.load_noted(nodes)?;
    let last = match notes.last() {
        Some(note) => Some((note.vote().ballot.number(), note.voters())),
        None => None,
    };
    Ok((notes.len(), last))
}

// The notes of three nodes, of five and of two.
fn seen<S: Alter>(store: &mut SqlStore<S>) -> (Loaded, Loaded, Loaded) {
    (loaded(store, 3), loaded(store, 5), loaded(store, 2))
}

#[test]
fn notes_are_loaded_beside_records(rt: HostRuntime) {
    let alloc = rt.alloc();
    let mut store = marked(&rt, alloc);
    let saved = fault_of_save(&rt, alloc, &mut store);
    let first = fault_of(&rt, alloc, &mut store, 262161, &[1, 2]);
    let second = fault_of(&rt, alloc, &mut store, 262177, &[2, 3]);
    let before = seen(&mut store);
    let mut again = adopt(&rt, alloc, store.into_connection());
    let after = seen(&mut again);
    let records = load(&mut again);
    let failures = again.failures();
    drop(again);
    let one = Ok((1, Some((262177, set(&rt, &[2, 3])))));
    let wanted = (one, Err(StoreFault::Damaged), Err(StoreFault::Damaged));
    let record = Some((1000100001, 0, 262161, 262161));
    assert_same(&rt, &(saved, first, second), &(None, None, None));
    assert_same(&rt, &before, &wanted);
    assert_same(&rt, &after, &wanted);
    assert_same(&rt, &(records, failures), &(Ok((1, record, record)), 0));
}

#[test]
fn a_store_of_an_earlier_program_keeps_none(rt: HostRuntime) {
    let alloc = rt.alloc();
    let mut store = SqlStore::in_memory(alloc).expect(&rt, "a store");
    let noted = fault_of(&rt, alloc, &mut store, 262161, &[1, 2]);
    let saved = fault_of_save(&rt, alloc, &mut store);
    let loaded = loaded(&mut store, 3);
    let failures = store.failures();
    drop(store);
    assert_same(&rt, &(noted, saved, failures), &(None, None, 0));
    assert_same(&rt, &loaded, &Ok((0, None)));
}

// One of three told, nobody, a node that there is not, a bit of no node, and no set.
const NO_VOTERS: &[&str] = &[
    "INSERT INTO known VALUES (1000100001, 0, 262161, 1, x'01000000003b9c50a1000101010001386d438004736d653104736d6531000101033134340101033135350000000100386d4380387138000248690000')",
    "INSERT INTO known VALUES (1000100001, 0, 262161, 0, x'01000000003b9c50a1000101010001386d438004736d653104736d6531000101033134340101033135350000000100386d4380387138000248690000')",
    "INSERT INTO known VALUES (1000100001, 0, 262161, 11, x'01000000003b9c50a1000101010001386d438004736d653104736d6531000101033134340101033135350000000100386d4380387138000248690000')",
    "INSERT INTO known VALUES (1000100001, 0, 262161, 515, x'01000000003b9c50a1000101010001386d438004736d653104736d6531000101033134340101033135350000000100386d4380387138000248690000')",
    "INSERT INTO known VALUES (1000100001, 0, 262161, -1, x'01000000003b9c50a1000101010001386d438004736d653104736d6531000101033134340101033135350000000100386d4380387138000248690000')",
];

// No ballot, no id, a chain of another message, at another place or at none, and a chain that is cut.
const NO_VOTES: &[&str] = &[
    "INSERT INTO known VALUES (1000100001, 0, 0, 3, x'01000000003b9c50a1000101010001386d438004736d653104736d6531000101033134340101033135350000000100386d4380387138000248690000')",
    "INSERT INTO known VALUES (1000100001, 0, 262160, 3, x'01000000003b9c50a1000101010001386d438004736d653104736d6531000101033134340101033135350000000100386d4380387138000248690000')",
    "INSERT INTO known VALUES (7, 0, 262161, 3, x'01000000003b9c50a1000101010001386d438004736d653104736d6531000101033134340101033135350000000100386d4380387138000248690000')",
    "INSERT INTO known VALUES (1000100002, 0, 262161, 3, x'01000000003b9c50a1000101010001386d438004736d653104736d6531000101033134340101033135350000000100386d4380387138000248690000')",
    "INSERT INTO known VALUES (1000100001, 1, 262161, 3, x'01000000003b9c50a1000101010001386d438004736d653104736d6531000101033134340101033135350000000100386d4380387138000248690000')",
    "INSERT INTO known VALUES (1000100001, 256, 262161, 3, x'01000000003b9c50a1000101010001386d438004736d653104736d6531000101033134340101033135350000000100386d4380387138000248690000')",
    "INSERT INTO known VALUES (1000100001, 0, 262161, 3, x'01000000003b9c50a1000101010001386d438004736d653104736d6531000101033134340101033135350000000100386d43803871380002486900')",
];

fn is_damaged(rt: &impl Abort, alloc: Global, row: &str) -> bool {
    let mut conn = marked(rt, alloc).into_connection();
    conn.execute(row, &[]).expect(rt, "a statement");
    let mut store = adopt(rt, alloc, conn);
    let loaded = loaded(&mut store, 3);
    let records = load(&mut store);
    let failures = store.failures();
    drop(store);
    assert_same(rt, &(records, failures), &(Ok((0, None, None)), 0));
    loaded == Err(StoreFault::Damaged)
}

#[test]
fn rows_that_are_no_notes_are_damaged(rt: HostRuntime) {
    let alloc = rt.alloc();
    for row in NO_VOTERS {
        assert_same(&rt, &(*row, is_damaged(&rt, alloc, row)), &(*row, true));
    }
    for row in NO_VOTES {
        assert_same(&rt, &(*row, is_damaged(&rt, alloc, row)), &(*row, true));
    }
}
