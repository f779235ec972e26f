//! Stores with notes.

use crate::same::assert_same;
use crate::values::{note, set, vote};
use noting_store::{FailingNotes, Note, NotingList, NotingStore};
use stable_store::{Found, GroupStore, ListStore, StableStore, StoreFault};
use std::alloc::Global;
use std::process::Abort;
use synod_acceptor::{Change, Record, Report};

fn list(alloc: Global) -> NotingList {
    NotingList::make(alloc, ListStore::make(alloc))
}

// The fault of a call that stores one note, or none.
fn fault_of<S: NotingStore>(
    rt: &impl Abort,
    alloc: Global,
    store: &mut S,
    one: Option<Note>,
) -> Option<StoreFault> {
    let mut notes = Vec::new(alloc);
    if let Some(one) = one {
        notes.push(one).ok().expect(rt, "memory");
    }
    let noted = store.note(&notes);
    drop(notes);
    noted.err()
}

// How many notes are loaded for so many nodes; and of the last of them the message, and the ballot of its vote.
fn loaded<S: NotingStore>(store: &mut S, nodes: u8) -> Result<(usize, u64, u64), StoreFault> {
    let notes = store.load_noted(nodes)?;
    let last = match notes.last() {
        Some(note) => (notes.len(), note.id().number(), note.vote().ballot.number()),
        None => (0, 0, 0),
    };
    drop(notes);
    Ok(last)
}

#[test]
fn what_was_noted_is_loaded(rt: HostRuntime) {
    let alloc = rt.alloc();
    let mut store = list(alloc);
    let none = loaded(&mut store, 3);
    let first = fault_of(
        &rt,
        alloc,
        &mut store,
        Some(note(&rt, alloc, true, 262161, &[1, 2])),
    );
    let second = fault_of(
        &rt,
        alloc,
        &mut store,
        Some(note(&rt, alloc, false, 262162, &[1, 3])),
    );
    let two = loaded(&mut store, 3);
    drop(store);
    assert_same(&rt, &none, &Ok((0, 0, 0)));
    assert_same(&rt, &(first, second), &(None, None));
    assert_same(&rt, &two, &Ok((2, 1000100001, 262161)));
}

#[test]
fn of_a_message_the_last_note_counts(rt: HostRuntime) {
    let alloc = rt.alloc();
    let mut store = list(alloc);
    fault_of(
        &rt,
        alloc,
        &mut store,
        Some(note(&rt, alloc, true, 262161, &[1, 2])),
    );
    fault_of(
        &rt,
        alloc,
        &mut store,
        Some(note(&rt, alloc, true, 262162, &[1, 3])),
    );
    let last = loaded(&mut store, 3);
    drop(store);
    assert_same(&rt, &last, &Ok((1, 1000100001, 262162)));
}

#[test]
fn notes_of_another_cluster_are_damaged(rt: HostRuntime) {
    let alloc = rt.alloc();
    let mut store = list(alloc);
    fault_of(
        &rt,
        alloc,
        &mut store,
        Some(note(&rt, alloc, true, 262161, &[1, 2])),
    );
    let of_two = loaded(&mut store, 2);
    let of_three = loaded(&mut store, 3);
    drop(store);
    assert_same(&rt, &of_two, &Err(StoreFault::Damaged));
    assert_same(&rt, &of_three, &Ok((1, 1000100001, 262161)));
}

// The faults of a call with no notes and of one with a note, what is loaded then, how many calls failed, and the fault of another call.
type Seen = (
    (Option<StoreFault>, Option<StoreFault>),
    Result<(usize, u64, u64), StoreFault>,
    u64,
    Option<StoreFault>,
);

fn seen<S: NotingStore>(rt: &impl Abort, alloc: Global, store: &mut S) -> Seen {
    let none = fault_of(rt, alloc, store, None);
    let first = fault_of(
        rt,
        alloc,
        store,
        Some(note(rt, alloc, true, 262161, &[1, 2])),
    );
    let loaded = loaded(store, 3);
    let failures = store.failures();
    let second = fault_of(
        rt,
        alloc,
        store,
        Some(note(rt, alloc, true, 262162, &[2, 3])),
    );
    ((none, first), loaded, failures, second)
}

#[test]
fn a_call_that_fails_may_have_stored_its_notes(rt: HostRuntime) {
    let alloc = rt.alloc();
    let device = Some(StoreFault::Device);
    let mut store = FailingNotes::make(list(alloc), 1, Found::After);
    let after = seen(&rt, alloc, &mut store);
    drop(store);
    assert_same(
        &rt,
        &after,
        &((None, device), Ok((1, 1000100001, 262161)), 1, None),
    );
    let mut store = FailingNotes::make(list(alloc), 1, Found::Before);
    let before = seen(&rt, alloc, &mut store);
    let mut under = store.into_store();
    let last = loaded(&mut under, 3);
    drop(under);
    assert_same(&rt, &before, &((None, device), Ok((0, 0, 0)), 1, None));
    assert_same(&rt, &last, &Ok((1, 1000100001, 262162)));
}

fn change(rt: &impl Abort, alloc: Global, ballot: u64) -> Change {
    let voted = vote(rt, alloc, true, ballot);
    let after = Record::make(voted.ballot, Report::Held(voted));
    Change {
        after: after.expect(rt, "a record in order"),
    }
}

// How many records are loaded, and which ballot is promised in the first.
fn records<S: StableStore>(rt: &impl Abort, store: &mut S) -> (usize, u64) {
    let records = store.load().expect(rt, "records");
    let promised = records.first().map(|record| record.promised().number());
    let loaded = (records.len(), promised.unwrap_or(0));
    drop(records);
    loaded
}

#[test]
fn notes_stand_beside_records(rt: HostRuntime) {
    let alloc = rt.alloc();
    let mut store = list(alloc);
    let change = change(&rt, alloc, 262161);
    let saved = store.save(&change);
    let incarnation = store
        .next_incarnation()
        .expect(&rt, "an incarnation")
        .number();
    fault_of(
        &rt,
        alloc,
        &mut store,
        Some(note(&rt, alloc, true, 262162, &[1, 2])),
    );
    let grouped = store.save_all(&[change]);
    let seen = (records(&rt, &mut store), loaded(&mut store, 3));
    let under = store.into_store();
    let count = under.saved().expect(&rt, "memory").len();
    drop(under);
    assert_same(&rt, &(saved, incarnation, grouped), &(Ok(()), 1, Ok(())));
    assert_same(&rt, &seen, &((2, 262161), Ok((1, 1000100001, 262162))));
    assert_same(&rt, &count, &2);
}
