//! Stores.

use crate::same::assert_same;
use crate::values::{ballot, vote};
use stable_store::{
    FailingStore, Found, GroupStore, Hold, HoldingStore, Latch, LatchHold, ListStore, StableStore,
    StoreFault,
};
use std::alloc::Global;
use std::process::Abort;
use std::sync::atomic::{AtomicBool, Ordering};
use std::sync::{Arc, Wait};
use std::thread;
use std::thread::Threads;
use synod_acceptor::{Change, Record, Report};

fn change(rt: &impl Abort, alloc: Global, promised: u64) -> Change {
    let report = Report::Held(vote(rt, alloc, 262161));
    let after = Record::make(ballot(rt, promised), report).expect(rt, "a record in order");
    Change { after }
}

fn next_incarnation(rt: &impl Abort, store: &mut ListStore) -> u16 {
    let next = store.next_incarnation();
    next.expect(rt, "an incarnation").number()
}

#[test]
fn incarnations_are_counted(rt: HostRuntime) {
    let mut store = ListStore::make(rt.alloc());
    let first = next_incarnation(&rt, &mut store);
    let second = next_incarnation(&rt, &mut store);
    drop(store);
    assert_same(&rt, &(first, second), &(1, 2));
}

#[test]
fn there_are_9999_incarnations(rt: HostRuntime) {
    let mut store = ListStore::make(rt.alloc());
    for _ in 0..9999 {
        next_incarnation(&rt, &mut store);
    }
    let next = store.next_incarnation();
    drop(store);
    assert_same(&rt, &next, &Err(StoreFault::Incarnations));
}

// The fault of a save in which the ballot of this number is promised.
fn fault_of<S: StableStore>(
    rt: &impl Abort,
    alloc: Global,
    store: &mut S,
    promised: u64,
) -> Option<StoreFault> {
    let change = change(rt, alloc, promised);
    let saved = store.save(&change);
    drop(change);
    saved.err()
}

// How many records are loaded, and which ballot is promised in the first.
fn loaded<S: StableStore>(rt: &impl Abort, store: &mut S) -> (usize, Option<u64>) {
    let records = store.load().expect(rt, "records");
    let promised = records.first().map(|record| record.promised().number());
    let loaded = (records.len(), promised);
    drop(records);
    loaded
}

// The faults of two saves, how many records are loaded then with the ballot that is promised in the first, and how many saves failed.
type Seen = (
    (Option<StoreFault>, Option<StoreFault>),
    (usize, Option<u64>),
    u64,
);

// The faults of two saves, the ballots of which are promised one after the other, what is loaded then, and how many saves failed.
fn saved_and_loaded<S: StableStore>(rt: &impl Abort, alloc: Global, store: &mut S) -> Seen {
    let first = fault_of(rt, alloc, store, 262161);
    let second = fault_of(rt, alloc, store, 262162);
    let loaded = loaded(rt, store);
    ((first, second), loaded, store.failures())
}

#[test]
fn what_was_saved_is_loaded(rt: HostRuntime) {
    let alloc = rt.alloc();
    let mut store = ListStore::make(alloc);
    let seen = saved_and_loaded(&rt, alloc, &mut store);
    drop(store);
    assert_same(&rt, &seen, &((None, None), (2, Some(262162)), 0));
}

#[test]
fn the_second_save_fails_and_is_found(rt: HostRuntime) {
    let alloc = rt.alloc();
    let mut store = FailingStore::make(ListStore::make(alloc), 2, Found::After);
    let seen = saved_and_loaded(&rt, alloc, &mut store);
    drop(store);
    let faults = (None, Some(StoreFault::Device));
    assert_same(&rt, &seen, &(faults, (2, Some(262162)), 1));
}

#[test]
fn the_first_save_fails_and_is_lost(rt: HostRuntime) {
    let alloc = rt.alloc();
    let mut store = FailingStore::make(ListStore::make(alloc), 1, Found::Before);
    let seen = saved_and_loaded(&rt, alloc, &mut store);
    let store = store.into_store();
    let saved = count_of(&rt, &store);
    drop(store);
    let faults = (Some(StoreFault::Device), None);
    assert_same(&rt, &seen, &(faults, (1, Some(262162)), 1));
    assert_same(&rt, &saved, &1);
}

#[test]
fn the_second_of_two_saves_is_the_next_to_fail(rt: HostRuntime) {
    let alloc = rt.alloc();
    let mut store = FailingStore::make(ListStore::make(alloc), 2, Found::After);
    let before = store.fails_next();
    let fault = fault_of(&rt, alloc, &mut store, 262161);
    let after = store.fails_next();
    drop(store);
    assert_same(&rt, &(before, fault, after), &(false, None, true));
}

// The fault of a group in which the ballots of these numbers are promised.
fn fault_of_group<S: GroupStore>(
    rt: &impl Abort,
    alloc: Global,
    store: &mut S,
    promised: &[u64],
) -> Option<StoreFault> {
    let mut changes = Vec::new(alloc);
    for number in promised {
        let change = change(rt, alloc, *number);
        changes.push(change).ok().expect(rt, "memory");
    }
    let saved = store.save_all(&changes);
    drop(changes);
    saved.err()
}

// The faults of three groups: of two changes, of none, and of one; what is loaded then, and how many saves failed.
fn groups_and_loaded<S: GroupStore>(rt: &impl Abort, alloc: Global, store: &mut S) -> Seen {
    let first = fault_of_group(rt, alloc, store, &[262161, 262162]);
    assert_same(rt, &fault_of_group(rt, alloc, store, &[]), &None);
    let second = fault_of_group(rt, alloc, store, &[262163]);
    let loaded = loaded(rt, store);
    ((first, second), loaded, store.failures())
}

#[test]
fn groups_are_loaded(rt: HostRuntime) {
    let alloc = rt.alloc();
    let mut store = ListStore::make(alloc);
    let seen = groups_and_loaded(&rt, alloc, &mut store);
    drop(store);
    assert_same(&rt, &seen, &((None, None), (3, Some(262163)), 0));
}

#[test]
fn a_group_fails_as_one_save(rt: HostRuntime) {
    let alloc = rt.alloc();
    let mut store = FailingStore::make(ListStore::make(alloc), 2, Found::After);
    let seen = groups_and_loaded(&rt, alloc, &mut store);
    drop(store);
    let faults = (None, Some(StoreFault::Device));
    assert_same(&rt, &seen, &(faults, (3, Some(262163)), 1));
    let mut store = FailingStore::make(ListStore::make(alloc), 1, Found::Before);
    let seen = groups_and_loaded(&rt, alloc, &mut store);
    drop(store);
    let faults = (Some(StoreFault::Device), None);
    assert_same(&rt, &seen, &(faults, (1, Some(262163)), 1));
}

#[test]
fn a_group_that_is_held_is_done(rt: HostRuntime) {
    let alloc = rt.alloc();
    let mut store = HoldingStore::make(ListStore::make(alloc), 1, AtOnce { asked: 0 });
    let seen = groups_and_loaded(&rt, alloc, &mut store);
    drop(store);
    assert_same(&rt, &seen, &((None, None), (3, Some(262163)), 0));
}

// How many records were saved.
fn count_of(rt: &impl Abort, store: &ListStore) -> usize {
    let records = store.saved().expect(rt, "memory");
    let count = records.len();
    drop(records);
    count
}

// Counts how often it was asked, and lets the save go on.
#[derive(Drop)]
struct AtOnce {
    asked: u64,
}

impl Hold for AtOnce {
    ghost held = { λ h. h.asked };

    fn hold(&mut self) {
        self.asked = self.asked.saturating_add(1);
    }
}

#[test]
fn a_save_that_is_held_is_done(rt: HostRuntime) {
    let alloc = rt.alloc();
    let mut store = HoldingStore::make(ListStore::make(alloc), 1, AtOnce { asked: 0 });
    let seen = saved_and_loaded(&rt, alloc, &mut store);
    drop(store);
    assert_same(&rt, &seen, &((None, None), (2, Some(262162)), 0));
}

// Lets a save go on once it came; whether it was done before.
fn let_go(rt: &impl Wait, latch: &Latch, is_saved: &AtomicBool) -> bool {
    for _ in rt.forever() {
        if latch.is_reached() {
            break;
        }
        thread::yield_now();
    }
    let early = is_saved.load(Ordering::SeqCst);
    latch.open();
    early
}

// Whether the first save of a store, which is held up, was done before another thread let it go, and what is loaded afterwards.
fn held_up<R: Threads + Wait + Abort + Sync>(rt: &R, alloc: Global) -> (bool, usize) {
    let latch = Arc::new(alloc, Latch::new()).expect(rt, "memory");
    let hold = LatchHold::make(Arc::try_clone(&latch).expect(rt, "memory"));
    let mut store = HoldingStore::make(ListStore::make(alloc), 1, hold);
    let is_saved = AtomicBool::new(false);
    let save = || {
        fault_of(rt, alloc, &mut store, 262161);
        is_saved.store(true, Ordering::SeqCst);
    };
    let (_, early) = thread::join(rt, save, || let_go(rt, &latch, &is_saved));
    let (records, _) = loaded(rt, &mut store);
    drop((store, latch));
    (early, records)
}

#[test]
fn a_save_waits_for_another_thread(rt: HostRuntime) {
    let seen = held_up(&rt, rt.alloc());
    assert_same(&rt, &seen, &(false, 1));
}
