//! A store over SQL, in memory.

use crate::same::assert_same;
use fate_chain::Chain;
use lines_of_tests::TAKEN;
use mc_types::{Ballot, MsgId, Slot};
use sql_store::SqlStore;
use sqlite::MemStore;
use stable_store::{StableStore, StoreFault};
use std::alloc::Global;
use std::process::Abort;
use synod_acceptor::{Change, Record, Report, Vote};

fn assert_memory(rt: &impl Abort, fault: StoreFault) {
    assert_same(rt, &fault, &StoreFault::Memory);
}

/// A new store.
fn store(rt: &impl Abort, alloc: Global) -> SqlStore<MemStore> {
    match SqlStore::in_memory(alloc) {
        Ok(store) => store,
        Err(fault) => {
            assert_memory(rt, fault);
            SqlStore::in_memory(alloc).expect(rt, "a store")
        }
    }
}

/// The same store over its connection, which comes back if there was no memory.
fn adopted(rt: &impl Abort, alloc: Global, store: SqlStore<MemStore>) -> SqlStore<MemStore> {
    let conn = match SqlStore::adopt(alloc, store.into_connection()) {
        Ok(store) => return store,
        Err((fault, conn)) => {
            assert_memory(rt, fault);
            conn
        }
    };
    match SqlStore::adopt(alloc, conn) {
        Ok(store) => store,
        Err(_) => panic!(rt; "a store"),
    }
}

fn ballot(rt: &impl Abort, number: u64) -> Ballot {
    Ballot::of_number(number).expect(rt, "a ballot")
}

fn change(rt: &impl Abort, report: Report) -> Change {
    let after = Record::make(ballot(rt, 262162), report).expect(rt, "a record in order");
    Change { after }
}

/// A promise in the first slot of a message, and a vote in it.
fn promise(rt: &impl Abort) -> Change {
    let id = MsgId::of_number(1000200001).expect(rt, "an id");
    change(rt, Report::Nothing(Slot { id, place: 0 }))
}

fn vote(rt: &impl Abort, alloc: Global) -> Change {
    let chain = match Chain::read(alloc, TAKEN) {
        Ok(chain) => chain,
        Err(_) => Chain::read(alloc, TAKEN).expect(rt, "a chain"),
    };
    let ballot = ballot(rt, 262161);
    change(rt, Report::Held(Vote { ballot, chain }))
}

/// Saves a record, which takes no effect if there was no memory.
fn save(rt: &impl Abort, store: &mut SqlStore<MemStore>, change: &Change) {
    if let Err(fault) = store.save(change) {
        assert_memory(rt, fault);
        store.save(change).expect(rt, "it is saved");
    }
}

fn next(rt: &impl Abort, store: &mut SqlStore<MemStore>) -> u16 {
    let next = match store.next_incarnation() {
        Ok(next) => next,
        Err(fault) => {
            assert_memory(rt, fault);
            store.next_incarnation().expect(rt, "the next")
        }
    };
    next.number()
}

/// What is loaded: how many records, and of each the number of its message.
fn loaded(rt: &impl Abort, store: &mut SqlStore<MemStore>) -> (usize, u64) {
    let records = match store.load() {
        Ok(records) => records,
        Err(fault) => {
            assert_memory(rt, fault);
            store.load().expect(rt, "records")
        }
    };
    let mut sum = 0u64;
    for record in &records {
        sum = sum.saturating_add(record.slot().id.number());
    }
    (records.len(), sum)
}

#[test]
fn a_store_over_sql(rt: HostRuntime) {
    let alloc = rt.alloc();
    let mut store = store(&rt, alloc);
    let first = next(&rt, &mut store);
    save(&rt, &mut store, &promise(&rt));
    save(&rt, &mut store, &vote(&rt, alloc));
    let before = loaded(&rt, &mut store);
    let mut store = adopted(&rt, alloc, store);
    let second = next(&rt, &mut store);
    let after = loaded(&rt, &mut store);
    let failures = store.failures();
    drop(store);
    let both = (2, 2000300002);
    assert_same(&rt, &(first, second, failures), &(1, 2, 0));
    assert_same(&rt, &(before, after), &(both, both));
}
