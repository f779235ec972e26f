//! Stores, and what is done with them step by step.

use crate::same::assert_same;
use fate_chain::Chain;
use mc_types::{Ballot, Incarnation, MsgId, Slot};
use sql_store::{Said, SqlStore, WhoseRow};
use sqlite::{Alter, Connection};
use stable_store::{GroupStore, StableStore, StoreFault};
use std::alloc::Global;
use std::process::Abort;
use synod_acceptor::{Change, Record, Report, Vote};

// The chain of one Taken on message 1000100001: from 144 to 155, with the text Hi.
pub const TAKEN: &[u8] =
    b"\x01\x00\x00\x00\x00\x3b\x9c\x50\xa1\x00\x01\x01\x01\x00\x01\x38\x6d\x43\x80\x04sme1\x04sme1\x00\x01\x01\x03144\x01\x01\x03155\x00\x00\x00\x01\x00\x38\x6d\x43\x80\x38\x71\x38\x00\x02Hi\x00\x00";

// What is loaded of a record: the id and the place of its slot, its promise, and the ballot of its vote or 0.
pub type Loaded = (u64, u8, u64, u64);

// How many records are loaded, the first and the last; or the fault.
pub type Loading = Result<(usize, Option<Loaded>, Option<Loaded>), StoreFault>;

// What is saved.
#[derive(Clone, Copy)]
pub enum Saved {
    // A promise in the slot of this message and place, in which nothing was voted.
    Promise(u64, u8, u64),
    // A vote for the chain of one Taken, below this promise.
    Vote(u64, u64),
}

// What is done, and what that answers.
#[derive(Clone, Copy)]
pub enum Step<'a> {
    // The connection of the store is adopted again, once this statement was run there.
    Runs(&'a str),
    IsAdopted,
    Saves(Saved),
    SavesAll(&'a [Saved]),
    Loads(Loading),
    // The incarnation that begins, or the fault. No failure was counted.
    Begins(Result<u16, StoreFault>),
    Says(Said),
    IsMarked(WhoseRow),
}

fn ballot(rt: &impl Abort, number: u64) -> Ballot {
    Ballot::of_number(number).expect(rt, "a ballot")
}

fn report(rt: &impl Abort, alloc: Global, saved: Saved) -> Report {
    match saved {
        Saved::Promise(id, place, _) => {
            let id = MsgId::of_number(id).expect(rt, "an id");
            Report::Nothing(Slot { id, place })
        }
        Saved::Vote(_, voted) => {
            let chain = Chain::read(alloc, TAKEN).expect(rt, "a chain");
            let ballot = ballot(rt, voted);
            Report::Held(Vote { ballot, chain })
        }
    }
}

fn change(rt: &impl Abort, alloc: Global, saved: Saved) -> Change {
    let (Saved::Promise(_, _, promised) | Saved::Vote(promised, _)) = saved;
    let report = report(rt, alloc, saved);
    let after = Record::make(ballot(rt, promised), report).expect(rt, "a record in order");
    Change { after }
}

pub fn group(rt: &impl Abort, alloc: Global, saved: &[Saved]) -> Vec<Change> {
    let mut changes = Vec::new(alloc);
    for one in saved {
        let change = change(rt, alloc, *one);
        changes.push(change).ok().expect(rt, "memory");
    }
    changes
}

fn fault_of_group<S: Alter>(
    rt: &impl Abort,
    alloc: Global,
    store: &mut SqlStore<S>,
    saved: &[Saved],
) -> Option<StoreFault> {
    let changes = group(rt, alloc, saved);
    store.save_all(&changes).err()
}

fn fault_of_save<S: Alter>(store: &mut SqlStore<S>, change: Change) -> Option<StoreFault> {
    store.save(&change).err()
}

// The incarnation that begins, and how many failures were counted.
fn next<S: Alter>(store: &mut SqlStore<S>) -> (Result<u16, StoreFault>, u64) {
    let next = store.next_incarnation().map(Incarnation::number);
    (next, store.failures())
}

fn loaded_of(record: &Record) -> Loaded {
    let slot = record.slot();
    let voted = match record.report() {
        Report::Nothing(_) => 0,
        Report::Held(vote) => vote.ballot.number(),
    };
    (
        slot.id.number(),
        slot.place,
        record.promised().number(),
        voted,
    )
}

pub fn load<S: Alter>(store: &mut SqlStore<S>) -> Loading {
    let records = store.load()?;
    let first = records.first().map(loaded_of);
    let last = records.last().map(loaded_of);
    Ok((records.len(), first, last))
}

// Where a step stands: the name of its row, and its number.
type At<'a> = (&'a str, usize);

// Takes a step that leaves the store as it is, and compares what it answers.
fn take<S: Alter>(
    rt: &impl Abort,
    alloc: Global,
    store: &mut SqlStore<S>,
    at: At<'_>,
    step: Step<'_>,
) {
    match step {
        Step::Saves(saved) => {
            let fault = fault_of_save(store, change(rt, alloc, saved));
            assert_same(rt, &(at, fault), &(at, None));
        }
        Step::SavesAll(saved) => {
            let fault = fault_of_group(rt, alloc, store, saved);
            assert_same(rt, &(at, fault), &(at, None));
        }
        Step::Loads(wanted) => assert_same(rt, &(at, load(store)), &(at, wanted)),
        Step::Begins(wanted) => assert_same(rt, &(at, next(store)), &(at, (wanted, 0))),
        _ => {}
    }
}

pub fn adopt<S: Alter + Drop>(rt: &impl Abort, alloc: Global, conn: Connection<S>) -> SqlStore<S> {
    let adopted = SqlStore::adopt(alloc, conn);
    adopted.ok().expect(rt, "a store")
}

fn run<S: Alter + Drop>(
    rt: &impl Abort,
    alloc: Global,
    store: SqlStore<S>,
    text: &str,
) -> SqlStore<S> {
    let mut conn = store.into_connection();
    conn.execute(text, &[]).expect(rt, "a statement");
    adopt(rt, alloc, conn)
}

fn tell<S: Alter + Drop>(
    rt: &impl Abort,
    alloc: Global,
    store: SqlStore<S>,
    at: At<'_>,
    wanted: Said,
) -> SqlStore<S> {
    let (store, said) = store.said(alloc).ok().expect(rt, "what it says");
    assert_same(rt, &(at, said), &(at, wanted));
    store
}

// The store once a step was taken, which may give its connection away.
fn taken<S: Alter + Drop>(
    rt: &impl Abort,
    alloc: Global,
    mut store: SqlStore<S>,
    at: At<'_>,
    step: Step<'_>,
) -> SqlStore<S> {
    match step {
        Step::Runs(text) => run(rt, alloc, store, text),
        Step::IsAdopted => adopt(rt, alloc, store.into_connection()),
        Step::Says(wanted) => tell(rt, alloc, store, at, wanted),
        Step::IsMarked(whose) => store.marked(alloc, &whose).ok().expect(rt, "a mark"),
        _ => {
            take(rt, alloc, &mut store, at, step);
            store
        }
    }
}

// The store once the steps of a row were taken. A failure prints the name of the row, and the number of the step.
pub fn played<S: Alter + Drop>(
    rt: &impl Abort,
    alloc: Global,
    store: SqlStore<S>,
    name: &str,
    steps: &[Step<'_>],
) -> SqlStore<S> {
    let mut store = store;
    for (number, step) in steps.iter().enumerate() {
        store = taken(rt, alloc, store, (name, number), *step);
    }
    store
}

// That the steps of a row answer over a new store in memory what they are to answer.
pub fn assert_steps(rt: &impl Abort, alloc: Global, name: &str, steps: &[Step<'_>]) {
    let store = SqlStore::in_memory(alloc).expect(rt, "a store");
    drop(played(rt, alloc, store, name, steps));
}
