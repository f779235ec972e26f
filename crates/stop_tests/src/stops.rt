//! The saves of a play in which the watched node may stop, as nodes over lists make them.

use crate::lives::{Task, perform};
use crate::play::Play;
use crate::scene::{Halt, Scene, list};
use stable_store::{Found, StableStore};
use std::alloc::Global;
use std::process::Abort;
use synod_acceptor::Record;

// More saves than a node makes.
const MOST: u64 = 100;

// A save in which the watched node may stop: how many steps it has taken before, and what its list loads if the save was not stored, and if it
// was. Of the records of one slot the first is the newest.
#[derive(Drop)]
pub struct Stop {
    steps: u64,
    before: Vec<Record>,
    after: Vec<Record>,
}

// Which of the two records are found.
pub fn found_at(stop: &Stop, records: &[Record]) -> Option<Found> {
    if are_same(records, &stop.before) {
        return Some(Found::Before);
    }
    if are_same(records, &stop.after) {
        return Some(Found::After);
    }
    None
}

fn is_same(one: &Record, other: &Record) -> bool {
    one.promised() == other.promised() && one.report().is(other.report())
}

// The first of its slot.
fn first<'a>(records: &'a [Record], record: &Record) -> Option<&'a Record> {
    for one in records {
        if one.slot() == record.slot() {
            return Some(one);
        }
    }
    None
}

// Whether the first record of this one's slot is the same as this one.
fn has(records: &[Record], record: &Record) -> bool {
    match first(records, record) {
        Some(one) => is_same(one, record),
        None => false,
    }
}

fn is_alone(records: &[Record], record: &Record) -> bool {
    let mut count = 0_usize;
    for one in records {
        if one.slot() == record.slot() {
            count = count.saturating_add(1);
        }
    }
    count == 1
}

// Whether each of these is there once, and is the newest of its slot in a list.
fn are_newest(found: &[Record], listed: &[Record]) -> bool {
    for one in found {
        if !is_alone(found, one) || !has(listed, one) {
            return false;
        }
    }
    true
}

// Whether there is one of each slot of a list.
fn are_all(found: &[Record], listed: &[Record]) -> bool {
    for one in listed {
        if first(found, one).is_none() {
            return false;
        }
    }
    true
}

// Whether these are the newest records of a list, each once, in any order.
fn are_same(found: &[Record], listed: &[Record]) -> bool {
    are_newest(found, listed) && are_all(found, listed)
}

// The last save, in which the watched node would stop after all others.
pub fn last_save(rt: &impl Abort, stops: &[Stop]) -> Halt {
    Halt::Saving(stops.last().expect(rt, "a save").steps)
}

// The stop that comes after so many steps.
pub fn stop_after<'a>(rt: &impl Abort, stops: &'a [Stop], steps: u64) -> &'a Stop {
    for stop in stops {
        if stop.steps == steps {
            return stop;
        }
    }
    panic!(rt; "a step that saves");
}

// When the watched node stops over a list whose save of this number fails and leaves this, if it does, and the records of the list then.
fn listed(
    rt: &impl Abort,
    alloc: Global,
    play: Play,
    save: u64,
    found: Found,
) -> (Option<Halt>, Vec<Record>) {
    let mut scene = Scene::make(rt, alloc, play);
    let mut store = perform(rt, &mut scene, list(alloc, save, found), Task::Play);
    let records = store.load().expect(rt, "records");
    drop(store);
    let halt = scene.halt;
    drop(scene);
    (halt, records)
}

// All saves of the watched node.
pub fn stops(rt: &impl Abort, alloc: Global, play: Play) -> Vec<Stop> {
    let mut stops = Vec::new(alloc);
    for save in 1..MOST {
        let (halt, before) = listed(rt, alloc, play, save, Found::Before);
        let Some(Halt::Saving(steps)) = halt else {
            return stops;
        };
        let (_, after) = listed(rt, alloc, play, save, Found::After);
        let stop = Stop {
            steps,
            before,
            after,
        };
        stops.push(stop).expect(rt, "memory");
    }
    panic!(rt; "too many saves");
}
