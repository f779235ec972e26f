//! A group that is saved to files that stop.

use crate::same::assert_same;
use crate::steps::{Loading, Saved, group, load};
use sql_store::SqlStore;
use sqlite::{Alter, Connection, Options};
use sqlite_disk::{Crash, Disk, Files, Fuse, Memory};
use stable_store::GroupStore;
use std::alloc::Global;
use std::process::Abort;

// A connection keeps ten pages in memory, and the log is copied into the database file after four frames.
const OPTIONS: Options = Options {
    cache_pages: 10,
    spill_pages: 10,
    checkpoint_frames: 4,
    seed: 1,
};

const FIRST: &[Saved] = &[Saved::Vote(262161, 262161)];

// A record in place of the first, and one in a slot that had none, each twice.
const GROUP: &[Saved] = &[
    Saved::Promise(1000200001, 0, 262161),
    Saved::Vote(262177, 262161),
    Saved::Promise(1000200001, 0, 262177),
    Saved::Vote(524305, 262161),
];

const BEFORE: Loading = Ok((
    1,
    Some((1000100001, 0, 262161, 262161)),
    Some((1000100001, 0, 262161, 262161)),
));

const AFTER: Loading = Ok((
    2,
    Some((1000100001, 0, 524305, 262161)),
    Some((1000200001, 0, 262177, 0)),
));

// More calls than a save makes.
const MOST_CALLS: u64 = 1000;

// What two files hold: the log, and the database file.
type Octets = (Vec<u8>, Vec<u8>);

// What is done with a store over files.
#[derive(Clone, Copy)]
enum Task {
    Saves(&'static [Saved]),
    Loads,
}

// What came of it: the files stopped, the group was saved, or this was loaded.
#[derive(Clone, Copy, PartialEq)]
enum Done {
    Stopped,
    Saved,
    Loaded(Loading),
}

fn perform<S: Alter>(rt: &impl Abort, alloc: Global, store: &mut SqlStore<S>, task: Task) -> Done {
    match task {
        Task::Saves(saved) => {
            let changes = group(rt, alloc, saved);
            match store.save_all(&changes) {
                Ok(()) => Done::Saved,
                Err(_) => Done::Stopped,
            }
        }
        Task::Loads => Done::Loaded(load(store)),
    }
}

fn done_over<S: Alter + Drop>(
    rt: &impl Abort,
    alloc: Global,
    task: Task,
    connection: Connection<S>,
) -> (Done, S) {
    match SqlStore::adopt(alloc, connection) {
        Ok(mut store) => {
            let done = perform(rt, alloc, &mut store, task);
            (done, store.into_connection().into_store())
        }
        Err((_, connection)) => (Done::Stopped, connection.into_store()),
    }
}

fn done_over_files<D: Disk + Drop>(
    rt: &impl Abort,
    alloc: Global,
    task: Task,
    files: Files<D>,
) -> (Done, Files<D>) {
    assert!(rt; files.may_be_used());
    match Connection::open_files(alloc, files, OPTIONS) {
        Ok(connection) => {
            let (done, store) = done_over(rt, alloc, task, connection);
            (done, store.close())
        }
        Err((_, unopened)) => (Done::Stopped, unopened.into_files()),
    }
}

fn file(rt: &impl Abort, alloc: Global, octets: &[u8], calls: u64) -> Fuse<Memory> {
    let mut memory = Memory::new(alloc);
    memory.write_at(0, octets).expect(rt, "memory");
    memory.sync().expect(rt, "memory");
    Fuse::new(memory, calls)
}

// What a file holds after a stop: all that was written, or what was synced.
fn held(rt: &impl Abort, alloc: Global, mut file: Fuse<Memory>, is_crash: bool) -> Vec<u8> {
    if is_crash {
        file.crash();
    }
    let octets = Vec::from_slice(alloc, file.inner().bytes());
    drop(file);
    octets.expect(rt, "memory")
}

// Does a task over files that hold these octets, and pass so many calls on; what they hold then.
fn done_on(
    rt: &impl Abort,
    alloc: Global,
    octets: &Octets,
    task: Task,
    (log, database, is_crash): (u64, u64, bool),
) -> (Done, Octets) {
    let files = Files {
        log: file(rt, alloc, &octets.0, log),
        db: file(rt, alloc, &octets.1, database),
    };
    let (done, files) = done_over_files(rt, alloc, task, files);
    let Files { log, db } = files;
    let log = held(rt, alloc, log, is_crash);
    (done, (log, held(rt, alloc, db, is_crash)))
}

const ENDLESS: (u64, u64, bool) = (u64::MAX, u64::MAX, false);

// What the files of a store hold in which the first record was saved.
fn begun(rt: &impl Abort, alloc: Global) -> Octets {
    let none = (Vec::new(alloc), Vec::new(alloc));
    let (done, octets) = done_on(rt, alloc, &none, Task::Saves(FIRST), ENDLESS);
    drop(none);
    assert!(rt; done == Done::Saved);
    octets
}

// Saves the group over files that stop so, and loads what they hold: all of it or nothing. Whether it was saved, and whether all of it is found.
fn stopped(
    rt: &impl Abort,
    alloc: Global,
    octets: &Octets,
    stop: (u64, u64, bool),
) -> (bool, bool) {
    let (done, left) = done_on(rt, alloc, octets, Task::Saves(GROUP), stop);
    let (found, again) = done_on(rt, alloc, &left, Task::Loads, ENDLESS);
    drop((left, again));
    let is_saved = done == Done::Saved;
    let is_after = found == Done::Loaded(AFTER);
    let is_before = found == Done::Loaded(BEFORE);
    assert!(rt; is_after || is_before && !is_saved);
    (is_saved, is_after)
}

// How many stops there are before the group is saved, and of how many all of it is found.
fn swept(rt: &impl Abort, alloc: Global, is_log: bool, is_crash: bool) -> (u64, u64) {
    let octets = begun(rt, alloc);
    let mut stops = 0;
    let mut found = 0u64;
    for calls in 0..MOST_CALLS {
        let stop = if is_log {
            (calls, u64::MAX, is_crash)
        } else {
            (u64::MAX, calls, is_crash)
        };
        let (is_saved, is_after) = stopped(rt, alloc, &octets, stop);
        if is_saved {
            break;
        }
        stops = calls + 1;
        if is_after {
            found = found.saturating_add(1);
        }
    }
    drop(octets);
    (stops, found)
}

#[test]
fn a_group_is_found_whole_or_not_at_all(rt: HostRuntime) {
    let (stops, found) = swept(&rt, rt.alloc(), true, false);
    let seen = (stops > 2, found > 0, found < stops);
    assert_same(&rt, &seen, &(true, true, true));
}

#[test]
fn a_group_is_not_found_before_it_is_synced(rt: HostRuntime) {
    let (stops, found) = swept(&rt, rt.alloc(), true, true);
    assert_same(&rt, &(stops > 2, found), &(true, 0));
}

#[test]
fn a_group_is_found_whole_if_the_database_file_stops(rt: HostRuntime) {
    let (stops, _) = swept(&rt, rt.alloc(), false, true);
    assert_same(&rt, &(stops > 0), &true);
}
