//! Files in memory that stop, and what is done with a store over them.

use crate::lives::{Task, perform};
use crate::scene::{Halt, Scene};
use sql_store::SqlStore;
use sqlite::{Alter, Connection, Options};
use sqlite_disk::{Crash, Disk, Files, Fuse, Memory};
use std::alloc::Global;
use std::process::Abort;

// The log is copied into the database file after every four frames, which is every other save. A connection keeps ten pages in memory.
const OPTIONS: Options = Options {
    cache_pages: 10,
    spill_pages: 10,
    checkpoint_frames: 4,
    seed: 1,
};

// Octets of the log's header, and of a frame: its own header and a page.
const LOG_HEADER: usize = 32;

const FRAME: usize = 24 + 4096;

// A file in memory that passes so many calls on, and fails each one after.
type File = Fuse<Memory>;

// How many calls the log passes on, and how many the database file.
pub type Fuses = (u64, u64);

pub const ENDLESS: Fuses = (u64::MAX, u64::MAX);

// What is found of the files after a stop.
#[derive(Clone, Copy, PartialEq)]
pub enum Left {
    // All that was written, as a process leaves it that is killed.
    Written,
    // The same, with the log cut to its last whole frame.
    WholeFrames,
    // What was synced, as a machine leaves it that loses all else.
    Synced,
}

// What two files hold.
#[derive(Drop)]
pub struct Octets {
    log: Vec<u8>,
    database: Vec<u8>,
}

impl Octets {
    // Those of files that are new.
    pub fn none(alloc: Global) -> Octets {
        Octets {
            log: Vec::new(alloc),
            database: Vec::new(alloc),
        }
    }
}

// A file that holds these octets, and passes so many calls on.
fn file(rt: &impl Abort, alloc: Global, octets: &[u8], calls: u64) -> File {
    let mut memory = Memory::new(alloc);
    memory.write_at(0, octets).expect(rt, "memory");
    memory.sync().expect(rt, "memory");
    Fuse::new(memory, calls)
}

// What a file holds after a stop.
fn held(rt: &impl Abort, alloc: Global, mut file: File, left: Left) -> Vec<u8> {
    if left == Left::Synced {
        file.crash();
    }
    let octets = Vec::from_slice(alloc, file.inner().bytes());
    drop(file);
    octets.expect(rt, "memory")
}

// So many octets of a log are whole frames, and its header.
fn whole(length: usize) -> usize {
    match length.checked_sub(LOG_HEADER) {
        Some(frames) => length.saturating_sub(frames % FRAME),
        None => 0,
    }
}

// What files hold after a stop.
fn both_held(rt: &impl Abort, alloc: Global, files: Files<File>, left: Left) -> Octets {
    let Files { log, db } = files;
    let mut log = held(rt, alloc, log, left);
    if left == Left::WholeFrames {
        log.truncate(whole(log.len()));
    }
    Octets {
        log,
        database: held(rt, alloc, db, left),
    }
}

// Does a task with the store of a connection, unless its files stop before that is there. What the connection was over.
fn perform_over<S: Alter + Drop>(
    rt: &impl Abort,
    scene: &mut Scene,
    task: Task,
    connection: Connection<S>,
) -> S {
    let connection = match SqlStore::adopt(scene.alloc, connection) {
        Ok(store) => perform(rt, scene, store, task).into_connection(),
        Err((_, connection)) => {
            scene.halt = Some(Halt::Opening);
            connection
        }
    };
    connection.into_store()
}

// Does a task with a store over files, unless they stop before that is there. The files then. No other function speaks of a connection to files, since each
// that does takes as long to prove as ten others; over files of any type it takes less than over those in memory.
fn perform_over_files<D: Disk + Drop>(
    rt: &impl Abort,
    scene: &mut Scene,
    task: Task,
    files: Files<D>,
) -> Files<D> {
    assert!(rt; files.may_be_used());
    match Connection::open_files(scene.alloc, files, OPTIONS) {
        Ok(connection) => perform_over(rt, scene, task, connection).close(),
        Err((_, unopened)) => {
            scene.halt = Some(Halt::Opening);
            unopened.into_files()
        }
    }
}

// Does a task with a store over the files of a scene, which pass so many calls on. They hold then what is left of them.
pub fn perform_on_files(rt: &impl Abort, scene: &mut Scene, task: Task, fuses: Fuses, left: Left) {
    let alloc = scene.alloc;
    let files = Files {
        log: file(rt, alloc, &scene.octets.log, fuses.0),
        db: file(rt, alloc, &scene.octets.database, fuses.1),
    };
    let files = perform_over_files(rt, scene, task, files);
    scene.octets = both_held(rt, alloc, files, left);
}
