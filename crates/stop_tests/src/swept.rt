//! A stop at each call of the disk.

use crate::files::Left;
use crate::play::{ALONE, FIVE_AT_ONCE, OF_THREE, Play, TWO_AT_ONCE};
use crate::scene::{Halt, Scene};
use crate::stops::{Stop, stops};
use crate::sweep::{Stopping, Sweep};
use stable_store::Found;
use std::alloc::Global;
use std::process::Abort;

// More calls than a play makes of a file.
const MOST_CALLS: u64 = 2000;

// How many stops there were while the node opened; in how many saves it stopped; and how often it stopped in one whose records from before were found, and how
// often those from after it.
#[derive(Clone, Copy)]
struct Seen {
    openings: u64,
    saves: usize,
    before: u64,
    after: u64,
    // When it stopped last.
    last: Option<Halt>,
}

const NOTHING_SEEN: Seen = Seen {
    openings: 0,
    saves: 0,
    before: 0,
    after: 0,
    last: None,
};

impl Seen {
    fn note(&mut self, halt: Halt, found: Option<Found>) {
        if found.is_some() && self.last != Some(halt) {
            self.saves = self.saves.saturating_add(1);
        }
        self.last = Some(halt);
        match found {
            None => self.openings = self.openings.saturating_add(1),
            Some(Found::Before) => self.before = self.before.saturating_add(1),
            Some(Found::After) => self.after = self.after.saturating_add(1),
        }
    }
}

// Plays over files that stop after so many calls. Whether they stopped: if not, nothing of the play is lost.
fn run(
    rt: &impl Abort,
    alloc: Global,
    sweep: Sweep,
    (calls, stops): (u64, &[Stop]),
    seen: &mut Seen,
) -> bool {
    let mut scene = Scene::make(rt, alloc, sweep.play);
    let halt = sweep.stopped(rt, &mut scene, calls);
    match halt {
        Some(halt) => {
            let found = sweep.ended(rt, &mut scene, halt, stops);
            seen.note(halt, found);
        }
        None => sweep.assert_whole(rt, &mut scene, stops),
    }
    drop(scene);
    halt.is_some()
}

// Plays over files that stop after ever more calls, until they do not stop. What was seen.
fn swept(rt: &impl Abort, alloc: Global, sweep: Sweep, stops: &[Stop]) -> Seen {
    let mut seen = NOTHING_SEEN;
    for calls in 0..MOST_CALLS {
        if !run(rt, alloc, sweep, (calls, stops), &mut seen) {
            return seen;
        }
    }
    panic!(rt; "too many calls");
}

// That the watched node stops while it opens and in each of its saves, whether both files stop or the log alone. Of these saves some are stored
// then, and some are not, if all that was written is found. If what was synced is found and nothing else, none is: the last call of a save is the
// one that syncs it. The database file is written every other save, before that is stored.
fn assert_seen(rt: &impl Abort, alloc: Global, sweep: Sweep, stops: &[Stop]) {
    let seen = swept(rt, alloc, sweep, stops);
    assert!(rt; seen.openings > 0 && seen.before > 0);
    if sweep.stopping != Stopping::Database {
        assert!(rt; seen.saves == stops.len());
        assert!(rt; (seen.after > 0) == (sweep.left != Left::Synced));
    }
}

const STOPPING: &[Stopping] = &[Stopping::Both, Stopping::Log, Stopping::Database];

fn assert_swept(rt: &impl Abort, alloc: Global, play: Play, left: Left) {
    let stops = stops(rt, alloc, play);
    for stopping in STOPPING {
        let sweep = Sweep {
            play,
            stopping: *stopping,
            left,
        };
        assert_seen(rt, alloc, sweep, &stops);
    }
}

#[test]
fn a_node_alone_is_killed_at_each_call(rt: HostRuntime) {
    assert_swept(&rt, rt.alloc(), ALONE, Left::Written);
}

#[test]
fn a_node_alone_is_killed_at_each_call_and_its_log_is_cut(rt: HostRuntime) {
    assert_swept(&rt, rt.alloc(), ALONE, Left::WholeFrames);
}

#[test]
fn a_node_alone_loses_its_machine_at_each_call(rt: HostRuntime) {
    assert_swept(&rt, rt.alloc(), ALONE, Left::Synced);
}

#[test]
fn a_node_of_three_is_killed_at_each_call(rt: HostRuntime) {
    assert_swept(&rt, rt.alloc(), OF_THREE, Left::Written);
}

#[test]
fn a_node_of_three_is_killed_at_each_call_and_its_log_is_cut(rt: HostRuntime) {
    assert_swept(&rt, rt.alloc(), OF_THREE, Left::WholeFrames);
}

#[test]
fn a_node_of_three_loses_its_machine_at_each_call(rt: HostRuntime) {
    assert_swept(&rt, rt.alloc(), OF_THREE, Left::Synced);
}

#[test]
fn a_node_that_takes_two_at_once_is_killed_at_each_call(rt: HostRuntime) {
    assert_swept(&rt, rt.alloc(), TWO_AT_ONCE, Left::Written);
}

#[test]
fn a_node_that_takes_two_at_once_is_killed_at_each_call_and_its_log_is_cut(rt: HostRuntime) {
    assert_swept(&rt, rt.alloc(), TWO_AT_ONCE, Left::WholeFrames);
}

#[test]
fn a_node_that_takes_two_at_once_loses_its_machine_at_each_call(rt: HostRuntime) {
    assert_swept(&rt, rt.alloc(), TWO_AT_ONCE, Left::Synced);
}

#[test]
fn a_node_that_takes_five_at_once_is_killed_at_each_call(rt: HostRuntime) {
    assert_swept(&rt, rt.alloc(), FIVE_AT_ONCE, Left::Written);
}

#[test]
fn a_node_that_takes_five_at_once_is_killed_at_each_call_and_its_log_is_cut(rt: HostRuntime) {
    assert_swept(&rt, rt.alloc(), FIVE_AT_ONCE, Left::WholeFrames);
}

#[test]
fn a_node_that_takes_five_at_once_loses_its_machine_at_each_call(rt: HostRuntime) {
    assert_swept(&rt, rt.alloc(), FIVE_AT_ONCE, Left::Synced);
}
