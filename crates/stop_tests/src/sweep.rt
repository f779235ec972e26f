//! A play over files that stop.

use crate::files::{ENDLESS, Fuses, Left, perform_on_files};
use crate::lives::Task;
use crate::play::Play;
use crate::scene::{Halt, Scene};
use crate::stops::{Stop, found_at, last_save, stop_after};
use stable_store::Found;
use std::process::Abort;

// Which of the two files stop.
#[derive(Clone, Copy, PartialEq)]
pub enum Stopping {
    Both,
    Log,
    Database,
}

// The play over files of which these stop, and what is found of them then.
#[derive(Clone, Copy)]
pub struct Sweep {
    pub play: Play,
    pub stopping: Stopping,
    pub left: Left,
}

// That a node which starts anew is in its second incarnation, or in its first if it stopped while it opened and none was stored.
fn assert_incarnation(rt: &impl Abort, halt: Halt, incarnation: u16) {
    let is_first = halt == Halt::Opening && incarnation == 1;
    assert!(rt; is_first || incarnation == 2);
}

// That a store which was opened again held no record if the node stopped while it opened, and else those from before the save in which it
// stopped, or those from after it. Which of these, if it stopped in a save.
fn found_in(rt: &impl Abort, scene: &Scene, halt: Halt, stops: &[Stop]) -> Option<Found> {
    match halt {
        Halt::Opening => {
            assert!(rt; scene.records.is_empty());
            None
        }
        Halt::Saving(steps) => {
            let found = found_at(stop_after(rt, stops, steps), &scene.records);
            Some(found.expect(rt, "records from before the save or after it"))
        }
    }
}

impl Sweep {
    fn fuses(self, calls: u64) -> Fuses {
        match self.stopping {
            Stopping::Both => (calls, calls),
            Stopping::Log => (calls, u64::MAX),
            Stopping::Database => (u64::MAX, calls),
        }
    }

    // The watched node plays over new files that stop after so many calls, until it stops, or to the end. When it stopped.
    pub fn stopped(self, rt: &impl Abort, scene: &mut Scene, calls: u64) -> Option<Halt> {
        perform_on_files(rt, scene, Task::Play, self.fuses(calls), self.left);
        scene.halt.take()
    }

    // Does a task with a store over the files of a node that stopped or came to the end. They stop no more.
    fn perform(self, rt: &impl Abort, scene: &mut Scene, task: Task) {
        perform_on_files(rt, scene, task, ENDLESS, self.left);
        assert!(rt; scene.halt.is_none());
    }

    // That the files of a node which did not stop hold what its last save left.
    pub fn assert_whole(self, rt: &impl Abort, scene: &mut Scene, stops: &[Stop]) {
        self.perform(rt, scene, Task::Load);
        let found = found_in(rt, scene, last_save(rt, stops), stops);
        assert!(rt; found == Some(Found::After));
    }

    // The watched node, which stopped, opens again over what its files hold, and the play comes to its end. Which records were found, if it stopped in a save.
    pub fn ended(
        self,
        rt: &impl Abort,
        scene: &mut Scene,
        halt: Halt,
        stops: &[Stop],
    ) -> Option<Found> {
        self.perform(rt, scene, Task::End);
        assert_incarnation(rt, halt, scene.incarnation);
        found_in(rt, scene, halt, stops)
    }
}
