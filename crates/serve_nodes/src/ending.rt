//! Why the server ends.

use mc_types::NodeNo;
use std::sync::{Mutex, Wait};

/// Why the server ends.
#[derive(Clone, Copy, Debug, PartialEq, Eq)]
pub enum Ending {
    /// It was asked to: so many sessions have ended as were to, or its input has.
    Asked,
    /// The journal is full.
    Full,
    /// This node can't be started anew: its store failed.
    Lost(NodeNo),
    /// This node can't be started anew: it has begun its last incarnation.
    Spent(NodeNo),
    /// A thread can't be started, or there was no memory for one.
    Threads,
    /// There was no memory to begin the next part of the journal.
    NoPart,
}

/// Why the server ends, once it does: the first reason stays.
#[derive(Drop)]
pub struct End {
    ending: Mutex<Option<Ending>>,
}

impl End {
    /// It does not end.
    pub fn none() -> End {
        End {
            ending: Mutex::new(None),
        }
    }

    /// It ends for this reason, if it does not for another.
    pub fn set<R: Wait>(&self, rt: &R, ending: Ending) {
        let mut first = self.ending.lock(rt);
        if first.is_none() {
            *first = Some(ending);
        }
    }

    /// Why it ends, if it does.
    pub fn get<R: Wait>(&self, rt: &R) -> Option<Ending> {
        *self.ending.lock(rt)
    }
}
