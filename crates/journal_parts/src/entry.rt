//! Entries of a journal.

ghost use Rattle.std.specs.Prelude.{◌≡◌, IfOk, IsTrue, None};
ghost use Rattle.std.specs.Arc.{arc_value};
ghost use Rattle.node_entry.specs.Taking.{node_at};
ghost use Rattle.journal_laws.specs.Likeness.{AreAlike};
ghost use Rattle.journal_parts.specs.Entries.{done_of, entry_of, number_in};

use crate::done::Done;
use mc_types::NodeNo;
use node_core::Found;
use node_entry::Step;
use std::alloc::AllocError;
use std::sync::Arc;

/// A save that a node had not finished as it was opened again: the number of the packet in whose step it stopped, and whether the save was made.
#[derive(Clone, Copy, Debug, PartialEq, Eq)]
pub struct Unfinished {
    pub number: u64,
    pub found: Found,
}

/// An entry of a journal: a step that was taken, and of a start anew the save that the node had not finished, if there is one. Its owners share the step.
#[derive(Drop)]
pub struct Entry {
    pub done: Arc<Done>,
    pub unfinished: Option<Unfinished>,
}

impl Entry {
    /// The entry of a step that finished all saves. It takes no memory.
    pub(crate) fn of(done: Arc<Done>) -> Entry
        ensures done { (entry_of result).done ≡ done_of (arc_value done) }
        ensures finished { (entry_of result).unfinished ≡ None }
    {
        Entry {
            done,
            unfinished: None,
        }
    }

    /// The same entry for another owner. It takes no memory: an `Err` comes only if it has 2^63 owners.
    pub fn again(&self) -> Result<Entry, AllocError>
        ensures { IfOk result (λ again. entry_of again ≡ entry_of self.now) }
    {
        Ok(Entry {
            done: Arc::try_clone(&self.done)?,
            unfinished: self.unfinished,
        })
    }

    /// The node that took the step.
    pub(crate) fn node(&self) -> NodeNo
        ensures { result ≡ node_at (entry_of self.now).done.step }
    {
        match self.done.step {
            Step::Deliver { node, .. }
            | Step::Request { node, .. }
            | Step::Tick { node, .. }
            | Step::Grant { node, .. }
            | Step::Answered { node, .. }
            | Step::Crash { node, .. }
            | Step::Restart { node } => node,
        }
    }

    /// The number of the packet that came by it, or in the save of whose step the node had stopped.
    pub(crate) fn number(&self) -> Option<u64>
        ensures { result ≡ number_in (entry_of self.now) }
    {
        if let Some(save) = self.unfinished {
            return Some(save.number);
        }
        match self.done.step {
            Step::Deliver { number, .. } | Step::Crash { number, .. } => Some(number),
            _ => None,
        }
    }

    /// Whether the other is an entry of the same step, which names the same unfinished save, if it names one. It takes no memory.
    #[tactic(auto, using(crate::proofs::Alike::entries_alike))]
    pub fn is(&self, other: &Entry) -> bool
        ensures { IsTrue result → AreAlike (entry_of self.now) (entry_of other.now) }
    {
        self.done.is(&other.done) && self.unfinished == other.unfinished
    }
}
