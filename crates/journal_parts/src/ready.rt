//! A step that was prepared.

use crate::copies::EntryCopies;
use crate::done::Done;
use node_core::Pending;
use std::marker::Model;
use std::sync::Arc;

/// A step that was prepared so far that nothing but its save can fail, and its entry for all that will share it. Contracts see with what the node is set up,
/// what it kept, what is to come to it, and the step as it will stand in the journal.
#[derive(Drop)]
pub struct Ready {
    pub(crate) pending: Pending,
    pub(crate) done: Arc<Done>,
    pub(crate) copies: EntryCopies,
}

impl Model for Ready {
    ghost use Rattle.std.specs.Prelude.{◌≡◌, None};
    ghost use Rattle.std.specs.Arc.{arc_value};
    ghost use Rattle.node_core.specs.Keeping.{kept_of};
    ghost use Rattle.journal_parts.specs.Entries.{done_of};
    ghost use Rattle.journal_parts.specs.Members.{IsReady, Readied};

    ghost Value = { Readied };

    ghost view = { λ r. record { was = r.pending.was; input = r.pending.input; done = arc_value r.done } };

    ghost invariant = { λ r.
        IsReady r.pending.was.setup (kept_of r.pending.was) r.pending.input (arc_value r.done)
        × (r.copies ≡ record { done = done_of (arc_value r.done); unfinished = None }) };
}
