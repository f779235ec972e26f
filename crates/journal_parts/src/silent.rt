//! A step by which nothing goes out.

ghost use Rattle.std.specs.Prelude.{◌≡◌, IfOk};

use crate::copies::EntryCopies;
use crate::done::Done;
use crate::entry::Entry;
use node_core::Outputs;
use node_entry::Step;
use std::alloc::{AllocError, Global};
use std::marker::Model;
use std::sync::Arc;
use synod_acceptor::Packet;

/// A step by which nothing goes out, prepared so far that it needs no memory but the node's, and its entry for all that will share it: a start anew, or the
/// step of a packet that its node may take quietly. Contracts see the step as it will stand in the journal.
#[derive(Drop)]
pub struct Silent {
    pub(crate) done: Arc<Done>,
    pub(crate) copies: EntryCopies,
}

impl Model for Silent {
    ghost use Rattle.std.specs.Prelude.{◌≡◌, None};
    ghost use Rattle.std.specs.Arc.{arc_value};
    ghost use Rattle.node_model.specs.Outputs.{nothing};
    ghost use Rattle.world.specs.Runs.{IsGiven};
    ghost use Rattle.journal_parts.specs.declared.done.Done.{Done};
    ghost use Rattle.journal_parts.specs.Entries.{GivesNothing, done_of};

    ghost Value = { Done };

    ghost view = { λ s. arc_value s.done };

    ghost invariant = { λ s. (s.copies ≡ record { done = done_of (arc_value s.done); unfinished = None }) × GivesNothing (arc_value s.done) };
}

impl Silent {
    /// A step, with the packet that comes by it, if one does; that of a start anew has the packet in the save of whose step the node stopped, if it did. An
    /// `Err` is want of memory.
    pub(crate) fn make(
        alloc: Global,
        step: Step,
        packet: Option<Packet>,
    ) -> Result<Silent, AllocError>
        ensures step { IfOk result (λ silent. silent.step ≡ step) }
        ensures packet { IfOk result (λ silent. silent.packet ≡ packet) }
    {
        let done = Arc::new(
            alloc,
            Done {
                step,
                packet,
                outputs: Outputs::nothing(alloc),
            },
        )?;
        Ok(Silent {
            copies: EntryCopies::of(&Entry::of(Arc::try_clone(&done)?))?,
            done,
        })
    }

    /// Its packet, if the step is not taken. It takes no memory, unless somebody else has its entry: an `Err` is want of it.
    pub fn into_packet(self) -> Result<Option<Packet>, AllocError>
        ensures { IfOk result (λ packet. packet ≡ self.packet) }
    {
        let Silent { done, copies } = self;
        drop(copies);
        match Arc::try_unwrap(done) {
            Ok(Done { packet, .. }) => Ok(packet),
            Err(done) => done.packet_again(),
        }
    }
}
