//! The streams of the sessions.

ghost use Rattle.std.specs.Prelude.{◌≡◌, [], OnOk, IfOk};
ghost use Rattle.std.specs.Ordering.{nat_cmp};
ghost use Rattle.std.specs.Map.{remove_entry};
ghost use Rattle.std.specs.BTreeMap.{is_at, insert_entry};
ghost use Rattle.script_text.specs.Runner.{held_in};

use pdu_codec::PduFault;
use pdu_frames::Framer;
use std::alloc::{AllocError, Global};
use std::collections::BTreeMap;
use std::marker::Model;

/// For each session, by its number, the octets of the frame that has not come whole.
#[derive(Drop)]
pub struct Streams {
    framers: BTreeMap<u8, Framer>,
}

impl Model for Streams {
    ghost use Rattle.std.specs.Prelude.{List, ℕ};

    ghost Value = { List (ℕ × List ℕ) };

    ghost view = { λ streams. streams.framers.entries };
}

impl Streams {
    /// No stream.
    pub fn none(alloc: Global) -> Self
        ensures { result ≡ [] }
    {
        Streams {
            framers: BTreeMap::new(alloc),
        }
    }

    /// Hands out what a session's stream holds, which is nothing at first. An `Err` is want of memory for a frame.
    pub fn take_out(&mut self, alloc: Global, session: u8) -> Result<Framer, PduFault>
        ensures held { IfOk result (λ framer. framer ≡ held_in self.old session) }
        ensures left { OnOk result (self.new ≡ remove_entry (is_at (nat_cmp session)) self.old) }
    {
        match self.framers.remove(&session) {
            Some(framer) => Ok(framer),
            None => Framer::make(alloc),
        }
    }

    /// Keeps what a session's stream holds.
    pub fn put_back(&mut self, session: u8, framer: Framer) -> Result<(), AllocError>
        ensures { OnOk result (self.new ≡ insert_entry nat_cmp self.old session framer) }
    {
        self.framers.insert(session, framer)?;
        Ok(())
    }
}
