//! An outlet that keeps what was put.

use esme_service::Sending;
use esme_site::Outlet;
use pdu_codec::SystemId;
use sessions::Outgoing;
use std::alloc::{AllocError, Global};
use std::process::Abort;

/// An event at an outlet: the session, and the length of the PDU that was put there; or `LOST` or `ENDED`.
pub type Event = (u8, usize);

/// The session is lost.
const LOST: usize = 0;

/// It was put that the session is gone.
pub const ENDED: usize = 1;

/// An outlet that keeps what was put, and of which the put of this number, from 1, wants memory; none does if it is 0. Nothing is said of it to proofs.
#[derive(Drop)]
pub struct Kept {
    alloc: Global,
    fails_in: u64,
    events: Vec<Event>,
    last: Vec<u8>,
}

impl Kept {
    pub fn none(alloc: Global, fails_in: u64) -> Kept {
        Kept {
            alloc,
            fails_in,
            events: Vec::new(alloc),
            last: Vec::new(alloc),
        }
    }

    /// Whether there is memory for this put.
    fn has_memory(&mut self) -> Result<(), AllocError> {
        self.fails_in = self.fails_in.wrapping_sub(1);
        if self.fails_in == 0 {
            return Err(AllocError);
        }
        Ok(())
    }

    /// Keeps octets that are put.
    fn keep(&mut self, number: u8, octets: Vec<u8>) -> Result<(), AllocError> {
        self.events.push((number, octets.len()))?;
        self.last = octets;
        Ok(())
    }

    /// What was put and lost, the oldest first.
    pub fn events(&self) -> &[Event] {
        &self.events
    }

    /// The octets that were put last.
    pub fn last(&self) -> &[u8] {
        &self.last
    }
}

impl Outlet for Kept {
    ghost puts = { λ _ _ _ _. Unit {0} };

    fn put(&mut self, sending: &Sending) -> Result<(), AllocError> {
        self.has_memory()?;
        let Some(octets) = sending.octets(self.alloc)? else {
            return Ok(());
        };
        self.keep(sending.number(), octets)
    }

    fn respond(
        &mut self,
        system_id: &SystemId,
        number: u8,
        outgoing: Outgoing,
    ) -> Result<(), AllocError> {
        self.has_memory()?;
        let octets = outgoing.octets(self.alloc, system_id)?;
        self.keep(number, octets)
    }

    fn end(&mut self, number: u8) -> Result<(), AllocError> {
        self.has_memory()?;
        self.events.push((number, ENDED))?;
        Ok(())
    }

    fn lose(&mut self, number: u8) {
        let _ = self.events.push((number, LOST));
    }

    ghost rests = { λ _. tt };

    ghost follows = { λ _ _ _ _ _ _ _ _ _. tt };
}

/// That these are the events. A failure prints what the row shows.
pub fn assert_events(rt: &impl Abort, shows: &str, kept: Kept, wanted: &[Event]) {
    let found = (shows, kept.events());
    crate::same::assert_same(rt, &found, &(shows, wanted));
    drop(kept);
}
