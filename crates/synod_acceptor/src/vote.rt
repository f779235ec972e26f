//! Votes, and what is reported of them.

ghost use Rattle.std.specs.Prelude.{◌≡◌, ◌<◌, ◌⊎◌, ◌↔◌, None, false, IfOk, IsSome, IsTrue, OnErr};
ghost use Rattle.node_model.specs.Message.{most_places};
ghost use Rattle.node_model.specs.Recorded.{named_places};
ghost use Rattle.synod_acceptor.specs.Votes.{IsInOrder, report_of, slot_in, slot_reported};

use fate_chain::Chain;
use mc_types::{Ballot, Slot};
use std::alloc::AllocError;

/// A vote for a chain at a ballot. Its slot is the one in which the chain stands, so it can't be of another.
#[derive(Drop)]
pub struct Vote {
    pub ballot: Ballot,
    pub chain: Chain,
}

impl Vote {
    /// The slot in which its chain stands.
    pub fn slot(&self) -> Slot
        ensures slot { result ≡ slot_in self.now }
        ensures place { result.place < most_places }
    {
        Slot {
            id: self.chain.id(),
            place: self.chain.place(),
        }
    }

    /// Whether it is the same vote as the other: for the same chain, at the same ballot.
    pub fn is(&self, other: &Vote) -> bool
        ensures { IsTrue result ↔ (self.now ≡ other.now) }
    {
        self.ballot == other.ballot && self.chain.is(&other.chain)
    }

    /// The same vote once more.
    pub fn copy(&self) -> Result<Vote, AllocError>
        ensures { IfOk result (λ vote. vote ≡ self.now) }
    {
        Ok(Vote {
            ballot: self.ballot,
            chain: self.chain.copy()?,
        })
    }
}

/// What an acceptor reports of a slot: that it did not vote there, or its vote.
#[derive(Drop)]
pub enum Report {
    Nothing(Slot),
    Held(Vote),
}

impl Report {
    /// The slot of which it reports; that of a vote is at one of the places of a chain.
    pub fn slot(&self) -> Slot
        ensures slot { result ≡ slot_reported self.now }
        ensures place { (report_of self.now ≡ None) ⊎ (result.place < most_places) }
    {
        match self {
            Report::Nothing(slot) => *slot,
            Report::Held(vote) => vote.slot(),
        }
    }

    /// What a proof takes of it: its slot names a place. The call does nothing.
    pub(crate) fn bounds(&self)
        ensures { (slot_reported self.now).place < named_places }
    {
        match self {
            Report::Nothing(slot) => slot.bounds(),
            Report::Held(vote) => vote.chain.bounds(),
        }
    }

    /// Whether a vote is reported, at a ballot above this one.
    pub(crate) fn is_above(&self, promised: Ballot) -> bool
        ensures { (result ≡ false) ↔ IsInOrder (record { promised = promised; vote = report_of self.now }) }
    {
        match self {
            Report::Nothing(_) => false,
            Report::Held(vote) => vote.ballot > promised,
        }
    }

    /// Whether it is the same report as the other: of the same slot that nothing was voted there, or of the same vote.
    pub fn is(&self, other: &Report) -> bool
        ensures { IsTrue result ↔ (self.now ≡ other.now) }
    {
        match (self, other) {
            (Report::Nothing(slot), Report::Nothing(other)) => slot == other,
            (Report::Held(vote), Report::Held(other)) => vote.is(other),
            _ => false,
        }
    }

    /// The same report once more. It takes memory only for a vote.
    pub fn copy(&self) -> Result<Report, AllocError>
        ensures copy { IfOk result (λ report. report ≡ self.now) }
        ensures memory { OnErr result (IsSome (report_of self.now)) }
    {
        match self {
            Report::Nothing(slot) => Ok(Report::Nothing(*slot)),
            Report::Held(vote) => Ok(Report::Held(vote.copy()?)),
        }
    }
}
