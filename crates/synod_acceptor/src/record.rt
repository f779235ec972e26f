//! The records of an acceptor.

ghost use Rattle.std.specs.Prelude.{◌≡◌, ◌≢◌, ◌<◌, ◌≤◌, ◌⊎◌, ◌↔◌, None, IfOk, IfSome, IsSome, IsTrue, OnErr};
ghost use Rattle.mc_model.specs.synod.Acceptor.{after_vote, blank};
ghost use Rattle.node_model.specs.Message.{most_places};
ghost use Rattle.node_model.specs.Recorded.{named_places};
ghost use Rattle.synod_acceptor.specs.Votes.{IsInOrder, record_of, report_of, slot_in, slot_recorded, vote_of};
ghost use Rattle.synod_acceptor.specs.declared.vote.Report.TheVariants as reports;

use crate::vote::{Report, Vote};
use mc_types::{Ballot, Slot};
use std::alloc::AllocError;
use std::marker::Model;

/// What an acceptor keeps of a slot: the ballot that it promised there, and its vote, if any, which is at no ballot above that.
#[derive(Drop)]
pub struct Record {
    promised: Ballot,
    report: Report,
}

impl Model for Record {
    ghost use Rattle.synod_acceptor.specs.Votes.{IsInOrder, Record, report_of};

    ghost Value = { Record };

    ghost view = { λ r. record { promised = r.promised; report = r.report } };

    ghost invariant = { λ r. IsInOrder (record { promised = r.promised; vote = report_of r.report }) };
}

/// A record that takes the place of the old one of its slot. It is to be saved before anything is answered.
#[derive(Drop)]
pub struct Change {
    pub after: Record,
}

impl Record {
    /// A record with this promise and this vote, if any; none exactly if the vote is at a ballot above the promise.
    pub fn make(promised: Ballot, report: Report) -> Option<Record>
        ensures made { IsSome result ↔ IsInOrder (record { promised = promised; vote = report_of report }) }
        ensures value { IfSome result (λ made. made ≡ record { promised = promised; report = report }) }
    {
        if report.is_above(promised) {
            return None;
        }
        Some(Record { promised, report })
    }

    /// The record of a slot in which nothing was voted.
    pub(crate) fn without_vote(promised: Ballot, slot: Slot) -> Record
        ensures { result ≡ record { promised = promised; report = reports.Nothing slot } }
    {
        Record {
            promised,
            report: Report::Nothing(slot),
        }
    }

    /// The record that a vote leaves.
    pub(crate) fn left_by(vote: Vote) -> Record
        ensures { result ≡ record { promised = vote.ballot; report = reports.Held vote } }
    {
        Record {
            promised: vote.ballot,
            report: Report::Held(vote),
        }
    }

    /// The same record with a promise that is not below its own.
    pub(crate) fn promising(&self, promised: Ballot) -> Result<Record, AllocError>
        requires { self.now.promised ≤ promised }
        ensures raised { IfOk result (λ raised. raised ≡ record self.now { promised = promised }) }
        ensures memory { OnErr result (IsSome (record_of self.now).vote) }
    {
        Ok(Record {
            promised,
            report: self.report.copy()?,
        })
    }

    /// The ballot that is promised.
    pub fn promised(&self) -> Ballot
        ensures { result ≡ self.now.promised }
    {
        self.promised
    }

    /// The vote, if any.
    pub fn report(&self) -> &Report
        ensures { result.now ≡ self.now.report }
    {
        &self.report
    }

    /// The slot of which it is the record; that of a vote is at one of the places of a chain.
    pub fn slot(&self) -> Slot
        ensures slot { result ≡ slot_recorded self.now }
        ensures place { ((record_of self.now).vote ≡ None) ⊎ (result.place < most_places) }
    {
        self.report.slot()
    }

    /// What a proof takes of it: something is promised in it, its vote is not above that, and its slot names a place. The call does nothing.
    pub fn promises(&self)
        ensures promised { record_of self.now ≢ blank }
        ensures ordered { IsInOrder (record_of self.now) }
        ensures place { (slot_recorded self.now).place < named_places }
    {
        self.promised.bounds();
        self.report.bounds();
    }

    /// Whether it is the record that this vote leaves.
    pub fn is_left_by(&self, vote: &Vote) -> bool
        ensures { slot_recorded self.now ≡ slot_in vote.now →
            IsTrue result ↔ (record_of self.now ≡ after_vote (vote_of vote.now)) }
    {
        match &self.report {
            Report::Nothing(_) => false,
            Report::Held(held) => self.promised == vote.ballot && held.is(vote),
        }
    }

    /// The same record once more. An `Err` is want of memory, which only a vote needs.
    pub fn copy(&self) -> Result<Record, AllocError>
        ensures copy { IfOk result (λ kept. kept ≡ self.now) }
        ensures memory { OnErr result (IsSome (record_of self.now).vote) }
    {
        Ok(Record {
            promised: self.promised,
            report: self.report.copy()?,
        })
    }
}
