//! The acceptor.

ghost use Rattle.std.specs.Prelude.{[], ◌≡◌, ◌<◌, ◌≤◌, ◌↔◌, Some, None, option_map, IfOk, IfSome, IsOk, IsSome, IsTrue, OnOk, OnErr};
ghost use Rattle.std.specs.Option.{option_copied};
ghost use Rattle.mc_model.specs.synod.Packet.{Slot as SlotValue};
ghost use Rattle.mc_model.specs.synod.Acceptor.{blank, with_record};
ghost use Rattle.node_model.specs.Acceptor.{prepare_judged, propose_judged, told_of};
ghost use Rattle.synod_acceptor.specs.Votes.{record_of, slot_in, slot_recorded, told_vote, vote_of};
ghost use Rattle.synod_acceptor.specs.Packets.{packet_of};
ghost use Rattle.synod_acceptor.specs.Applied.{HasPlace, with_entry};
ghost use Rattle.synod_acceptor.specs.Records.{IsAbove, IsPlace, IsTopOf, Passes, entries_of, entry_of, held_at, record_at};
ghost use Rattle.synod_acceptor.specs.Verdicts.{Changes};
ghost use Rattle.synod_acceptor.specs.declared.packet.Packet.TheVariants as sent;
ghost use Rattle.synod_acceptor.specs.declared.vote.Report.TheVariants as reports;

use crate::packet::Packet;
use crate::record::{Change, Record};
use crate::room::RecordRoom;
use crate::vote::{Report, Vote};
use mc_types::{Ballot, MsgId, NodeNo, Slot};
use std::alloc::{AllocError, Global};
use std::marker::Model;

/// What an acceptor answers, and the change that is to be saved before, if any.
#[derive(Drop)]
pub struct Verdict {
    pub answer: Packet,
    pub change: Option<Change>,
}

/// The records of an acceptor, one for a slot. Contracts see them as a list of slots with their records, of which
/// `record_at` gives that of a slot.
///
/// A node keeps the records of each message in one, so that a call costs the few records of a message, and copies none but
/// that of its slot.
#[derive(Drop)]
pub struct Acceptor {
    records: Vec<Record>,
}

impl Model for Acceptor {
    ghost use Rattle.std.specs.Prelude.{List};
    ghost use Rattle.mc_model.specs.synod.Packet.{Slot};
    ghost use Rattle.mc_model.specs.synod.Acceptor.{SlotRecord};

    ghost Value = { List (Slot × SlotRecord) };

    ghost use Rattle.synod_acceptor.specs.Records.{AreRecords, entries_of};

    ghost view = { λ acceptor. entries_of acceptor.records.items };

    ghost invariant = { λ acceptor. AreRecords (entries_of acceptor.records.items) };
}

impl Acceptor {
    /// An acceptor with no record. It takes no memory.
    pub fn empty(alloc: Global) -> Acceptor
        ensures { (slot : SlotValue) → record_at result slot ≡ blank }
    {
        Acceptor {
            records: Vec::new(alloc),
        }
    }

    /// An acceptor with these records; the first counts if there are several of a slot.
    pub fn make(alloc: Global, mut records: Vec<Record>) -> Result<Acceptor, AllocError>
        ensures { IfOk result (λ acceptor. (slot : SlotValue) →
            record_at acceptor slot ≡ record_at (entries_of records.items) slot) }
    {
        let mut acceptor = Acceptor {
            records: Vec::new(alloc),
        };
        while let Some(after) = records.pop() {
            acceptor.apply(Change { after })?;
        }
        Ok(acceptor)
    }

    /// The record of a slot; none if nothing was promised and nothing voted there. It takes no memory.
    pub fn record(&self, slot: Slot) -> Option<&Record>
        ensures record { option_map record_of (option_copied result) ≡ held_at self.now slot }
        ensures slot { IfSome (option_copied result) (λ kept. slot_recorded kept ≡ slot) }
    {
        let place = place_of(&self.records, slot)?;
        Some(&self.records[place])
    }

    /// What the node of this number answers to a Prepare at a ballot: a promise, with the vote of the slot, if the ballot is
    /// above the one promised or none was; else a refusal. It changes nothing, and takes memory only to copy a vote.
    pub fn judge_prepare(
        &self,
        node: NodeNo,
        slot: Slot,
        ballot: Ballot,
    ) -> Result<Verdict, AllocError>
        ensures answer { IfOk result (λ verdict. packet_of verdict.answer ≡ (prepare_judged node slot ballot (record_at self.now slot)).answer) }
        ensures change { IfOk result (λ verdict. Changes slot (record_at self.now slot)
            (prepare_judged node slot ballot (record_at self.now slot)).after verdict.change) }
        ensures memory { OnErr result ((record_at self.now slot).promised < ballot) }
        ensures votes { OnErr result (IsSome (record_at self.now slot).vote) }
    {
        let Some(record) = self.record(slot) else {
            let after = Record::without_vote(ballot, slot);
            return Ok(promise(node, Report::Nothing(slot), after));
        };
        if ballot <= record.promised() {
            return Ok(refusal(node, slot, ballot, record.promised()));
        }
        let reported = record.report().copy()?;
        Ok(promise(node, reported, record.promising(ballot)?))
    }

    /// What the node of this number answers to a Propose: its vote, if the ballot is not below the one promised; else a
    /// refusal. A vote that stands already is told again without a change. It changes nothing, and takes memory only to copy
    /// the vote.
    pub fn judge_propose(&self, node: NodeNo, vote: &Vote) -> Result<Verdict, AllocError>
        ensures answer { IfOk result (λ verdict. packet_of verdict.answer ≡
            (propose_judged node (slot_in vote.now) (vote_of vote.now) (record_at self.now (slot_in vote.now))).answer) }
        ensures change { IfOk result (λ verdict. Changes (slot_in vote.now) (record_at self.now (slot_in vote.now))
            (propose_judged node (slot_in vote.now) (vote_of vote.now) (record_at self.now (slot_in vote.now))).after verdict.change) }
        ensures memory { OnErr result ((record_at self.now (slot_in vote.now)).promised ≤ vote.now.ballot) }
    {
        let Some(record) = self.record(vote.slot()) else {
            return voted(node, vote);
        };
        if vote.ballot < record.promised() {
            return Ok(refusal(node, vote.slot(), vote.ballot, record.promised()));
        }
        if record.is_left_by(vote) {
            return voted_before(node, vote);
        }
        voted(node, vote)
    }

    /// Puts the new record of a change in the place of the old one of its slot. An `Err` is want of memory, which only the first
    /// record of a slot needs, and changes nothing.
    pub fn apply(&mut self, change: Change) -> Result<(), AllocError>
        ensures ok { OnOk result ((slot : SlotValue) →
            record_at self.new slot ≡ with_record (record_at self.old) (slot_recorded change.after) (record_of change.after) slot) }
        ensures err { OnErr result (self.new ≡ self.old) }
        ensures memory { OnErr result (held_at self.old (slot_recorded change.after) ≡ None) }
    {
        let Some(place) = place_of(&self.records, change.after.slot()) else {
            self.records.push(change.after)?;
            return Ok(());
        };
        self.records[place] = change.after;
        Ok(())
    }

    /// Room for the record of a slot, to be handed to `apply_in`. It takes memory only for the first record of a slot, and changes nothing.
    pub fn room(&self, slot: Slot) -> Result<RecordRoom, AllocError>
        ensures place { IfOk result (HasPlace self.now slot) }
        ensures memory { OnErr result (held_at self.now slot ≡ None) }
    {
        let alloc = *self.records.allocator();
        match place_of(&self.records, slot) {
            Some(_) => Ok(RecordRoom::none(alloc)),
            None => RecordRoom::of(alloc, self.records.len() + 1),
        }
    }

    /// Puts the new record of a change in the place of the old one of its slot, as `apply` does; there is room for it. It takes no memory.
    pub fn apply_in(&mut self, change: Change, room: RecordRoom)
        requires { HasPlace self.old (slot_recorded change.after) room }
        ensures { self.new ≡ with_entry self.old (entry_of change.after) }
    {
        match place_of(&self.records, change.after.slot()) {
            Some(place) => self.records[place] = change.after,
            None => room.push(&mut self.records, change.after),
        }
    }

    /// The vote at the highest place of a message at which it voted; none if it did not. It takes no memory.
    pub fn tell(&self, id: MsgId) -> Option<&Vote>
        ensures { told_vote (option_copied result) ≡ told_of (record_at self.now) id }
    {
        top_of(&self.records, id)
    }

    /// The same records once more. It takes no memory if there are none.
    pub fn copy(&self) -> Result<Acceptor, AllocError>
        ensures same { IfOk result (λ acceptor. acceptor ≡ self.now) }
        ensures none { self.now ≡ [] → IsOk result }
    {
        let mut records = Vec::with_capacity(*self.records.allocator(), self.records.len())?;
        for record in &self.records {
            records.push(record.copy()?)?;
        }
        Ok(Acceptor { records })
    }
}

/// Where the record of a slot stands.
fn place_of(records: &[Record], slot: Slot) -> Option<usize>
    ensures { IsPlace (entries_of records.now) slot result }
{
    for place in 0..records.len() {
        if records[place].slot() == slot {
            return Some(place);
        }
    }
    None
}

/// The vote at the highest place of a message.
fn top_of(records: &[Record], id: MsgId) -> Option<&Vote>
    ensures { IsTopOf (entries_of records.now) id (told_vote (option_copied result)) }
{
    let mut top = None;
    for record in records {
        top = higher(record.report(), id, top);
    }
    top
}

/// The vote that is reported, if it is of the message and at a higher place than the one before; else that.
fn higher<'a>(report: &'a Report, id: MsgId, top: Option<&'a Vote>) -> Option<&'a Vote>
    ensures { Passes report.now id (told_vote (option_copied top.entry)) (told_vote (option_copied result)) }
{
    let Report::Held(vote) = report else {
        return top;
    };
    if vote.chain.id() != id {
        return top;
    }
    if !is_above(vote, top) {
        return top;
    }
    Some(vote)
}

/// Whether the vote stands at a higher place than another, or there is no other.
fn is_above(vote: &Vote, other: Option<&Vote>) -> bool
    ensures { IsTrue result ↔ IsAbove vote.now (option_copied other.entry) }
{
    match other {
        Some(other) => vote.chain.place() > other.chain.place(),
        None => true,
    }
}

/// A promise at the ballot of the record that it leaves, with a report.
fn promise(node: NodeNo, told: Report, after: Record) -> Verdict
    ensures answer { result.answer ≡ sent.Promise node after.promised told }
    ensures change { result.change ≡ Some (record { after = after }) }
{
    Verdict {
        answer: Packet::Promise {
            from: node,
            ballot: after.promised(),
            report: told,
        },
        change: Some(Change { after }),
    }
}

/// A refusal for a promise.
fn refusal(node: NodeNo, slot: Slot, ballot: Ballot, promised: Ballot) -> Verdict
    ensures answer { result.answer ≡ sent.Refused node slot ballot promised }
    ensures change { result.change ≡ None }
{
    Verdict {
        answer: Packet::Refused {
            from: node,
            slot,
            ballot,
            promised,
        },
        change: None,
    }
}

/// A vote that is told, and the record that it leaves.
fn voted(node: NodeNo, vote: &Vote) -> Result<Verdict, AllocError>
    ensures answer { IfOk result (λ verdict. verdict.answer ≡ sent.Voted node vote.now) }
    ensures change { IfOk result (λ verdict. verdict.change ≡ Some (record {
      after = record { promised = vote.now.ballot; report = reports.Held vote.now };
    })) }
{
    let after = Record::left_by(vote.copy()?);
    Ok(Verdict {
        answer: Packet::Voted {
            from: node,
            vote: vote.copy()?,
        },
        change: Some(Change { after }),
    })
}

/// A vote that is told again.
fn voted_before(node: NodeNo, vote: &Vote) -> Result<Verdict, AllocError>
    ensures answer { IfOk result (λ verdict. verdict.answer ≡ sent.Voted node vote.now) }
    ensures change { IfOk result (λ verdict. verdict.change ≡ None) }
{
    Ok(Verdict {
        answer: Packet::Voted {
            from: node,
            vote: vote.copy()?,
        },
        change: None,
    })
}
