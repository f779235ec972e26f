//! A journal that goes on with another part of the same run.

ghost use Rattle.std.specs.Prelude.{◌≡◌, ◌≤◌, ◌↔◌, ◌++◌, [], IfOk, IsTrue, OnOk, length, map};
ghost use Rattle.mc_model.specs.synod.Lists.{In};
ghost use Rattle.journal_parts.specs.GoingOn.{AreSound, BothAreOne, ClosedOnesGoOn, numbers_behind};
ghost use Rattle.journal_parts.specs.Histories.{AllPartsAreOne, AllPartsKeepPromises};
ghost use Rattle.journal_parts.specs.Members.{posted};
ghost use Rattle.journal_parts.specs.Numbers.{RiseWithin, all_from, all_sent_by, sent_by};
ghost use Rattle.journal_parts.specs.declared.carried.Carried.{Carried as Again};

use crate::begins::Begins;
use crate::carried::Carried;
use crate::journal::Journal;
use crate::noted::Noted;
use crate::post::Post;
use crate::register::Register;
use stable_store::StableStore;
use std::alloc::{AllocError, Global};
use std::sync::ledger::Blank;

impl<S: StableStore> Journal<S> {
    /// How many nodes there are.
    pub fn nodes(&self) -> usize
        ensures { result ≡ length self.now.posts }
    {
        self.posts.len()
    }

    /// Whether no node is astray.
    pub fn is_sound(&self) -> bool
        ensures { IsTrue result ↔ AreSound self.now.posts }
    {
        are_sound(self.posts.as_slice())
    }

    /// All packets with this number or a higher one that may still come in another part, under their numbers, which rise: those that were carried before, and
    /// those of the entries. An `Err` is want of memory.
    pub fn carried_from(&self, alloc: Global, from: u64) -> Result<Vec<Carried>, AllocError>
        ensures items { IfOk result (λ carried. carried.items ≡ all_from from (numbers_behind self.now).may_come) }
        ensures rise { IfOk result (λ carried. RiseWithin 0 self.now.sent carried.items) }
    {
        let mut into = Vec::new(alloc);
        carry_again(self.carried.as_slice(), from, &mut into)?;
        carry_sent(self.noted.as_slice(), from, &mut into)?;
        Ok(into)
    }

    /// The nodes as they are, node 1 first, and what is left of the journal without them. It takes no memory.
    pub fn split(self) -> (Vec<Post<S>>, Past)
        ensures { map posted result.0.items ≡ self.posts }
    {
        let past = Past {
            noted: self.noted,
            carried: self.carried,
        };
        (self.posts, past)
    }
}

/// What is left of the journal of a part whose nodes have gone on: to let it go takes a while for each of its entries, so another thread may.
#[derive(Drop)]
pub struct Past {
    noted: Vec<Noted>,
    carried: Vec<Carried>,
}

impl<L: Begins> Register<L> {
    /// A part with no entry yet, and room for them all, behind one that was closed: all packets that have numbers there keep them, and those from this number
    /// on may still come. An `Err` is want of memory.
    pub fn go_on<S: StableStore>(
        alloc: Global,
        blank: Blank,
        journal: &Journal<S>,
        from: u64,
    ) -> Result<Register<L>, AllocError>
        requires name { blank.name ≡ L.name }
        requires parts { (blank.parts ≡ L.parts) × (blank.parts ≡ 1000000) }
        requires sent { L.numbers.count ≡ journal.now.sent }
        requires carried { (one : Again) → In one (all_from from (numbers_behind journal.now).may_come) → In one L.numbers.may_come }
        ensures entries { IfOk result (λ register. register.entries ≡ []) }
        ensures carried { IfOk result (λ register. register.carried ≡ all_from from (numbers_behind journal.now).may_come) }
        ensures claims { IfOk result (λ register. register.claims ≡ 0) }
        ensures room { IfOk result (λ register. 200000 ≤ register.room) }
        ensures seats { IfOk result (λ register. register.seats ≡ 1000000) }
    {
        let carried = journal.carried_from(alloc, from)?;
        Register::begin(alloc, blank, journal.packets(), carried)
    }
}

/// What a proof takes of a journal that was closed: it goes on if no node is astray, and both parts are one then. The call does nothing.
pub fn closed_journals_go_on<S: StableStore>()
    ensures go { ClosedOnesGoOn S.stored }
    ensures one { BothAreOne S.stored }
{}

/// What a proof takes of parts that were closed one behind the other: all of them are one part, which keeps all promises together with each run that leads to
/// where the first of them began. The call does nothing.
pub fn all_parts_are_one<S: StableStore>()
    ensures one { AllPartsAreOne S.stored }
    ensures promises { AllPartsKeepPromises S.stored }
{}

/// Whether none of them is astray.
fn are_sound<S: StableStore>(posts: &[Post<S>]) -> bool
    ensures { IsTrue result ↔ AreSound (map posted posts.now) }
{
    for post in posts {
        if post.astray {
            return false;
        }
    }
    true
}

/// Adds those of earlier parts with this number or a higher one. An `Err` is want of memory.
fn carry_again(carried: &[Carried], from: u64, into: &mut Vec<Carried>) -> Result<(), AllocError>
    ensures { OnOk result (into.new.items ≡ into.old.items ++ all_from from carried.now) }
{
    for one in carried {
        if one.number >= from {
            into.push(Carried {
                number: one.number,
                packet: one.packet.copy()?,
            })?;
        }
    }
    Ok(())
}

/// Adds those of the entries. An `Err` is want of memory.
fn carry_sent(noted: &[Noted], from: u64, into: &mut Vec<Carried>) -> Result<(), AllocError>
    ensures { OnOk result (into.new.items ≡ into.old.items ++ all_from from (all_sent_by noted.now)) }
{
    for entry in noted {
        carry_own(entry, from, into)?;
    }
    Ok(())
}

/// Adds those of an entry. An `Err` is want of memory.
fn carry_own(noted: &Noted, from: u64, into: &mut Vec<Carried>) -> Result<(), AllocError>
    ensures { OnOk result (into.new.items ≡ into.old.items ++ all_from from (sent_by noted.now)) }
{
    let mut number = noted.before;
    for packet in noted.entry.done.outputs.packets.as_slice() {
        number += 1;
        if number >= from {
            let packet = packet.copy()?;
            into.push(Carried { number, packet })?;
        }
    }
    Ok(())
}
