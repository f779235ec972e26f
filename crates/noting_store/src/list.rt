//! A store in memory with notes.

ghost use Rattle.std.specs.Prelude.{◌≡◌, ◌↔◌, ◌⊎◌, [], false, IfErr, IfOk};
ghost use Rattle.stable_store.specs.declared.fault.StoreFault.TheVariants.{Damaged, Memory};
ghost use Rattle.mc_model.specs.synod.Lists.{In};
ghost use Rattle.noting_store.specs.Noted.{AreApart, AreOf, HasNone, Noted, noted_in};

use crate::note::Note;
use crate::store::NotingStore;
use mc_types::{Incarnation, MsgId};
use stable_store::{GroupStore, ListStore, StableStore, StoreFault};
use std::alloc::{AllocError, Global};
use std::marker::Model;
use synod_acceptor::{Change, Record};

/// A store in memory, for scripts and tests: a list of records, and notes in the order in which they were stored.
#[derive(Drop)]
pub struct NotingList {
    store: ListStore,
    // The oldest first; of a message the last counts.
    notes: Vec<Note>,
}

impl NotingList {
    /// A store over this list of records, with no notes.
    pub fn make(alloc: Global, store: ListStore) -> NotingList
        ensures store { result.store ≡ store }
        ensures notes { result.notes.items ≡ [] }
    {
        NotingList {
            store,
            notes: Vec::new(alloc),
        }
    }

    /// The list of records under it.
    pub fn into_store(self) -> ListStore
        ensures { result ≡ self.store }
    {
        self.store
    }
}

impl StableStore for NotingList {
    ghost use Rattle.stable_store.specs.Stored.{stored_in};
    ghost use Rattle.stable_store.specs.Listing.{settled_in, settled_started_in};

    ghost stored = { λ s. stored_in s.store 0 };

    ghost found = { λ _ _ _ holds. holds };

    ghost found_started = { λ _ _ _ started. started };

    ghost settled = { λ s records left. settled_in s.store records left };

    ghost settled_started = { λ s started left. settled_started_in s.store started left };

    fn load(&mut self) -> Result<Vec<Record>, StoreFault> {
        self.store.load()
    }

    fn save(&mut self, change: &Change) -> Result<(), StoreFault> {
        self.store.save(change)
    }

    fn next_incarnation(&mut self) -> Result<Incarnation, StoreFault> {
        self.store.next_incarnation()
    }

    fn failures(&self) -> u64 {
        0
    }
}

impl GroupStore for NotingList {
    fn save_all(&mut self, changes: &[Change]) -> Result<(), StoreFault> {
        self.store.save_all(changes)
    }
}

impl NotingStore for NotingList {
    ghost may_know = { λ s n. In n (noted_in s.notes.items) };

    fn note(&mut self, notes: &[Note]) -> Result<(), StoreFault> {
        if notes.is_empty() {
            return Ok(());
        }
        let mut copies = copies_of(*self.notes.allocator(), notes)?;
        self.notes.append(&mut copies)?;
        Ok(())
    }

    fn load_noted(&mut self, nodes: u8) -> Result<Vec<Note>, StoreFault> {
        newest_of(*self.notes.allocator(), nodes, &self.notes)
    }
}

/// Copies of notes, in their order.
fn copies_of(alloc: Global, notes: &[Note]) -> Result<Vec<Note>, AllocError>
    ensures { IfOk result (λ copies. copies.items ≡ notes.now) }
{
    let mut copies = Vec::with_capacity(alloc, notes.len())?;
    for note in notes {
        copies.push(note.copy()?)?;
    }
    Ok(copies)
}

/// Copies of the last note of each message. Damaged if one is not of a cluster of so many nodes.
fn newest_of(alloc: Global, nodes: u8, notes: &[Note]) -> Result<Vec<Note>, StoreFault>
    ensures found { IfOk result (λ newest. (n : Noted) → In n (noted_in newest.items) → In n (noted_in notes.now)) }
    ensures nodes { IfOk result (λ newest. AreOf nodes newest.items) }
    ensures apart { IfOk result (λ newest. AreApart (noted_in newest.items)) }
    ensures faults { IfErr result (λ fault. (fault ≡ Damaged) ⊎ (fault ≡ Memory)) }
{
    let mut newest = Vec::new(alloc);
    for place in (0..notes.len()).rev() {
        let note = &notes[place];
        if note.nodes() != nodes {
            return Err(StoreFault::Damaged);
        }
        if !has_note_of(&newest, note.id()) {
            newest.push(note.copy()?)?;
        }
    }
    Ok(newest)
}

/// Whether one of the notes is of this message.
fn has_note_of(notes: &[Note], id: MsgId) -> bool
    ensures { (result ≡ false) ↔ HasNone id (noted_in notes.now) }
{
    for note in notes {
        if note.id() == id {
            return true;
        }
    }
    false
}
