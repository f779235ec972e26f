//! A store in memory.

ghost use Rattle.std.specs.Prelude.{◌≡◌, [], reverse, IfOk};
ghost use Rattle.synod_acceptor.specs.Records.{entries_of, record_at};
ghost use Rattle.stable_store.specs.Stored.{afters};

use crate::fault::StoreFault;
use crate::group::GroupStore;
use crate::store::StableStore;
use mc_types::Incarnation;
use std::alloc::{AllocError, Global};
use std::marker::Model;
use synod_acceptor::{Change, Record};

/// A store in memory, for scripts and tests: the records in the order in which they were saved. It outlives the stop of a node
/// whose program goes on. A save costs one copy of a record; a load costs all that were saved.
#[derive(Drop)]
pub struct ListStore {
    // The oldest first.
    saved: Vec<Record>,
    started: u16,
}

impl Model for ListStore {
    ghost use Rattle.std.specs.Prelude.{reverse, ◌≤◌};
    ghost use Rattle.stable_store.specs.Stored.{Listed};

    ghost Value = { Listed };

    ghost use Rattle.synod_acceptor.specs.Records.{entries_of};

    ghost view = { λ s. record {
      entries = entries_of (reverse s.saved.items);
      started = s.started;
    } };
}

impl ListStore {
    /// A new store: no record, and no incarnation.
    pub fn make(alloc: Global) -> ListStore
        ensures entries { result.entries ≡ [] }
        ensures started { result.started ≡ 0 }
    {
        ListStore {
            saved: Vec::new(alloc),
            started: 0,
        }
    }

    /// Copies of all records that were saved, the newest first. An `Err` is want of memory: what was saved can always be read.
    pub fn saved(&self) -> Result<Vec<Record>, AllocError>
        ensures { IfOk result (λ saved. entries_of saved.items ≡ self.now.entries) }
    {
        reversed(*self.saved.allocator(), &self.saved)
    }
}

impl StableStore for ListStore {
    ghost use Rattle.std.specs.Prelude.{◌+◌, ◌≤◌, IfErr, OnErr};
    ghost use Rattle.stable_store.specs.declared.fault.StoreFault.TheVariants.{Incarnations};
    ghost use Rattle.stable_store.specs.Stored.{stored_in};
    ghost use Rattle.stable_store.specs.Listing.{settled_in, settled_started_in};

    ghost stored = { λ s. stored_in s 0 };

    ghost found = { λ _ _ _ holds. holds };

    ghost found_started = { λ _ _ _ started. started };

    ghost settled = { λ s records left. settled_in s records left };

    ghost settled_started = { λ s started left. settled_started_in s started left };

    fn load(&mut self) -> Result<Vec<Record>, StoreFault> {
        let saved = self.saved()?;
        Ok(saved)
    }

    fn save(&mut self, change: &Change) -> Result<(), StoreFault> {
        self.saved.push(change.after.copy()?)?;
        Ok(())
    }

    /// The incarnation after the last one. Incarnations exactly if 9,999 were used; it answers no other fault, and takes no memory.
    fn next_incarnation(&mut self) -> Result<Incarnation, StoreFault>
        ensures next { IfOk result (λ next. next ≡ self.old.started + 1) }
        ensures raised { IfOk result (λ next. self.new.started ≡ next) }
        ensures spent { OnErr result (9999 ≤ self.old.started) }
        ensures faults { IfErr result (λ fault. fault ≡ Incarnations) }
        ensures kept { OnErr result (self.new ≡ self.old) }
        ensures records { self.new.entries ≡ self.old.entries }
    {
        let Ok(next) = Incarnation::make(self.started.saturating_add(1)) else {
            return Err(StoreFault::Incarnations);
        };
        self.started = next.number();
        Ok(next)
    }

    fn failures(&self) -> u64 {
        0
    }
}

impl GroupStore for ListStore {
    /// All memory that a group takes is there before anything is changed.
    fn save_all(&mut self, changes: &[Change]) -> Result<(), StoreFault> {
        if changes.is_empty() {
            return Ok(());
        }
        let mut records = records_of(*self.saved.allocator(), changes)?;
        self.saved.append(&mut records)?;
        Ok(())
    }
}

/// Copies of the records of changes, in their order.
fn records_of(alloc: Global, changes: &[Change]) -> Result<Vec<Record>, AllocError>
    ensures { IfOk result (λ records. records.items ≡ afters changes.now) }
{
    let mut records = Vec::with_capacity(alloc, changes.len())?;
    for change in changes {
        records.push(change.after.copy()?)?;
    }
    Ok(records)
}

/// Copies of records, in the reverse order.
fn reversed(alloc: Global, records: &[Record]) -> Result<Vec<Record>, AllocError>
    ensures { IfOk result (λ copies. copies.items ≡ reverse records.now) }
{
    let mut copies = Vec::with_capacity(alloc, records.len())?;
    for place in (0..records.len()).rev() {
        copies.push(records[place].copy()?)?;
    }
    Ok(copies)
}
