//! A store whose device fails again and again.

ghost use Rattle.stable_store.specs.Stored.{stored_in};
ghost use Rattle.journal_laws.specs.Openings.{IsNew};

use mc_types::Incarnation;
use stable_store::{Found, ListStore, StableStore, StoreFault};
use std::alloc::Global;
use synod_acceptor::{Change, Record};

/// A store in memory of which every save of a number fails, and goes on then, as a device does that was opened again. By turns it leaves what was stored before
/// that save, and what the save was to store.
#[derive(Drop)]
pub struct UnsteadyStore {
    store: ListStore,
    every: u64,
    // How many saves from now the one that fails is.
    fails_in: u64,
    found: Found,
    failed: u64,
}

impl UnsteadyStore {
    /// A new store, of which every save of this number fails.
    pub fn make(alloc: Global, every: u64) -> UnsteadyStore
        ensures { IsNew (stored_in result.store result.failed) }
    {
        UnsteadyStore {
            store: ListStore::make(alloc),
            every,
            fails_in: every,
            found: Found::Before,
            failed: 0,
        }
    }
}

impl StableStore for UnsteadyStore {
    ghost use Rattle.stable_store.specs.Stored.{stored_in};
    ghost use Rattle.stable_store.specs.Listing.{settled_in, settled_started_in};

    ghost stored = { λ s. stored_in s.store s.failed };

    ghost found = { λ _ _ _ holds. holds };

    ghost found_started = { λ _ _ _ started. started };

    ghost settled = { λ s records left. settled_in s.store records left };

    ghost settled_started = { λ s started left. settled_started_in s.store started left };

    fn load(&mut self) -> Result<Vec<Record>, StoreFault> {
        self.store.load()
    }

    fn save(&mut self, change: &Change) -> Result<(), StoreFault> {
        if self.fails_in > 1 {
            self.store.save(change)?;
            self.fails_in -= 1;
            return Ok(());
        }
        if self.found == Found::After {
            self.store.save(change)?;
        }
        self.fails_in = self.every;
        self.found = other_than(self.found);
        self.failed = self.failed.saturating_add(1);
        Err(StoreFault::Device)
    }

    fn next_incarnation(&mut self) -> Result<Incarnation, StoreFault> {
        self.store.next_incarnation()
    }

    fn failures(&self) -> u64 {
        self.failed
    }
}

/// What the next save that fails leaves.
fn other_than(found: Found) -> Found {
    match found {
        Found::Before => Found::After,
        Found::After => Found::Before,
    }
}
