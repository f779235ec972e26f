//! A store that fails in a save of several changes.

use mc_types::Incarnation;
use stable_store::{Found, GroupStore, ListStore, StableStore, StoreFault};
use std::alloc::Global;
use synod_acceptor::{Change, Record};

/// A store in memory of which the first save of two changes or more fails, and leaves what was stored before it, or what it was to store. It goes on then, as a
/// device does that was opened again.
#[derive(Drop)]
pub struct FailingGroupStore {
    store: ListStore,
    found: Found,
    failed: u64,
}

impl FailingGroupStore {
    /// A new store, of which that save leaves this.
    pub fn make(alloc: Global, found: Found) -> FailingGroupStore {
        FailingGroupStore {
            store: ListStore::make(alloc),
            found,
            failed: 0,
        }
    }
}

impl StableStore for FailingGroupStore {
    ghost use Rattle.stable_store.specs.Stored.{stored_in};
    ghost use Rattle.stable_store.specs.Listing.{settled_in, settled_started_in};

    ghost stored = { λ s. stored_in s.store s.failed };

    ghost found = { λ _ _ _ holds. holds };

    ghost found_started = { λ _ _ _ started. started };

    ghost settled = { λ s records left. settled_in s.store records left };

    ghost settled_started = { λ s started left. settled_started_in s.store started left };

    fn load(&mut self) -> Result<Vec<Record>, StoreFault> {
        self.store.load()
    }

    fn save(&mut self, change: &Change) -> Result<(), StoreFault> {
        self.store.save(change)
    }

    fn next_incarnation(&mut self) -> Result<Incarnation, StoreFault> {
        self.store.next_incarnation()
    }

    fn failures(&self) -> u64 {
        self.failed
    }
}

impl GroupStore for FailingGroupStore {
    fn save_all(&mut self, changes: &[Change]) -> Result<(), StoreFault> {
        if self.failed > 0 || changes.len() < 2 {
            return self.store.save_all(changes);
        }
        if self.found == Found::After {
            self.store.save_all(changes)?;
        }
        self.failed = 1;
        Err(StoreFault::Device)
    }
}
