//! A store whose device fails, for tests.

ghost use Rattle.std.specs.Prelude.{◌≡◌, ◌≢◌, ◌↔◌, ◌⊎◌, ◌+◌, ◌-◌, ◌^◌, ◌≤◌, [], min, IfErr, IsErr, IsErrOf, IsTrue, Ok, OnErr, OnOk};
ghost use Rattle.stable_store.specs.declared.failing.Found.TheVariants.{After};
ghost use Rattle.stable_store.specs.declared.fault.StoreFault.TheVariants.{Device};

use crate::fault::StoreFault;
use crate::group::GroupStore;
use crate::list::ListStore;
use crate::store::StableStore;
use mc_types::Incarnation;
use synod_acceptor::{Change, Record};

/// What a save that failed leaves: what was stored before it, or what it was to store.
#[derive(Clone, Copy, Debug, PartialEq, Eq)]
pub enum Found {
    Before,
    After,
}

/// A store of which one save fails. After that it goes on, as a device does that was opened again. A group is one save; one of no changes is none.
#[derive(Drop)]
pub struct FailingStore {
    store: ListStore,
    // How many saves from now the one that fails is; 0 where none is left to fail.
    fails_in: u64,
    found: Found,
    failed: u64,
}

impl FailingStore {
    /// A store over this one, of which the save of this number, from 1, fails, and leaves this.
    pub fn make(store: ListStore, save: u64, found: Found) -> FailingStore
        ensures store { result.store ≡ store }
        ensures fails_in { result.fails_in ≡ save }
        ensures found { result.found ≡ found }
        ensures failed { result.failed ≡ 0 }
    {
        FailingStore {
            store,
            fails_in: save,
            found,
            failed: 0,
        }
    }

    /// Whether the next save fails.
    pub fn fails_next(&self) -> bool
        ensures { IsTrue result ↔ (self.now.fails_in ≡ 1) }
    {
        self.fails_in == 1
    }

    /// Whether the next save is stored, though it may fail.
    fn stores_next(&self) -> bool
        ensures { IsTrue result ↔ ((self.now.fails_in ≢ 1) ⊎ (self.now.found ≡ After)) }
    {
        self.fails_in != 1 || self.found == Found::After
    }

    /// Ends a save: it was the one that fails, or there is one less till that.
    fn end_save(&mut self) -> Result<(), StoreFault>
        ensures store { self.new.store ≡ self.old.store }
        ensures found { self.new.found ≡ self.old.found }
        ensures passes { OnOk result ((self.old.fails_in ≢ 1) × (self.new.fails_in ≡ self.old.fails_in - 1)) }
        ensures rises { self.old.failed ≤ self.new.failed }
        ensures fails { IfErr result (λ fault. (fault ≡ Device) × (self.old.fails_in ≡ 1) × (self.new.fails_in ≡ 0)) }
        ensures failed { OnErr result (min (self.old.failed + 1) (2 ^ 64 - 1) ≤ self.new.failed) }
    {
        if self.fails_next() {
            self.fails_in = 0;
            self.failed = self.failed.saturating_add(1);
            return Err(StoreFault::Device);
        }
        self.fails_in = self.fails_in.saturating_sub(1);
        Ok(())
    }

    /// The store under it.
    pub fn into_store(self) -> ListStore
        ensures { result ≡ self.store }
    {
        self.store
    }
}

impl StableStore for FailingStore {
    ghost use Rattle.synod_acceptor.specs.Records.{record_at};
    ghost use Rattle.stable_store.specs.Stored.{AreSame, GoesOn, HasFailed, KeepsStarted, LeavesSaved, Saves, Stays, saved, stored_in};
    ghost use Rattle.stable_store.specs.Listing.{settled_in, settled_started_in};
    ghost use Rattle.stable_store.specs.declared.failing.Found.TheVariants.{After, Before};
    ghost use Rattle.stable_store.specs.declared.fault.StoreFault.TheVariants.{Device, Memory};

    ghost stored = { λ s. stored_in s.store s.failed };

    ghost found = { λ _ _ _ holds. holds };

    ghost found_started = { λ _ _ _ started. started };

    ghost settled = { λ s records left. settled_in s.store records left };

    ghost settled_started = { λ s started left. settled_started_in s.store started left };

    fn load(&mut self) -> Result<Vec<Record>, StoreFault> {
        self.store.load()
    }

    /// The save of its number, counted from 1, fails, and no other; it leaves what was found.
    fn save(&mut self, change: &Change) -> Result<(), StoreFault>
        ensures ok { OnOk result (Saves change.now (stored_in self.old.store self.old.failed) (stored_in self.new.store self.new.failed)) }
        ensures kept { OnOk result (KeepsStarted (stored_in self.old.store self.old.failed) (stored_in self.new.store self.new.failed)) }
        ensures memory { IsErrOf result Memory → Stays (stored_in self.old.store self.old.failed) (stored_in self.new.store self.new.failed) }
        ensures stop { LeavesSaved change.now (stored_in self.old.store self.old.failed) (stored_in self.new.store self.new.failed) }
        ensures goes_on { GoesOn (stored_in self.old.store self.old.failed) (stored_in self.new.store self.new.failed) }
        ensures device { IsErrOf result Device → HasFailed (stored_in self.old.store self.old.failed) (stored_in self.new.store self.new.failed) }
        ensures faults { IfErr result (λ fault. (fault ≡ Device) ⊎ (fault ≡ Memory)) }
        ensures fails { self.old.fails_in ≡ 1 → IsErr result }
        ensures fails_alone { IsErrOf result Device → (self.old.fails_in ≡ 1) × (self.new.fails_in ≡ 0) }
        ensures wants { IsErrOf result Memory → self.old.fails_in ≡ 1 → self.old.found ≡ After }
        ensures before { IsErrOf result Device → self.old.found ≡ Before →
            AreSame (record_at self.new.store.entries) (record_at self.old.store.entries) }
        ensures after { IsErrOf result Device → self.old.found ≡ After →
            AreSame (record_at self.new.store.entries) (saved change.now self.old.store.entries) }
        ensures counts { OnOk result (self.new.fails_in ≡ self.old.fails_in - 1) }
        ensures waits { IsErrOf result Memory → self.new.fails_in ≡ self.old.fails_in }
    {
        if !self.stores_next() {
            return self.end_save();
        }
        self.store.save(change)?;
        self.end_save()
    }

    fn next_incarnation(&mut self) -> Result<Incarnation, StoreFault> {
        self.store.next_incarnation()
    }

    fn failures(&self) -> u64 {
        self.failed
    }
}

impl GroupStore for FailingStore {
    ghost use Rattle.synod_acceptor.specs.Records.{record_at};
    ghost use Rattle.stable_store.specs.Stored.{AreSame, GoesOn, HasFailed, KeepsStarted, LeavesSavedAll, SavesAll, Stays, saved_all, stored_in};
    ghost use Rattle.stable_store.specs.declared.failing.Found.TheVariants.{After, Before};
    ghost use Rattle.stable_store.specs.declared.fault.StoreFault.TheVariants.{Device, Memory};

    /// The save of its number, counted from 1, fails, and no other; it leaves what was found.
    fn save_all(&mut self, changes: &[Change]) -> Result<(), StoreFault>
        ensures none { changes.now ≡ [] → (result ≡ Ok tt) × (self.new ≡ self.old) }
        ensures ok { OnOk result (SavesAll changes.now (stored_in self.old.store self.old.failed) (stored_in self.new.store self.new.failed)) }
        ensures kept { OnOk result (KeepsStarted (stored_in self.old.store self.old.failed) (stored_in self.new.store self.new.failed)) }
        ensures memory { IsErrOf result Memory → Stays (stored_in self.old.store self.old.failed) (stored_in self.new.store self.new.failed) }
        ensures stop { LeavesSavedAll changes.now (stored_in self.old.store self.old.failed) (stored_in self.new.store self.new.failed) }
        ensures goes_on { GoesOn (stored_in self.old.store self.old.failed) (stored_in self.new.store self.new.failed) }
        ensures device { IsErrOf result Device → HasFailed (stored_in self.old.store self.old.failed) (stored_in self.new.store self.new.failed) }
        ensures faults { IfErr result (λ fault. (fault ≡ Device) ⊎ (fault ≡ Memory)) }
        ensures fails { changes.now ≢ [] → self.old.fails_in ≡ 1 → IsErr result }
        ensures fails_alone { IsErrOf result Device → (self.old.fails_in ≡ 1) × (self.new.fails_in ≡ 0) }
        ensures wants { IsErrOf result Memory → self.old.fails_in ≡ 1 → self.old.found ≡ After }
        ensures before { IsErrOf result Device → self.old.found ≡ Before →
            AreSame (record_at self.new.store.entries) (record_at self.old.store.entries) }
        ensures after { IsErrOf result Device → self.old.found ≡ After →
            AreSame (record_at self.new.store.entries) (saved_all changes.now self.old.store.entries) }
        ensures counts { OnOk result (changes.now ≢ [] → self.new.fails_in ≡ self.old.fails_in - 1) }
        ensures waits { IsErrOf result Memory → self.new.fails_in ≡ self.old.fails_in }
    {
        if changes.is_empty() {
            return Ok(());
        }
        if !self.stores_next() {
            return self.end_save();
        }
        self.store.save_all(changes)?;
        self.end_save()
    }
}
