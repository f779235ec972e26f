//! A store whose device fails at a call that stores notes, for tests.

ghost use Rattle.std.specs.Prelude.{◌≡◌, ◌≢◌, ◌↔◌, ◌⊎◌, ◌+◌, ◌-◌, ◌^◌, ◌≤◌, min, IfErr, IsTrue, OnErr, OnOk};
ghost use Rattle.stable_store.specs.declared.failing.Found.TheVariants.{After};
ghost use Rattle.stable_store.specs.declared.fault.StoreFault.TheVariants.{Device};

use crate::list::NotingList;
use crate::note::Note;
use crate::store::NotingStore;
use mc_types::Incarnation;
use stable_store::{Found, GroupStore, StableStore, StoreFault};
use synod_acceptor::{Change, Record};

/// A store of which one call that stores notes fails. After that it goes on, as a device does that was opened again. A call with no notes is none.
#[derive(Drop)]
pub struct FailingNotes {
    store: NotingList,
    // How many such calls from now the one that fails is; 0 where none is left to fail.
    fails_in: u64,
    found: Found,
    failed: u64,
}

impl FailingNotes {
    /// A store over this one, of which the call of this number, from 1, that stores notes fails, and leaves those of before, or these too.
    pub fn make(store: NotingList, call: u64, found: Found) -> FailingNotes
        ensures store { result.store ≡ store }
        ensures fails_in { result.fails_in ≡ call }
        ensures found { result.found ≡ found }
        ensures failed { result.failed ≡ 0 }
    {
        FailingNotes {
            store,
            fails_in: call,
            found,
            failed: 0,
        }
    }

    /// Whether the notes of the next call are stored, though it may fail.
    fn stores_next(&self) -> bool
        ensures { IsTrue result ↔ ((self.now.fails_in ≢ 1) ⊎ (self.now.found ≡ After)) }
    {
        self.fails_in != 1 || self.found == Found::After
    }

    /// Ends a call: it was the one that fails, or there is one less till that.
    fn end_call(&mut self) -> Result<(), StoreFault>
        ensures store { self.new.store ≡ self.old.store }
        ensures found { self.new.found ≡ self.old.found }
        ensures passes { OnOk result ((self.old.fails_in ≢ 1) × (self.new.fails_in ≡ self.old.fails_in - 1)) }
        ensures rises { self.old.failed ≤ self.new.failed }
        ensures fails { IfErr result (λ fault. (fault ≡ Device) × (self.old.fails_in ≡ 1) × (self.new.fails_in ≡ 0)) }
        ensures failed { OnErr result (min (self.old.failed + 1) (2 ^ 64 - 1) ≤ self.new.failed) }
    {
        if self.fails_in == 1 {
            self.fails_in = 0;
            self.failed = self.failed.saturating_add(1);
            return Err(StoreFault::Device);
        }
        self.fails_in = self.fails_in.saturating_sub(1);
        Ok(())
    }

    /// The store under it.
    pub fn into_store(self) -> NotingList
        ensures { result ≡ self.store }
    {
        self.store
    }
}

impl StableStore for FailingNotes {
    ghost use Rattle.stable_store.specs.Stored.{stored_in};
    ghost use Rattle.stable_store.specs.Listing.{settled_in, settled_started_in};

    ghost stored = { λ s. stored_in s.store.store s.failed };

    ghost found = { λ _ _ _ holds. holds };

    ghost found_started = { λ _ _ _ started. started };

    ghost settled = { λ s records left. settled_in s.store.store records left };

    ghost settled_started = { λ s started left. settled_started_in s.store.store started left };

    fn load(&mut self) -> Result<Vec<Record>, StoreFault> {
        self.store.load()
    }

    fn save(&mut self, change: &Change) -> Result<(), StoreFault> {
        self.store.save(change)
    }

    fn next_incarnation(&mut self) -> Result<Incarnation, StoreFault> {
        self.store.next_incarnation()
    }

    fn failures(&self) -> u64 {
        self.failed
    }
}

impl NotingStore for FailingNotes {
    ghost use Rattle.std.specs.Prelude.{[], IsErr, IsErrOf, Ok};
    ghost use Rattle.mc_model.specs.synod.Lists.{In};
    ghost use Rattle.stable_store.specs.Stored.{GoesOn, HasFailed, Leaves, Stays, stored_in};
    ghost use Rattle.stable_store.specs.declared.failing.Found.TheVariants.{Before};
    ghost use Rattle.stable_store.specs.declared.fault.StoreFault.TheVariants.{Memory};
    ghost use Rattle.noting_store.specs.Noted.{Noted, noted_in};

    ghost may_know = { λ s n. In n (noted_in s.store.notes.items) };

    /// The call of its number, counted from 1, fails, and no other; it leaves what was found.
    fn note(&mut self, notes: &[Note]) -> Result<(), StoreFault>
        ensures none { notes.now ≡ [] → (result ≡ Ok tt) × (self.new ≡ self.old) }
        ensures ok { OnOk result (Stays (stored_in self.old.store.store self.old.failed) (stored_in self.new.store.store self.new.failed)) }
        ensures memory { IsErrOf result Memory → Stays (stored_in self.old.store.store self.old.failed) (stored_in self.new.store.store self.new.failed) }
        ensures stop { Leaves (stored_in self.old.store.store self.old.failed) (stored_in self.new.store.store self.new.failed) }
        ensures goes_on { GoesOn (stored_in self.old.store.store self.old.failed) (stored_in self.new.store.store self.new.failed) }
        ensures device { IsErrOf result Device → HasFailed (stored_in self.old.store.store self.old.failed) (stored_in self.new.store.store self.new.failed) }
        ensures faults { IfErr result (λ fault. (fault ≡ Device) ⊎ (fault ≡ Memory)) }
        ensures noted { (n : Noted) → In n (noted_in self.new.store.notes.items) → In n (noted_in self.old.store.notes.items) ⊎ In n (noted_in notes.now) }
        ensures fails { notes.now ≢ [] → self.old.fails_in ≡ 1 → IsErr result }
        ensures fails_alone { IsErrOf result Device → (self.old.fails_in ≡ 1) × (self.new.fails_in ≡ 0) }
        ensures before { IsErrOf result Device → self.old.found ≡ Before → self.new.store ≡ self.old.store }
        ensures counts { OnOk result (notes.now ≢ [] → self.new.fails_in ≡ self.old.fails_in - 1) }
    {
        if notes.is_empty() {
            return Ok(());
        }
        if !self.stores_next() {
            return self.end_call();
        }
        self.store.note(notes)?;
        self.end_call()
    }

    fn load_noted(&mut self, nodes: u8) -> Result<Vec<Note>, StoreFault> {
        self.store.load_noted(nodes)
    }
}
