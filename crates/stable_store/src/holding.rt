//! A store that holds a save up, for tests.

ghost use Rattle.std.specs.Prelude.{◌≡◌, ◌≢◌, ◌+◌, ◌-◌, ◌^◌, ℕ, [], min, IfErr, IsErrOf, Ok, OnOk};

use crate::fault::StoreFault;
use crate::group::GroupStore;
use crate::list::ListStore;
use crate::store::StableStore;
use mc_types::Incarnation;
use synod_acceptor::{Change, Record};

/// What holds a save up: it returns when the save may go on.
pub trait Hold {
    /// How often it was asked to hold a save up.
    ghost held: { Self → ℕ };

    /// Holds a save up. It is asked at most 2^64 - 1 times.
    fn hold(&mut self)
        ensures { held self.new ≡ min (held self.old + 1) (2 ^ 64 - 1) };
}

/// A store of which one save is held up. A group is one save; one of no changes is none.
#[derive(Drop)]
pub struct HoldingStore<H: Hold> {
    store: ListStore,
    // How many saves from now the one that is held is; 0 where none is left to hold.
    holds_in: u64,
    hold: H,
}

impl<H: Hold> HoldingStore<H> {
    /// A store over this one, of which the save of this number, from 1, is held up before it is done.
    pub fn make(store: ListStore, save: u64, hold: H) -> Self
        ensures store { result.store ≡ store }
        ensures holds_in { result.holds_in ≡ save }
    {
        HoldingStore {
            store,
            holds_in: save,
            hold,
        }
    }

    /// Begins a save: it is held up, or there is one less till that.
    fn begin_save(&mut self)
        ensures store { self.new.store ≡ self.old.store }
        ensures holds { self.old.holds_in ≡ 1 → H.held self.new.hold ≡ min (H.held self.old.hold + 1) (2 ^ 64 - 1) }
        ensures holds_alone { self.old.holds_in ≢ 1 → self.new.hold ≡ self.old.hold }
        ensures counts { self.new.holds_in ≡ self.old.holds_in - 1 }
    {
        if self.holds_in == 1 {
            self.hold.hold();
        }
        self.holds_in = self.holds_in.saturating_sub(1);
    }
}

impl<H: Hold> StableStore for HoldingStore<H> {
    ghost use Rattle.stable_store.specs.Stored.{GoesOn, KeepsStarted, LeavesSaved, Saves, Stays, stored_in};
    ghost use Rattle.stable_store.specs.Listing.{settled_in, settled_started_in};
    ghost use Rattle.stable_store.specs.declared.fault.StoreFault.TheVariants.{Memory};

    ghost stored = { λ s. stored_in s.store 0 };

    ghost found = { λ _ _ _ holds. holds };

    ghost found_started = { λ _ _ _ started. started };

    ghost settled = { λ s records left. settled_in s.store records left };

    ghost settled_started = { λ s started left. settled_started_in s.store started left };

    fn load(&mut self) -> Result<Vec<Record>, StoreFault> {
        self.store.load()
    }

    /// The save of its number, counted from 1, is held up, and no other.
    fn save(&mut self, change: &Change) -> Result<(), StoreFault>
        ensures ok { OnOk result (Saves change.now (stored_in self.old.store 0) (stored_in self.new.store 0)) }
        ensures kept { OnOk result (KeepsStarted (stored_in self.old.store 0) (stored_in self.new.store 0)) }
        ensures memory { IsErrOf result Memory → Stays (stored_in self.old.store 0) (stored_in self.new.store 0) }
        ensures stop { LeavesSaved change.now (stored_in self.old.store 0) (stored_in self.new.store 0) }
        ensures goes_on { GoesOn (stored_in self.old.store 0) (stored_in self.new.store 0) }
        ensures faults { IfErr result (λ fault. fault ≡ Memory) }
        ensures holds { self.old.holds_in ≡ 1 → H.held self.new.hold ≡ min (H.held self.old.hold + 1) (2 ^ 64 - 1) }
        ensures holds_alone { self.old.holds_in ≢ 1 → self.new.hold ≡ self.old.hold }
        ensures counts { self.new.holds_in ≡ self.old.holds_in - 1 }
    {
        self.begin_save();
        self.store.save(change)
    }

    fn next_incarnation(&mut self) -> Result<Incarnation, StoreFault> {
        self.store.next_incarnation()
    }

    fn failures(&self) -> u64 {
        0
    }
}

impl<H: Hold> GroupStore for HoldingStore<H> {
    ghost use Rattle.stable_store.specs.Stored.{GoesOn, KeepsStarted, LeavesSavedAll, SavesAll, Stays, stored_in};
    ghost use Rattle.stable_store.specs.declared.fault.StoreFault.TheVariants.{Memory};

    /// The save of its number, counted from 1, is held up, and no other.
    fn save_all(&mut self, changes: &[Change]) -> Result<(), StoreFault>
        ensures none { changes.now ≡ [] → (result ≡ Ok tt) × (self.new ≡ self.old) }
        ensures ok { OnOk result (SavesAll changes.now (stored_in self.old.store 0) (stored_in self.new.store 0)) }
        ensures kept { OnOk result (KeepsStarted (stored_in self.old.store 0) (stored_in self.new.store 0)) }
        ensures memory { IsErrOf result Memory → Stays (stored_in self.old.store 0) (stored_in self.new.store 0) }
        ensures stop { LeavesSavedAll changes.now (stored_in self.old.store 0) (stored_in self.new.store 0) }
        ensures goes_on { GoesOn (stored_in self.old.store 0) (stored_in self.new.store 0) }
        ensures faults { IfErr result (λ fault. fault ≡ Memory) }
        ensures holds { changes.now ≢ [] → self.old.holds_in ≡ 1 → H.held self.new.hold ≡ min (H.held self.old.hold + 1) (2 ^ 64 - 1) }
        ensures holds_alone { self.old.holds_in ≢ 1 → self.new.hold ≡ self.old.hold }
        ensures counts { changes.now ≢ [] → self.new.holds_in ≡ self.old.holds_in - 1 }
    {
        if changes.is_empty() {
            return Ok(());
        }
        self.begin_save();
        self.store.save_all(changes)
    }
}
