//! What every store promises.

ghost use Rattle.std.specs.Prelude.{◌≡◌, ◌≤◌, ◌⊎◌, ◌+◌, ℕ, IfOk, IfErr, IsErrOf, OnOk};
ghost use Rattle.mc_model.specs.synod.Acceptor.{Records};
ghost use Rattle.synod_acceptor.specs.Records.{entries_of, record_at};
ghost use Rattle.stable_store.specs.Stored.{AreSame, GoesOn, HasFailed, KeepsRecords, KeepsStarted, Leaves, LeavesNext, LeavesSaved, Saves, Stays, Stored};
ghost use Rattle.stable_store.specs.declared.fault.StoreFault.TheVariants.{Device, Damaged, Incarnations, Memory};

use crate::fault::StoreFault;
use mc_types::Incarnation;
use synod_acceptor::{Change, Record};

/// What a node keeps where a stop can't reach it: the record of each slot, and the number of its last incarnation.
///
/// After `Device` the store is to be opened again; it holds then what it held before the call, or what the call was to leave.
pub trait StableStore {
    /// What is stored, and what whoever opens it after a stop may find.
    ghost stored: { Self → Stored };

    /// The record of each slot that is stored, the newest first: of several of a slot the first counts. It changes nothing that is stored.
    /// It answers Damaged only if none that was ever saved is stored, since somebody else wrote it or it is spoilt, and never Incarnations.
    fn load(&mut self) -> Result<Vec<Record>, StoreFault>
        ensures loaded { IfOk result (λ loaded. (stored self.new).holds (record_at (entries_of loaded.items))) }
        ensures kept { OnOk result (Stays (stored self.old) (stored self.new)) }
        ensures memory { IsErrOf result Memory → Stays (stored self.old) (stored self.new) }
        ensures stop { Leaves (stored self.old) (stored self.new) }
        ensures goes_on { GoesOn (stored self.old) (stored self.new) }
        ensures device { IsErrOf result Device → HasFailed (stored self.old) (stored self.new) }
        ensures damaged { IsErrOf result Damaged → (records : Records) → (stored self.old).holds records → 1 ≤ (stored self.new).doubt }
        ensures incarnations { IsErrOf result Incarnations → ⊥ };

    /// Stores the new record of a slot in the place of the old one. At `Ok` it is stored; at `Memory` nothing changed; at `Device`
    /// it is stored or nothing changed. It answers no other fault.
    fn save(&mut self, change: &Change) -> Result<(), StoreFault>
        ensures ok { OnOk result (Saves change.now (stored self.old) (stored self.new)) }
        ensures kept { OnOk result (KeepsStarted (stored self.old) (stored self.new)) }
        ensures memory { IsErrOf result Memory → Stays (stored self.old) (stored self.new) }
        ensures stop { LeavesSaved change.now (stored self.old) (stored self.new) }
        ensures goes_on { GoesOn (stored self.old) (stored self.new) }
        ensures device { IsErrOf result Device → HasFailed (stored self.old) (stored self.new) }
        ensures faults { IfErr result (λ fault. (fault ≡ Device) ⊎ (fault ≡ Memory)) };

    /// Stores the number of the next incarnation, and then answers it. `Incarnations` only if 9,999 were used; then, and at
    /// `Memory`, nothing changed. At any other fault it is stored or nothing changed. It answers Damaged only if none that was ever stored is.
    fn next_incarnation(&mut self) -> Result<Incarnation, StoreFault>
        ensures next { IfOk result (λ next. (started : ℕ) → (stored self.new).doubt ≡ 0 → (stored self.old).has_started started → next ≡ started + 1) }
        ensures raised { IfOk result (λ next. (stored self.new).has_started next) }
        ensures records { OnOk result (KeepsRecords (stored self.old) (stored self.new)) }
        ensures incarnations { IsErrOf result Incarnations → (started : ℕ) → (stored self.new).doubt ≡ 0 → (stored self.old).has_started started → 9999 ≤ started }
        ensures kept { IsErrOf result Incarnations → Stays (stored self.old) (stored self.new) }
        ensures memory { IsErrOf result Memory → Stays (stored self.old) (stored self.new) }
        ensures stop { LeavesNext (stored self.old) (stored self.new) }
        ensures goes_on { GoesOn (stored self.old) (stored self.new) }
        ensures device { IsErrOf result Device → HasFailed (stored self.old) (stored self.new) }
        ensures damaged { IsErrOf result Damaged → (started : ℕ) → (stored self.old).has_started started → 1 ≤ (stored self.new).doubt };

    /// How often the device failed: 2^64 - 1 if it failed more often.
    fn failures(&self) -> u64
        ensures { result ≡ (stored self.now).failed };

    /// What is stored may be found after a stop.
    ghost found: { (s : Self) (records : Records) → (stored s).doubt ≡ 0 → (stored s).holds records → (stored s).may_hold records };

    ghost found_started: { (s : Self) (started : ℕ) → (stored s).doubt ≡ 0 → (stored s).has_started started → (stored s).may_have_started started };

    /// While it answers, nothing else may.
    ghost settled: { (s : Self) (records left : Records) → (stored s).holds records → (stored s).may_hold left → AreSame left records };

    ghost settled_started: { (s : Self) (started left : ℕ) → (stored s).has_started started → (stored s).may_have_started left → left ≡ started };
}
