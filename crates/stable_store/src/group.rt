//! What a store promises of a group of changes.

ghost use Rattle.std.specs.Prelude.{◌≡◌, ◌⊎◌, [], IfErr, IsErrOf, Ok, OnOk};
ghost use Rattle.stable_store.specs.Stored.{GoesOn, HasFailed, KeepsStarted, LeavesSavedAll, SavesAll, Stays};
ghost use Rattle.stable_store.specs.declared.fault.StoreFault.TheVariants.{Device, Memory};

use crate::fault::StoreFault;
use crate::store::StableStore;
use synod_acceptor::Change;

/// A store that saves changes in groups: all of a group, or none of it.
pub trait GroupStore: StableStore {
    /// Stores the new records of the changes in their order, each in the place of the old one of its slot: of several of a slot the last counts. At `Ok` all are
    /// stored; at `Memory` nothing changed; at `Device` all are stored or nothing changed. It answers no other fault. A group of no changes touches nothing, and
    /// is `Ok`.
    fn save_all(&mut self, changes: &[Change]) -> Result<(), StoreFault>
        ensures none { changes.now ≡ [] → (result ≡ Ok tt) × (self.new ≡ self.old) }
        ensures ok { OnOk result (SavesAll changes.now (Self.stored self.old) (Self.stored self.new)) }
        ensures kept { OnOk result (KeepsStarted (Self.stored self.old) (Self.stored self.new)) }
        ensures memory { IsErrOf result Memory → Stays (Self.stored self.old) (Self.stored self.new) }
        ensures stop { LeavesSavedAll changes.now (Self.stored self.old) (Self.stored self.new) }
        ensures goes_on { GoesOn (Self.stored self.old) (Self.stored self.new) }
        ensures device { IsErrOf result Device → HasFailed (Self.stored self.old) (Self.stored self.new) }
        ensures faults { IfErr result (λ fault. (fault ≡ Device) ⊎ (fault ≡ Memory)) };
}
