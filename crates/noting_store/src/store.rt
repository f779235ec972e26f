//! What a store promises of notes.

ghost use Rattle.std.specs.Prelude.{◌≡◌, ◌⊎◌, ◌≤◌, [], IfErr, IfOk, IsErrOf, Ok, OnOk};
ghost use Rattle.mc_model.specs.synod.Lists.{In};
ghost use Rattle.stable_store.specs.Stored.{GoesOn, HasFailed, Leaves, Stays};
ghost use Rattle.stable_store.specs.declared.fault.StoreFault.TheVariants.{Damaged, Device, Incarnations, Memory};
ghost use Rattle.noting_store.specs.Noted.{AreApart, AreOf, Noted, noted_in};

use crate::note::Note;
use stable_store::{StableStore, StoreFault};

/// A store that keeps notes beside records. To lose one does no harm: it costs a round. So no call promises that a note is found, but each promises that none is
/// which nobody stored.
pub trait NotingStore: StableStore {
    /// The notes that whoever opens the store may find, after a stop too.
    ghost may_know: { Self → Noted → Type 0 };

    /// Stores these notes, each in the place of that of its message, if there is one. At a fault some of them may be stored, and others lost. Records and
    /// incarnation stay: at `Device` for whoever opens the store again. It answers no other fault than that and Memory. Of no notes it touches nothing, and is `Ok`.
    fn note(&mut self, notes: &[Note]) -> Result<(), StoreFault>
        ensures none { notes.now ≡ [] → (result ≡ Ok tt) × (self.new ≡ self.old) }
        ensures ok { OnOk result (Stays (Self.stored self.old) (Self.stored self.new)) }
        ensures memory { IsErrOf result Memory → Stays (Self.stored self.old) (Self.stored self.new) }
        ensures stop { Leaves (Self.stored self.old) (Self.stored self.new) }
        ensures goes_on { GoesOn (Self.stored self.old) (Self.stored self.new) }
        ensures device { IsErrOf result Device → HasFailed (Self.stored self.old) (Self.stored self.new) }
        ensures faults { IfErr result (λ fault. (fault ≡ Device) ⊎ (fault ≡ Memory)) }
        ensures noted { (n : Noted) → may_know self.new n → may_know self.old n ⊎ In n (noted_in notes.now) };

    /// Notes that are stored, of each message one at most, all of a cluster of so many nodes. It changes nothing that is stored. It answers Damaged if something is
    /// stored as a note that is none, or none of such a cluster; and never Incarnations.
    fn load_noted(&mut self, nodes: u8) -> Result<Vec<Note>, StoreFault>
        ensures found { (Self.stored self.new).doubt ≡ 0 → IfOk result (λ notes. (n : Noted) → In n (noted_in notes.items) → may_know self.old n) }
        ensures nodes { IfOk result (λ notes. AreOf nodes notes.items) }
        ensures apart { IfOk result (λ notes. AreApart (noted_in notes.items)) }
        ensures ok { OnOk result (Stays (Self.stored self.old) (Self.stored self.new)) }
        ensures memory { IsErrOf result Memory → Stays (Self.stored self.old) (Self.stored self.new) }
        ensures damaged { IsErrOf result Damaged → Stays (Self.stored self.old) (Self.stored self.new) }
        ensures stop { Leaves (Self.stored self.old) (Self.stored self.new) }
        ensures goes_on { GoesOn (Self.stored self.old) (Self.stored self.new) }
        ensures device { IsErrOf result Device → HasFailed (Self.stored self.old) (Self.stored self.new) }
        ensures incarnations { IsErrOf result Incarnations → ⊥ }
        ensures noted { (n : Noted) → may_know self.new n → may_know self.old n };
}
