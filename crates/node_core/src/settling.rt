//! What is found of a group whose save failed.

ghost use Rattle.std.specs.Prelude.{◌≡◌, ◌≢◌, ◌≤◌, [], IfOk, IsErrOf, MatchResult, OnErr, OnOk};
ghost use Rattle.mc_model.specs.synod.Acceptor.{Records};
ghost use Rattle.stable_store.specs.Stored.{GoesOn, HasFailed, Leaves, Stays};
ghost use Rattle.stable_store.specs.declared.fault.StoreFault.TheVariants.{Damaged, Device, Incarnations, Memory};
ghost use Rattle.node_core.specs.Nodes.{HasSettled, IsSameNode};

use crate::node::Node;
use node_kept::Outputs;
use stable_store::{StableStore, StoreFault};

impl<S: StableStore> Node<S> {
    /// Settles a group that waits, by what its store has: if nothing of it is stored, its first packet is unfinished then, as if the save of its step alone
    /// had failed; if all of it is, the steps of all packets but the last are taken, which give out what is answered, and the last is unfinished. The node
    /// stays Broken till it is opened again. If no group waits nothing happens. An `Err` is the store's, and leaves the group waiting.
    pub fn settle(&mut self) -> Result<Vec<Outputs>, StoreFault>
        ensures settled { IfOk result (λ outputs. self.old.waiting ≢ [] → HasSettled self.old outputs.items self.new) }
        ensures same { IsSameNode self.old self.new }
        ensures idle { self.old.waiting ≡ [] → self.new ≡ self.old }
        ensures none { self.old.waiting ≡ [] → MatchResult result (λ outputs. outputs.items ≡ []) (λ fault. ⊥) }
        ensures waits { OnErr result (self.new ≡ record self.old { store = self.new.store }) }
        ensures stays { OnOk result (Stays (S.stored self.old.store) (S.stored self.new.store)) }
        ensures memory { IsErrOf result Memory → Stays (S.stored self.old.store) (S.stored self.new.store) }
        ensures left { Leaves (S.stored self.old.store) (S.stored self.new.store) }
        ensures goes_on { GoesOn (S.stored self.old.store) (S.stored self.new.store) }
        ensures device { IsErrOf result Device → HasFailed (S.stored self.old.store) (S.stored self.new.store) }
        ensures damaged { IsErrOf result Damaged → (records : Records) → (S.stored self.old.store).holds records → 1 ≤ (S.stored self.new.store).doubt }
        ensures incarnations { IsErrOf result Incarnations → ⊥ }
    {
        let alloc = self.kept.alloc();
        let Some(group) = self.waiting.take() else {
            return Ok(Vec::new(alloc));
        };
        group.saves();
        match self.store.load() {
            Ok(records) => {
                if !group.is_saved_in(&records) {
                    self.unfinished = Some(group.into_first());
                    return Ok(Vec::new(alloc));
                }
                let (firsts, last) = group.split_last();
                self.unfinished = Some(last);
                Ok(self.kept.install_all(firsts))
            }
            Err(fault) => {
                self.waiting = Some(group);
                Err(fault)
            }
        }
    }
}
