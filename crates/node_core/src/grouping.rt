//! Several packets whose steps are prepared and saved together.

ghost use Rattle.std.specs.Prelude.{◌≡◌, ◌≢◌, ◌↔◌, ◌⊎◌, [], None, false, true, IfErr, IfOk, IsErrOf, OnErr, OnOk};
ghost use Rattle.node_kept.specs.Grouping.{HasJoined, IsJoinFault, join_fault, left_by};
ghost use Rattle.node_kept.specs.StepFault.TheVariants.{Broken, Device, Memory};
ghost use Rattle.stable_store.specs.Stored.{GoesOn, HasFailed, KeepsStarted};
ghost use Rattle.node_core.specs.Nodes.{AreGiven, HasStoppedAll, HasTakenAll, IsSameNode, IsUnmoved, records_in, seen};

use crate::node::Node;
use node_kept::{JoinFault, Outputs, StepFault, StepGroup};
use stable_store::{GroupStore, StableStore, StoreFault};
use synod_acceptor::Packet;

impl<S: StableStore> Node<S> {
    /// Begins a group of no packets over what the node keeps. It changes nothing. Broken exactly if a save failed before; else an `Err` is want of memory: it
    /// takes what as many packets need as a group may have, but for their steps.
    pub fn begin_group(&self) -> Result<StepGroup, StepFault>
        ensures was { IfOk result (λ group. group.was ≡ self.now.kept) }
        ensures packets { IfOk result (λ group. group.packets ≡ []) }
        ensures changes { IfOk result (λ group. group.changes ≡ []) }
        ensures broken { IsErrOf result Broken ↔ (self.now.broken ≡ true) }
        ensures faults { IfErr result (λ fault. (fault ≡ Broken) ⊎ (fault ≡ Memory)) }
    {
        self.judge()?;
        Ok(self.kept.begin_group()?)
    }

    /// Prepares the step of a packet and puts it behind the others of a group that was begun over what the node keeps. The node stays as it is. An `Err` hands
    /// the packet back, with the first reason that fits, or Memory if none is known, and leaves the group as it was. A packet whose step changes nothing does
    /// not join: Idle.
    pub fn join(&self, group: &mut StepGroup, packet: Packet) -> Result<(), (JoinFault, Packet)>
        requires { group.old.was ≡ self.now.kept }
        ensures joined { OnOk result (HasJoined group.old packet group.new) }
        ensures allowed { OnOk result (join_fault group.old packet ≡ None) }
        ensures changes { OnOk result (left_by self.now.kept packet ≢ records_in self.now.kept) }
        ensures faults { IfErr result (λ failed. IsJoinFault self.now.kept packet (join_fault group.old packet) failed.0) }
        ensures back { IfErr result (λ failed. failed.1 ≡ packet) }
        ensures stays { OnErr result (group.new ≡ group.old) }
    {
        self.kept.join(group, packet)
    }
}

impl<S: GroupStore> Node<S> {
    /// Does what was prepared of a group, if the node is as it was then: it saves all that its packets change by one save, and then takes their steps in their
    /// order; what each gives out stands in the place of its packet. It takes no memory but what its store takes. Broken exactly if a save failed before; it
    /// changes nothing, and nor does Memory, which is from the store. At Device, which comes only if the device failed, all of the group is saved or nothing,
    /// and the node is Broken, and waits for `settle`.
    pub fn commit_all(&mut self, group: StepGroup) -> Result<Vec<Outputs>, StepFault>
        requires { group.was ≡ self.old.kept }
        ensures ok { IfOk result (λ outputs. HasTakenAll self.old group.packets outputs.items self.new) }
        ensures gives { IfOk result (λ outputs. AreGiven self.old.kept group.packets outputs.items) }
        ensures works { OnOk result (self.new.broken ≡ false) }
        ensures same { IsSameNode self.old self.new }
        ensures broken { IsErrOf result Broken ↔ (self.old.broken ≡ true) }
        ensures stays { IsErrOf result Broken → self.new ≡ self.old }
        ensures memory { IsErrOf result Memory → IsUnmoved (seen S.stored self.old) (seen S.stored self.new) }
        ensures device { IsErrOf result Device → HasStoppedAll (seen S.stored self.old) group.packets (seen S.stored self.new) }
        ensures faults { IfErr result (λ fault. (fault ≡ Broken) ⊎ (fault ≡ Device) ⊎ (fault ≡ Memory)) }
        ensures wants { IsErrOf result Memory → group.packets ≢ [] }
        ensures rose { IsErrOf result Device → HasFailed (S.stored self.old.store) (S.stored self.new.store) }
        ensures started { OnOk result (KeepsStarted (S.stored self.old.store) (S.stored self.new.store)) }
        ensures goes_on { GoesOn (S.stored self.old.store) (S.stored self.new.store) }
    {
        self.judge()?;
        group.saves();
        match self.store.save_all(group.changes()) {
            Ok(()) => Ok(self.kept.install_all(group)),
            Err(StoreFault::Memory) => Err(StepFault::Memory),
            Err(_) => {
                self.broken = true;
                self.waiting = Some(group);
                Err(StepFault::Device)
            }
        }
    }
}
