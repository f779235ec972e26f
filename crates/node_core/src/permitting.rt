//! Attempts that a node grants by a permit, and what came of them.

ghost use Rattle.std.specs.Prelude.{◌≡◌, ◌↔◌, false, true, None, Some, IfErr, IfOk, IsErrOf, IsSome, OnErr, OnOk};
ghost use Rattle.delivery.specs.declared.outcome.Outcome.{Outcome as OutcomeValue};
ghost use Rattle.node_kept.specs.StepFault.TheVariants.{Memory, StrangeLife};
ghost use Rattle.node_kept.specs.Input.TheVariants as given;
ghost use Rattle.node_model.specs.Granted.{known_slot};
ghost use Rattle.node_kept.specs.Keeping.{kept_of};
ghost use Rattle.node_kept.specs.Steps.{IsFault, outputs_of};
ghost use Rattle.node_core.specs.Nodes.{HasTaken, IsAwaited, fault_in};
ghost use Rattle.node_core.specs.Permits.{HasTakenUnder, IsAnswered, IsGrant, IsHandedBack, fault_under, is_life_of, strange_or};

use crate::life::Life;
use crate::node::Node;
use crate::pending::Pending;
use crate::permit::Permit;
use delivery::Outcome;
use mc_types::{MsgId, Slot};
use node_kept::{Input, Outputs, StepFault};
use stable_store::StableStore;

impl<S: StableStore> Node<S> {
    /// Grants the attempt in which the known chain of a message ends, in this life: the outputs have the chain, and the permit its slot.
    /// It saves nothing. Of several faults the one with the lowest number comes: Broken if a save failed before; Grant, with the first
    /// reason that fits, if the attempt is not granted; StrangeLife if the life is of another node or another incarnation. Else Memory,
    /// if there was none for it. A fault leaves the node as it was.
    pub fn grant<'l>(
        &mut self,
        life: &'l Life,
        id: MsgId,
    ) -> Result<(Permit<'l>, Outputs), StepFault>
        ensures taken { IfOk result (λ granted. HasTakenUnder self.old life.now (given.Grant id) self.new granted.1) }
        ensures slot { IfOk result (λ granted. granted.0.slot ≡ known_slot (kept_of self.old.kept) id) }
        ensures life { IfOk result (λ granted. granted.0.life ≡ life.now) }
        ensures faults { IfErr result (IsFault (fault_under self.old life.now (given.Grant id))) }
        ensures stays { OnErr result (self.new ≡ self.old) }
        ensures store { self.new.store ≡ self.old.store }
    {
        let pending = self.prepare_under(life, Input::Grant(id))?;
        Ok(self.commit_grant(life, pending))
    }

    /// Commits a grant that was prepared, if the node is as it was then and is not Broken, in a life of this node and incarnation: the second half of
    /// `grant`. It saves nothing and takes no memory.
    pub fn commit_grant<'l>(&mut self, life: &'l Life, pending: Pending) -> (Permit<'l>, Outputs)
        requires was { pending.was ≡ self.old.kept }
        requires works { self.old.broken ≡ false }
        requires grant { IsGrant pending.input }
        requires life { is_life_of self.old life.now ≡ true }
        ensures taken { HasTaken self.old pending.input self.new result.1 }
        ensures slot { (outputs_of result.1).granted ≡ Some result.0.slot }
        ensures life { result.0.life ≡ life.now }
        ensures store { self.new.store ≡ self.old.store }
    {
        let outputs = self.commit_unsaved(pending);
        let slot = granted_in(&outputs);
        (Permit::of(life, slot), outputs)
    }

    /// Closes the attempt of a permit with what came of it, which spends the permit. It saves nothing. Of several faults the one with the
    /// lowest number comes: Broken if a save failed before; NotGranted if the attempt was not granted in this incarnation, or is closed;
    /// StrangeLife if the permit is of another node or another incarnation. These spend the permit too, so that the attempt stays as it is
    /// until the node opens again. Else Memory, if there was none for it, which alone hands the permit back. A fault leaves the node as it was.
    pub fn answered<'l>(
        &mut self,
        permit: Permit<'l>,
        outcome: Outcome,
    ) -> Result<Outputs, (StepFault, Option<Permit<'l>>)>
        ensures taken { IfOk result (HasTakenUnder self.old permit.entry.life (given.Answered permit.entry.slot outcome) self.new) }
        ensures faults { IfErr result (λ failed. IsFault (fault_under self.old permit.entry.life (given.Answered permit.entry.slot outcome)) failed.0) }
        ensures permit { IfErr result (λ failed. IsHandedBack permit.entry failed.0 failed.1) }
        ensures stays { OnErr result (self.new ≡ self.old) }
        ensures store { self.new.store ≡ self.old.store }
    {
        match self.prepare_under(permit.life(), Input::Answered(permit.slot(), outcome)) {
            Ok(pending) => Ok(self.commit_answered(permit, pending)),
            Err(StepFault::Memory) => Err((StepFault::Memory, Some(permit))),
            Err(fault) => {
                permit.abandon();
                Err((fault, None))
            }
        }
    }

    /// Commits what came of the attempt of a permit, if the node is as it was when that was prepared and is not Broken, and the permit is of
    /// this node and incarnation: the second half of `answered`. It spends the permit, saves nothing and takes no memory.
    pub fn commit_answered<'l>(&mut self, permit: Permit<'l>, pending: Pending) -> Outputs
        requires was { pending.was ≡ self.old.kept }
        requires works { self.old.broken ≡ false }
        requires answered { IsAnswered permit.slot pending.input }
        requires life { is_life_of self.old permit.life ≡ true }
        ensures taken { HasTaken self.old pending.input self.new result }
        ensures store { self.new.store ≡ self.old.store }
    {
        permit.abandon();
        self.commit_unsaved(pending)
    }

    /// Prepares a step that stands on a life. It changes nothing. StrangeLife comes after the faults of `prepare_step`, and before Memory.
    fn prepare_under(&self, life: &Life, input: Input) -> Result<Pending, StepFault>
        ensures awaited { IfOk result (IsAwaited self.now input) }
        ensures allowed { OnOk result (fault_under self.now life.now input ≡ None) }
        ensures faults { IfErr result (IsFault (fault_under self.now life.now input)) }
    {
        let prepared = self.prepare_step(input);
        if self.is_life(life) {
            return prepared;
        }
        Err(strange(prepared))
    }
}

/// Why a step is not taken that stands on another life of the node, of which this was prepared: that goes.
fn strange(prepared: Result<Pending, StepFault>) -> StepFault
    ensures ok { IfOk prepared (λ pending. result ≡ StrangeLife) }
    ensures err { IfErr prepared (λ fault. result ≡ strange_or fault) }
{
    match prepared {
        Ok(pending) => {
            drop(pending);
            StepFault::StrangeLife
        }
        Err(StepFault::Memory) => StepFault::StrangeLife,
        Err(fault) => fault,
    }
}

/// The slot of the attempt that is granted by what a grant gives out.
fn granted_in(outputs: &Outputs) -> Slot
    requires { IsSome (outputs_of outputs.now).granted }
    ensures { (outputs_of outputs.now).granted ≡ Some result }
{
    let Some(chain) = &outputs.granted else {
        unreachable!();
    };
    Slot {
        id: chain.id(),
        place: chain.place(),
    }
}
