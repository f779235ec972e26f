//! A node, and the save in which it stopped.

ghost use Rattle.std.specs.Prelude.{◌≡◌, ◌≢◌, ◌⊎◌, ◌↔◌, ◌<◌, ◌++◌, [], List, None, Some, IfErr, IfOk, IfSome, IsErrOf, IsSome, OnErr, OnOk, false, true, length, map, option_map};
ghost use Rattle.std.specs.Option.{option_copied};
ghost use Rattle.synod_acceptor.specs.Packets.{packet_of};
ghost use Rattle.node_laws.specs.Steps.{IsWellMade};
ghost use Rattle.node_core.specs.Nodes.{IsLifeOf};
ghost use Rattle.node_core.specs.Permits.{IsAnswered, IsGrant, is_life_of};
ghost use Rattle.std.specs.Arc.{arc_value};
ghost use Rattle.node_model.specs.Stepped.{stepped};
ghost use Rattle.node_core.specs.Keeping.{kept_of};
ghost use Rattle.node_core.specs.Steps.{input_of, outputs_of};
ghost use Rattle.journal_parts.specs.Entries.{number_by, save_of};
ghost use Rattle.journal_parts.specs.declared.done.Done.{Done as Taken};
ghost use Rattle.journal_parts.specs.Faults.{fault_at};
ghost use Rattle.journal_parts.specs.Gathering.{AllDeliver, AreGathered, IsHaltedAt, TakesSeveral};
ghost use Rattle.journal_parts.specs.Members.{CanBeTaken, ComesWith, Reopens, Rests, Strays, Takes, TakesQuietly, halt_of, packet_halted, posted, save_by};
ghost use Rattle.journal_parts.specs.Refusals.{IsRefusedAs};
ghost use Rattle.journal_parts.specs.declared.refusal.Refusal.TheVariants.{Broken, Damaged, Device, Memory, Spent};
ghost use Rattle.stable_store.specs.Stored.{HasFailed};

use crate::coming::input_by;
use crate::copies::EntryCopies;
use crate::done::Done;
use crate::entry::{Entry, Unfinished};
use crate::ready::Ready;
use crate::refusal::Refusal;
use node_core::{Life, Node, Pending, Permit, StepFault, StepGroup, Stopped};
use node_entry::Step;
use node_runs::{is_well_made, may_come};
use stable_store::{GroupStore, StableStore};
use std::alloc::AllocError;
use std::sync::Arc;
use synod_acceptor::Packet;

/// The step in the save of which a node stopped, and the number of the packet that came by it.
#[derive(Drop)]
pub(crate) struct Halted {
    pub(crate) number: u64,
    pub(crate) done: Arc<Done>,
}

/// A node, and the step in the save of which it stopped, if it has not started anew since. It is astray once it was opened over a store in an incarnation that
/// was used: it takes no step any more.
#[derive(Drop)]
pub struct Post<S: StableStore> {
    pub(crate) node: Node<S>,
    pub(crate) halted: Option<Halted>,
    pub(crate) astray: bool,
}

impl<S: StableStore> Post<S> {
    /// Prepares a step, with the packet that comes by it, if one does. It changes nothing. Broken exactly if a save failed before; then Grant and NotGranted
    /// exactly as `Node::prepare_step` says; else an `Err` is want of memory.
    pub(crate) fn prepare(&self, step: Step, packet: Option<Packet>) -> Result<Ready, Refusal>
        requires { CanBeTaken step packet }
        ensures allowed { OnOk result (fault_at self.now.node step ≡ None) }
        ensures broken { IsErrOf result Broken ↔ (self.now.node.broken ≡ true) }
        ensures faults { IfErr result (IsRefusedAs (fault_at self.now.node step)) }
        ensures was { IfOk result (λ ready. ready.was ≡ self.now.node.kept) }
        ensures step { IfOk result (λ ready. ready.done.step ≡ step) }
        ensures packet { IfOk result (λ ready. ready.done.packet ≡ packet) }
        ensures comes { IfOk result (λ ready. ComesWith step packet ready.input) }
    {
        if self.node.is_broken() {
            return Err(Refusal::Broken);
        }
        let input = input_by(&step, &packet)?;
        may_come(&self.node, &input);
        let pending = self.node.prepare_step(input)?;
        let done = shared(step, packet, &pending)?;
        Ok(Ready {
            copies: EntryCopies::of(&Entry::of(Arc::try_clone(&done)?))?,
            pending,
            done,
        })
    }

    /// Commits what was prepared, if the node is as it was then, and gives the step back. It takes no memory but what the store takes. Broken exactly if a save
    /// failed before; Device, at the step of a packet alone, only if the device failed: then the node is Broken, and the post has the step; else an `Err` is
    /// Memory, from the store.
    pub(crate) fn commit(&mut self, pending: Pending, done: Arc<Done>) -> Result<Arc<Done>, Refusal>
        requires was { pending.was ≡ self.old.node.kept }
        requires comes { ComesWith (arc_value done).step (arc_value done).packet pending.input }
        ensures step { IfOk result (λ given. arc_value given ≡ arc_value done) }
        ensures taken { OnOk result (Takes S.stored (posted self.old) pending.input (posted self.new)) }
        ensures err { OnErr result (Rests S.stored (posted self.old) (posted self.new)) }
        ensures broken { IsErrOf result Broken ↔ (self.old.node.broken ≡ true) }
        ensures device { IsErrOf result Device → (self.new.node.broken ≡ true) × IsSome (number_by (arc_value done).step) }
        ensures rose { IsErrOf result Device → HasFailed (S.stored self.old.node.store) (S.stored self.new.node.store) }
        ensures wants { IsErrOf result Memory → IsSome (number_by (arc_value done).step) }
        ensures faults { IfErr result (λ refusal. (refusal ≡ Broken) ⊎ (refusal ≡ Device) ⊎ (refusal ≡ Memory)) }
    {
        match self.node.commit(pending) {
            Ok(outputs) => {
                drop(outputs);
                Ok(done)
            }
            Err(StepFault::Device) => {
                self.halted = Some(halted_by(done));
                Err(Refusal::Device)
            }
            Err(fault) => Err(Refusal::from(fault)),
        }
    }

    /// Takes a step, if it is that of a packet and the node takes it quietly. False leaves the node as it was, and says nothing of the packet: `prepare` takes
    /// any. It takes no memory.
    pub(crate) fn take_quietly(&mut self, done: &Done) -> bool
        requires { CanBeTaken done.now.step done.now.packet }
        ensures taken { result ≡ true → TakesQuietly S.stored (posted self.old) done.now (posted self.new) }
        ensures stays { result ≡ false → self.new ≡ self.old }
    {
        let Some(packet) = &done.packet else {
            return false;
        };
        is_well_made(packet);
        self.node.take_quietly(packet)
    }

    /// Commits a grant that was prepared, if the node is as it was then and is not Broken, in a life of this node and incarnation, and gives the permit of its
    /// attempt. It takes no memory.
    pub(crate) fn commit_grant<'l>(&mut self, life: &'l Life, pending: Pending) -> Permit<'l>
        requires was { pending.was ≡ self.old.node.kept }
        requires works { self.old.node.broken ≡ false }
        requires grant { IsGrant pending.input }
        requires life { is_life_of self.old.node life.now ≡ true }
        ensures taken { Takes S.stored (posted self.old) pending.input (posted self.new) }
        ensures slot { (stepped pending.was.setup (kept_of pending.was) (input_of pending.was.setup (kept_of pending.was) pending.input)).outputs.granted
            ≡ Some result.slot }
        ensures life { result.life ≡ life.now }
    {
        let (permit, outputs) = self.node.commit_grant(life, pending);
        drop(outputs);
        permit
    }

    /// Commits what came of the attempt of a permit, if the node is as it was when that was prepared and is not Broken, and the permit is of this node and
    /// incarnation. It spends the permit and takes no memory.
    pub(crate) fn commit_answered<'l>(&mut self, permit: Permit<'l>, pending: Pending)
        requires was { pending.was ≡ self.old.node.kept }
        requires works { self.old.node.broken ≡ false }
        requires answered { IsAnswered permit.slot pending.input }
        requires life { is_life_of self.old.node permit.life ≡ true }
        ensures { Takes S.stored (posted self.old) pending.input (posted self.new) }
    {
        drop(self.node.commit_answered(permit, pending));
    }

    /// Opens the node again, if the life is its own and it is not astray: it keeps the records of its store and nothing else, in a later incarnation than its
    /// last one. It gives the new life, and the save that the node had not finished, if one failed. Device, Damaged, Spent and Memory are all that it answers,
    /// Device only if the device failed. Device and Damaged leave it Broken, Spent and Memory as it was; but it is astray, and the answer Damaged, if its store
    /// gave an incarnation that was used. Each hands back the life of the node, which is the one that was handed in, unless it is astray.
    pub(crate) fn reopen(
        &mut self,
        life: Life,
    ) -> Result<(Life, Option<Unfinished>), (Refusal, Life)>
        requires life { IsLifeOf self.old.node life }
        requires sound { self.old.astray ≡ false }
        requires halts { self.old.node.unfinished ≡ packet_halted (posted self.old).halted }
        ensures ok { IfOk result (λ opened. Reopens S.stored (posted self.old) (option_map save_of opened.1) (posted self.new)) }
        ensures err { OnErr result (Rests S.stored (posted self.old) (posted self.new) ⊎ Strays S.stored (posted self.old) (posted self.new)) }
        ensures own { IfOk result (λ opened. IsLifeOf self.new.node opened.0) }
        ensures later { IfOk result (λ opened. life.incarnation < opened.0.incarnation) }
        ensures faults { IfErr result (λ failed. (failed.0 ≡ Device) ⊎ (failed.0 ≡ Damaged) ⊎ (failed.0 ≡ Spent) ⊎ (failed.0 ≡ Memory)) }
        ensures rose { IfErr result (λ failed. failed.0 ≡ Device → HasFailed (S.stored self.old.node.store) (S.stored self.new.node.store)) }
        ensures astray { IfErr result (λ failed. self.new.astray ≡ true → failed.0 ≡ Damaged) }
        ensures life { IfErr result (λ failed. self.new.astray ≡ false → failed.1 ≡ life) }
        ensures left { IfErr result (λ failed. IsLifeOf self.new.node failed.1) }
    {
        let last = life.incarnation().number();
        self.node.lists();
        self.halted_well_made();
        let life = match self.node.reopen(life) {
            Ok(life) => life,
            Err((fault, life)) => return Err((Refusal::from(fault), life)),
        };
        self.node.bounds();
        let halted = self.halted.take();
        if life.incarnation().number() <= last {
            self.astray = true;
            return Err((Refusal::Damaged, life));
        }
        Ok((life, unfinished_by(halted, self.node.stopped())))
    }

    /// What a proof takes of the packet in the save of whose step it stopped. The call does nothing.
    fn halted_well_made(&self)
        ensures { IfSome (packet_halted (posted self.now).halted) (λ packet. IsWellMade (packet_of packet)) }
    {
        if let Some(halted) = &self.halted {
            if let Some(packet) = &halted.done.packet {
                is_well_made(packet);
            }
        }
    }

    /// The packet in the save of whose step it stopped, once more. An `Err` is want of memory.
    pub(crate) fn halted_packet(&self) -> Result<Option<Packet>, AllocError>
        ensures { IfOk result (λ packet. packet ≡ packet_halted (posted self.now).halted) }
    {
        match &self.halted {
            Some(halted) => halted.done.packet_again(),
            None => Ok(None),
        }
    }
}

impl<S: GroupStore> Post<S> {
    /// Does what was prepared of a group, whose steps these are, if the node is as it was then and is not astray: those that were taken, the first of them first,
    /// and why there are no more, if there are not all. It takes no memory but what the store takes. Broken exactly if a save failed before; at Memory, from the
    /// store, none is taken. At Device, which comes only if the device failed, the node is Broken, and what is found of the group decides: if nothing, none is
    /// taken, and the post has the first step; if all, all are but the last, which the post has. If that can't be found out the node is astray.
    pub(crate) fn commit_all(
        &mut self,
        group: StepGroup,
        dones: Vec<Arc<Done>>,
    ) -> (Vec<Arc<Done>>, Option<Refusal>)
        requires was { group.was ≡ self.old.node.kept }
        requires gathered { AreGathered group.was group.packets (map arc_value dones.items) }
        ensures takes { TakesSeveral S.stored (posted self.old) (map arc_value result.0.items) (posted self.new) }
        ensures front { (left : List Taken) × (map arc_value dones.items ≡ map arc_value result.0.items ++ left) }
        ensures all { result.1 ≡ None → result.0.items ≡ dones.items }
        ensures sound { result.1 ≡ None → self.new.astray ≡ self.old.astray }
        ensures faults { IfSome result.1 (λ refusal. (refusal ≡ Broken) ⊎ (refusal ≡ Device) ⊎ (refusal ≡ Memory)) }
    {
        match self.node.commit_all(group) {
            Ok(outputs) => {
                drop(outputs);
                (dones, None)
            }
            Err(StepFault::Device) => (self.found(dones), Some(Refusal::Device)),
            Err(fault) => {
                let mut none = dones;
                none.clear();
                (none, Some(Refusal::from(fault)))
            }
        }
    }

    /// Finds out what is stored of a group whose save failed, of which these are the steps: those that were taken. It takes no memory but what the store takes.
    fn found(&mut self, dones: Vec<Arc<Done>>) -> Vec<Arc<Done>>
        requires gathered { AreGathered self.old.node.kept self.old.node.waiting (map arc_value dones.items) }
        requires waits { self.old.node.waiting ≢ [] }
        ensures takes { TakesSeveral S.stored (posted self.old) (map arc_value result.items) (posted self.new) }
        ensures front { (left : List Taken) × (map arc_value dones.items ≡ map arc_value result.items ++ left) }
    {
        match self.node.settle() {
            Ok(outputs) => {
                let (taken, halted) = halted_at(dones, outputs.len());
                drop(outputs);
                self.halted = Some(halted);
                taken
            }
            Err(_) => {
                self.astray = true;
                let mut none = dones;
                none.clear();
                none
            }
        }
    }
}

/// The step at a place of these, in the save of which a node stopped, and those before it.
fn halted_at(dones: Vec<Arc<Done>>, place: usize) -> (Vec<Arc<Done>>, Halted)
    requires place { place < length dones.items }
    requires deliver { (node : _) × AllDeliver node (map arc_value dones.items) }
    ensures { IsHaltedAt (map arc_value dones.items) place (map arc_value result.0.items) (halt_of result.1).1 }
{
    let mut taken = dones;
    taken.truncate(place + 1);
    let Some(done) = taken.pop() else {
        unreachable!();
    };
    (taken, halted_by(done))
}

/// The save that a node had not finished, as it tells once it was opened again.
fn unfinished_by(halted: Option<Halted>, stopped: Option<&Stopped>) -> Option<Unfinished>
    ensures { option_map save_of result ≡ save_by (option_map halt_of halted) (option_copied stopped.entry) }
{
    let number = halted?.number;
    let found = stopped?.found;
    Some(Unfinished { number, found })
}

/// The step in the save of which a node stopped, which is that of a packet.
fn halted_by(done: Arc<Done>) -> Halted
    requires { IsSome (number_by (arc_value done).step) }
    ensures { (halt_of result).1 ≡ (arc_value done).packet }
{
    let (Step::Deliver { number, .. } | Step::Crash { number, .. }) = done.step else {
        unreachable!();
    };
    Halted { number, done }
}

/// A step with what it will give out, for several owners.
fn shared(step: Step, packet: Option<Packet>, pending: &Pending) -> Result<Arc<Done>, AllocError>
    ensures step { IfOk result (λ done. (arc_value done).step ≡ step) }
    ensures packet { IfOk result (λ done. (arc_value done).packet ≡ packet) }
    ensures outputs { IfOk result (λ done. outputs_of (arc_value done).outputs ≡ (stepped pending.now.was.setup (kept_of pending.now.was)
        (input_of pending.now.was.setup (kept_of pending.now.was) pending.now.input)).outputs) }
{
    let outputs = pending.outputs().copy()?;
    Ok(Arc::new(
        *outputs.packets.allocator(),
        Done {
            step,
            packet,
            outputs,
        },
    )?)
}
