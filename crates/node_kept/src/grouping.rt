//! How packets join a group, and how their steps are taken once it is saved.

ghost use Rattle.std.specs.Prelude.{◌≡◌, ◌≢◌, ℕ, ◌≤◌, [], None, Some, IfErr, IfOk, IsSome, OnErr, OnOk, drop, length, map};
ghost use Rattle.mc_model.specs.node.Input.{Delivery};
ghost use Rattle.mc_model.specs.synod.Packet.{Slot};
ghost use Rattle.node_model.specs.Stepped.{stepped};
ghost use Rattle.synod_acceptor.specs.Packets.{packet_of};
ghost use Rattle.node_parts.specs.Lists.{listed};
ghost use Rattle.node_kept.specs.Grouping.{AreGrouped, HasInstalled, HasJoined, HasSteppedAll, IsAlone, IsGrouped, IsJoinFault, StartsWith};
ghost use Rattle.node_kept.specs.Grouping.{asked_in, changed_by_all, changes_in, join_fault, left_by, outputs_in, packets_in};
ghost use Rattle.node_kept.specs.Keeping.{AreOwn, kept_of, records_of};
ghost use Rattle.node_kept.specs.Steps.{outputs_of};

use crate::grouped_step::GroupedStep;
use crate::join_fault::JoinFault;
use crate::kept::Kept;
use crate::step::{Next, Step};
use crate::step_group::{MOST_GROUPED, StepGroup};
use mc_types::MsgId;
use node_parts::{Outputs, sender};
use std::alloc::AllocError;
use std::collections::VecDeque;
use std::snapshot::Snapshot;
use synod_acceptor::{Change, Packet};

impl Kept {
    /// A group of no packets over what is kept. It takes the memory for as many as a group may have, with room for the messages of which they may be the
    /// first.
    pub fn begin_group(&self) -> Result<StepGroup, AllocError>
        ensures was { IfOk result (λ group. group.was ≡ self.now) }
        ensures packets { IfOk result (λ group. group.packets ≡ []) }
        ensures changes { IfOk result (λ group. group.changes ≡ []) }
    {
        self.messages.ascends();
        Ok(StepGroup {
            was: Snapshot::of(self),
            steps: Vec::with_capacity(self.alloc, MOST_GROUPED)?,
            outputs: Vec::with_capacity(self.alloc, MOST_GROUPED)?,
            changes: Vec::with_capacity(self.alloc, MOST_GROUPED)?,
            room: self.messages.room(self.alloc, MOST_GROUPED)?,
        })
    }

    /// Prepares the step of a packet and puts it behind the others of a group that was begun over what is kept. It changes nothing else. An `Err` hands the
    /// packet back, with the first reason that fits, or Memory if none is known, and leaves the group as it was.
    pub fn join(&self, group: &mut StepGroup, packet: Packet) -> Result<(), (JoinFault, Packet)>
        requires was { group.old.was ≡ self.now }
        requires own { AreOwn self.now }
        ensures joined { OnOk result (HasJoined group.old packet group.new) }
        ensures allowed { OnOk result (join_fault group.old packet ≡ None) }
        ensures changes { OnOk result (left_by self.now packet ≢ records_of self.now.messages.entries) }
        ensures faults { IfErr result (λ failed. IsJoinFault self.now packet (join_fault group.old packet) failed.0) }
        ensures back { IfErr result (λ failed. failed.1 ≡ packet) }
        ensures stays { OnErr result (group.new ≡ group.old) }
    {
        let id = match self.judge_join(group, &packet) {
            Ok(id) => id,
            Err(fault) => return Err((fault, packet)),
        };
        self.messages.ascends();
        let Ok(step) = self.asked_step(&packet) else {
            return Err((JoinFault::Memory, packet));
        };
        if step.next.change.is_none() {
            return Err((JoinFault::Idle, packet));
        }
        group.put(packet, id, step);
        Ok(())
    }

    /// The message for which a packet asks, if it may join a group that was begun over what is kept. It takes no memory.
    fn judge_join(&self, group: &StepGroup, packet: &Packet) -> Result<MsgId, JoinFault>
        requires { group.now.was ≡ self.now }
        ensures asked { IfOk result (λ id. asked_in self.now.setup (packet_of packet.now) ≡ Some id) }
        ensures allowed { OnOk result (join_fault group.now packet.now ≡ None) }
        ensures faults { IfErr result (λ fault. join_fault group.now packet.now ≡ Some fault) }
    {
        let Some(id) = self.asked_in(packet) else {
            return Err(JoinFault::Alone);
        };
        if group.has(id) {
            return Err(JoinFault::SameMessage);
        }
        if group.len() >= MOST_GROUPED {
            return Err(JoinFault::Full);
        }
        Ok(id)
    }

    /// The message for which a packet asks that something is saved, if it does: a Prepare or a Propose of a node of the cluster. It takes no memory.
    fn asked_in(&self, packet: &Packet) -> Option<MsgId>
        ensures { result ≡ asked_in self.now.setup (packet_of packet.now) }
    {
        if !self.is_member(sender(packet)) {
            return None;
        }
        match packet {
            Packet::Prepare { slot, .. } => Some(slot.id),
            Packet::Propose { vote, .. } => Some(vote.chain.id()),
            _ => None,
        }
    }

    /// The step of a packet that asks for a message, whatever is kept of others.
    fn asked_step(&self, packet: &Packet) -> Result<Step, AllocError>
        requires own { AreOwn self.now }
        requires asks { IsSome (asked_in self.now.setup (packet_of packet.now)) }
        ensures { IfOk result (λ step. (id : ℕ) → asked_in self.now.setup (packet_of packet.now) ≡ Some id →
            IsAlone id self.now (λ setup kept. stepped setup kept (Delivery (packet_of packet.now))) step) }
    {
        match packet {
            Packet::Prepare { slot, ballot, .. } => self.on_prepare(*slot, *ballot),
            Packet::Propose { vote, .. } => self.on_propose(vote),
            _ => unreachable!(),
        }
    }

    /// Takes the steps of a group that is saved, in their order, each from what the one before left, if what is kept is as it was when they were prepared:
    /// what each gives out stands in the place of its packet. It takes no memory.
    pub fn install_all(&mut self, group: StepGroup) -> Vec<Outputs>
        requires was { group.was ≡ self.old }
        requires own { AreOwn self.old }
        ensures taken { HasSteppedAll self.old group.packets result.items self.new }
        ensures gives { map outputs_of result.items
            ≡ map (λ packet. (stepped group.was.setup (kept_of group.was) (Delivery (packet_of packet))).outputs) group.packets }
        ensures records { (slot : Slot) → records_of self.new.messages.entries slot ≡ changed_by_all group.changes (records_of self.old.messages.entries) slot }
        ensures own { AreOwn self.new }
    {
        let StepGroup {
            steps,
            outputs,
            changes,
            room,
            ..
        } = group;
        self.messages.make_room(room);
        self.messages.ascends();
        self.install_each(steps, changes);
        outputs
    }

    /// Takes steps that were prepared over what is kept, with their changes; there is room for them. It takes no memory.
    fn install_each(&mut self, steps: Vec<GroupedStep>, changes: Vec<Change>)
        requires steps { AreGrouped self.old steps.items }
        requires changes { changes.items ≡ changes_in steps.items }
        requires own { AreOwn self.old }
        requires room { length steps.items ≤ self.old.messages.room }
        requires listings { length steps.items ≤ self.old.messages.listings }
        ensures taken { HasSteppedAll self.old (packets_in steps.items) (outputs_in steps.items) self.new }
        ensures records { (slot : Slot) → records_of self.new.messages.entries slot ≡ changed_by_all changes.items (records_of self.old.messages.entries) slot }
        ensures own { AreOwn self.new }
    {
        let mut left = VecDeque::from_vec(steps);
        let mut waiting = VecDeque::from_vec(changes);
        while let Some(step) = left.pop_front() {
            self.install_one(step, &mut waiting);
        }
    }

    /// Takes a step that was prepared over what is kept, with its change, which is the first of those that wait. It takes no memory.
    fn install_one(&mut self, step: GroupedStep, changes: &mut VecDeque<Change>)
        requires step { IsGrouped self.old step }
        requires own { AreOwn self.old }
        requires room { 1 ≤ self.old.messages.room }
        requires listings { 1 ≤ self.old.messages.listings }
        requires change { StartsWith step changes.old.items }
        ensures taken { HasInstalled self.old step self.new }
        ensures changes { changes.new.items ≡ drop (length (listed step.whole.value.next.change)) changes.old.items }
    {
        self.messages.ascends();
        let next = whole(step, changes);
        self.install(next);
        self.messages.ascends();
    }
}

/// What is kept after a step, with its change, which is the first of those that wait.
fn whole(step: GroupedStep, changes: &mut VecDeque<Change>) -> Next
    requires next { step.next ≡ record step.whole.value.next { room = None; change = None } }
    requires saves { IsSome step.whole.value.next.change }
    requires change { StartsWith step changes.old.items }
    ensures next { result ≡ record step.whole.value.next { room = None } }
    ensures changes { changes.new.items ≡ drop (length (listed step.whole.value.next.change)) changes.old.items }
{
    let GroupedStep { mut next, .. } = step;
    next.change = changes.pop_front();
    next
}
