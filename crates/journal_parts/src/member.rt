//! A node and its own steps, under its lock.

ghost use Rattle.std.specs.Prelude.{◌≡◌, ◌≤◌, ◌-◌, ◌∷◌, ◌++◌, ◌||◌, [], List, length, None, Some, IfOk, IfSome, OnErr, OnOk, false, true, map, ◌<◌, ◌⊎◌, ◌↔◌, IfErr, IsErrOf, IsSome};
ghost use Rattle.node_core.specs.Keeping.{kept_of};
ghost use Rattle.node_core.specs.Nodes.{IsLifeOf, fault_in};
ghost use Rattle.node_model.specs.Kept.{message_at};
ghost use Rattle.node_core.specs.Input.TheVariants as inputs;
ghost use Rattle.node_core.specs.Permits.{IsAnswered, IsGrant, is_life_of};
ghost use Rattle.node_entry.specs.declared.step.Step.TheVariants as steps;
ghost use Rattle.node_entry.specs.Taking.{node_at};
ghost use Rattle.node_core.specs.Setups.{IsSetup};
ghost use Rattle.std.specs.Arc.{arc_value};
ghost use Rattle.std.specs.Vec.{vec_capacity, vec_len};
ghost use Rattle.node_core.specs.Grouping.{HasJoined};
ghost use Rattle.journal_laws.specs.Journals.{Entry as Written};
ghost use Rattle.journal_parts.specs.Entries.{IsAnew, done_of, entry_of, number_by};
ghost use Rattle.journal_parts.specs.Gathering.{AllDeliver, AreNumbered, entry_done};
ghost use Rattle.journal_parts.specs.Members.{CanBeTaken, ComesWith, IsBeginning, IsMember, packet_halted, posted};
ghost use Rattle.journal_parts.specs.Faults.{fault_at};
ghost use Rattle.journal_parts.specs.Refusals.{IsRefusedAs};
ghost use Rattle.journal_parts.specs.declared.refusal.Refusal.TheVariants.{Broken, Damaged, Device, Memory, Spent};
ghost use Rattle.stable_store.specs.Stored.{HasFailed};
ghost use Rattle.journal_parts.specs.Granting.{IsLeastAbove};

use crate::begins::Begins;
use crate::copies::EntryCopies;
use crate::done::Done;
use crate::entry::Entry;
use crate::post::Post;
use crate::ready::Ready;
use crate::ready_group::ReadyGroup;
use crate::refusal::Refusal;
use crate::silent::Silent;
use fate_chain::Chain;
use mc_types::{MsgId, NodeNo};
use node_core::{JoinFault, Life, Node, Permit, StepGroup};
use node_entry::Step;
use stable_store::{GroupStore, StableStore};
use std::alloc::{AllocError, Global};
use std::collections::VecDeque;
use std::marker::{Model, PhantomData};
use std::sync::Arc;
use synod_acceptor::Packet;

/// A node and its own entries, which are its run from what it keeps where the journal begins. Contracts see the node, the packet in the save of whose step it
/// stopped, its entries, and for how many more it has room.
#[derive(Drop)]
pub struct Member<S: StableStore, L: Begins> {
    post: Post<S>,
    own: Vec<Entry>,
    part: PhantomData<L>,
}

impl<S: StableStore, L: Begins> Model for Member<S, L> {
    ghost use Rattle.std.specs.Prelude.{◌-◌, map, option_map};
    ghost use Rattle.std.specs.Vec.{vec_capacity, vec_len};
    ghost use Rattle.journal_parts.specs.Entries.{entry_of};
    ghost use Rattle.journal_parts.specs.Members.{IsMember, Membered, posted};

    ghost Value = { Membered S };

    ghost view = { λ m. record {
      post = posted m.post;
      own = map entry_of m.own.items;
      room = vec_capacity m.own - vec_len m.own;
    } };

    ghost invariant = { λ m. IsMember S.stored L.cluster L.kept (posted m.post) (map entry_of m.own.items) };
}

impl<S: StableStore, L: Begins> Member<S, L> {
    /// A node where the journal begins: it has no entry yet. It takes no memory.
    pub fn begin(alloc: Global, node: Node<S>) -> Member<S, L>
        requires { IsBeginning L.cluster L.kept node }
        ensures node { result.post.node ≡ node }
        ensures own { result.own ≡ [] }
    {
        Member {
            post: Post {
                node,
                halted: None,
                astray: false,
            },
            own: Vec::new(alloc),
            part: PhantomData,
        }
    }

    /// A node as it is at its post, where another part of the journal begins: it has no entry of it yet. It takes no memory.
    pub fn go_on(alloc: Global, post: Post<S>) -> Member<S, L>
        requires { IsMember S.stored L.cluster L.kept (posted post) [] }
        ensures post { result.post ≡ posted post }
        ensures own { result.own ≡ [] }
    {
        Member {
            post,
            own: Vec::new(alloc),
            part: PhantomData,
        }
    }

    /// Prepares a step, with the packet that comes by it, if one does: it changes nothing but the room for entries. Broken exactly if a save failed before;
    /// then Grant and NotGranted exactly as `Node::prepare_step` says; else an `Err` is want of memory.
    pub fn prepare(&mut self, step: Step, packet: Option<Packet>) -> Result<Ready, Refusal>
        requires { CanBeTaken step packet }
        ensures was { IfOk result (λ ready. ready.was ≡ self.new.post.node.kept) }
        ensures step { IfOk result (λ ready. ready.done.step ≡ step) }
        ensures packet { IfOk result (λ ready. ready.done.packet ≡ packet) }
        ensures comes { IfOk result (λ ready. ComesWith step packet ready.input) }
        ensures room { OnOk result (1 ≤ self.new.room) }
        ensures allowed { OnOk result (fault_at self.old.post.node step ≡ None) }
        ensures broken { IsErrOf result Broken ↔ (self.old.post.node.broken ≡ true) }
        ensures faults { IfErr result (IsRefusedAs (fault_at self.old.post.node step)) }
        ensures post { self.new.post ≡ self.old.post }
        ensures own { self.new.own ≡ self.old.own }
    {
        let ready = self.post.prepare(step, packet)?;
        self.make_room()?;
        Ok(ready)
    }

    /// Makes room for one more entry. An `Err` is want of memory.
    fn make_room(&mut self) -> Result<(), AllocError>
        ensures room { OnOk result (1 ≤ self.new.room) }
        ensures post { self.new.post ≡ self.old.post }
        ensures own { self.new.own ≡ self.old.own }
    {
        self.own.reserve(1)
    }

    /// Commits a step of this node that was prepared, if the node is as it was then, and adds its entry to its own. It takes no memory but what the store
    /// takes. Broken exactly if a save failed before; Device, at the step of a packet alone, only if the device failed, and then the node is Broken; else an
    /// `Err` is Memory, from the store. Each adds nothing.
    #[tactic(auto, using(crate::proofs::Members::member_more, crate::proofs::Members::member_rests))]
    pub fn commit(&mut self, ready: Ready) -> Result<EntryCopies, Refusal>
        requires was { ready.was ≡ self.old.post.node.kept }
        requires node { node_at ready.done.step ≡ self.old.post.node.kept.setup.node }
        requires room { 1 ≤ self.old.room }
        requires sound { self.old.post.astray ≡ false }
        ensures entry { IfOk result (λ copies. copies ≡ record { done = done_of ready.done; unfinished = None }) }
        ensures own { IfOk result (λ copies. self.new.own ≡ self.old.own ++ copies ∷ []) }
        ensures err { OnErr result (self.new.own ≡ self.old.own) }
        ensures broken { IsErrOf result Broken ↔ (self.old.post.node.broken ≡ true) }
        ensures device { IsErrOf result Device → (self.new.post.node.broken ≡ true) × IsSome (number_by ready.done.step) }
        ensures rose { IsErrOf result Device → HasFailed (S.stored self.old.post.node.store) (S.stored self.new.post.node.store) }
        ensures wants { IsErrOf result Memory → IsSome (number_by ready.done.step) }
        ensures faults { IfErr result (λ refusal. (refusal ≡ Broken) ⊎ (refusal ≡ Device) ⊎ (refusal ≡ Memory)) }
        ensures astray { self.new.post.astray ≡ false }
        ensures setup { self.new.post.node.kept.setup ≡ self.old.post.node.kept.setup }
    {
        let Ready {
            pending,
            done,
            copies,
        } = ready;
        let done = self.post.commit(pending, done)?;
        self.own.push_reserved(Entry::of(done));
        Ok(copies)
    }

    /// Takes a step of this node, which is not astray, if it is that of a packet and the node takes it quietly, and adds its entry to its own. An `Err` leaves
    /// all as it was, and hands the step back: `prepare` takes any. It takes no memory.
    pub fn take_quietly(&mut self, silent: Silent) -> Result<EntryCopies, Silent>
        requires taken { CanBeTaken silent.step silent.packet }
        requires node { node_at silent.step ≡ self.old.post.node.kept.setup.node }
        requires room { 1 ≤ self.old.room }
        requires sound { self.old.post.astray ≡ false }
        ensures entry { IfOk result (λ copies. copies ≡ record { done = done_of silent; unfinished = None }) }
        ensures own { IfOk result (λ copies. self.new.own ≡ self.old.own ++ copies ∷ []) }
        ensures back { IfErr result (λ back. back ≡ silent) }
        ensures stays { OnErr result (self.new ≡ self.old) }
        ensures setup { self.new.post.node.kept.setup ≡ self.old.post.node.kept.setup }
    {
        let Silent { done, copies } = silent;
        if !self.post.take_quietly(&done) {
            return Err(Silent { done, copies });
        }
        self.own.push_reserved(Entry::of(done));
        Ok(copies)
    }

    /// Commits a grant of this node that was prepared, if the node is as it was then and is neither Broken nor astray, in a life of this node and incarnation.
    /// It gives the permit of the attempt, and the entry for those that share it; it takes no memory.
    pub fn commit_grant<'l>(&mut self, life: &'l Life, ready: Ready) -> (Permit<'l>, EntryCopies)
        requires was { ready.was ≡ self.old.post.node.kept }
        requires node { node_at ready.done.step ≡ self.old.post.node.kept.setup.node }
        requires room { 1 ≤ self.old.room }
        requires works { self.old.post.node.broken ≡ false }
        requires sound { self.old.post.astray ≡ false }
        requires grant { IsGrant ready.input }
        requires life { is_life_of self.old.post.node life.now ≡ true }
        ensures entry { result.1 ≡ record { done = done_of ready.done; unfinished = None } }
        ensures own { self.new.own ≡ self.old.own ++ result.1 ∷ [] }
        ensures life { result.0.life ≡ life.now }
    {
        let Ready {
            pending,
            done,
            copies,
        } = ready;
        let permit = self.post.commit_grant(life, pending);
        self.own.push_reserved(Entry::of(done));
        (permit, copies)
    }

    /// Commits what came of the attempt of a permit of this node, if the node is as it was when that was prepared and is neither Broken nor astray, and the
    /// permit is of this node and incarnation. It spends the permit, and takes no memory.
    pub fn commit_answered<'l>(&mut self, permit: Permit<'l>, ready: Ready) -> EntryCopies
        requires was { ready.was ≡ self.old.post.node.kept }
        requires node { node_at ready.done.step ≡ self.old.post.node.kept.setup.node }
        requires room { 1 ≤ self.old.room }
        requires works { self.old.post.node.broken ≡ false }
        requires sound { self.old.post.astray ≡ false }
        requires answered { IsAnswered permit.slot ready.input }
        requires life { is_life_of self.old.post.node permit.life ≡ true }
        ensures entry { result ≡ record { done = done_of ready.done; unfinished = None } }
        ensures own { self.new.own ≡ self.old.own ++ result ∷ [] }
    {
        let Ready {
            pending,
            done,
            copies,
        } = ready;
        self.post.commit_answered(permit, pending);
        self.own.push_reserved(Entry::of(done));
        copies
    }

    /// The node.
    pub fn node(&self) -> NodeNo
        ensures { result ≡ self.now.post.node.kept.setup.node }
    {
        self.post.node.setup().node()
    }

    /// Whether it takes no step: a save failed, or an opening, or it is astray.
    pub fn is_broken(&self) -> bool
        ensures { result ≡ (self.now.post.astray || self.now.post.node.broken) }
    {
        self.post.astray || self.post.node.is_broken()
    }

    /// Whether it is astray: its store gave an incarnation that was used.
    pub fn is_astray(&self) -> bool
        ensures { result ≡ self.now.post.astray }
    {
        self.post.astray
    }

    /// Whether a life is its node's, in its incarnation.
    pub fn is_life(&self, life: &Life) -> bool
        ensures { result ≡ is_life_of self.now.post.node life.now }
    {
        self.post.node.is_life(life)
    }

    /// The lowest id above this one, or of all ids, of the messages whose attempt it would grant now; none if there is none, and if it takes no step. It takes
    /// no memory.
    pub fn grantable_after(&self, after: Option<MsgId>) -> Option<MsgId>
        ensures { IsLeastAbove after (λ id. (self.now.post.astray ≡ false) × (fault_in self.now.post.node (inputs.Grant id) ≡ None)) result }
    {
        if self.post.astray {
            return None;
        }
        self.post.node.grantable_after(after)
    }

    /// The chain of a message whose attempt the node would grant now: it ends in that attempt. None exactly if the node would not grant it, or is astray. It
    /// takes no memory.
    pub fn attempt(&self, id: MsgId) -> Option<&Chain>
        ensures granted { IsSome result ↔ (self.now.post.astray ≡ false) × (fault_in self.now.post.node (inputs.Grant id) ≡ None) }
        ensures known { IfSome result (λ chain. (message_at (kept_of self.now.post.node.kept) id).known ≡ Some chain.now.decrees) }
        ensures id { IfSome result (λ chain. chain.now.id ≡ id) }
    {
        if self.is_astray() {
            return None;
        }
        self.post.node.attempt(id)
    }

    /// Prepares a start anew: it changes nothing but the room for entries. An `Err` is want of memory.
    pub fn prepare_anew(&mut self) -> Result<Silent, AllocError>
        ensures step { IfOk result (λ anew. anew.step ≡ steps.Restart self.old.post.node.kept.setup.node) }
        ensures packet { IfOk result (λ anew. anew.packet ≡ packet_halted self.old.post.halted) }
        ensures room { OnOk result (1 ≤ self.new.room) }
        ensures post { self.new.post ≡ self.old.post }
        ensures own { self.new.own ≡ self.old.own }
    {
        let step = Step::Restart { node: self.node() };
        let packet = self.post.halted_packet()?;
        self.prepare_silent(step, packet)
    }

    /// Prepares a step by which nothing goes out, with its packet, if it has one: it changes nothing but the room for entries. An `Err` is want of memory.
    pub fn prepare_silent(
        &mut self,
        step: Step,
        packet: Option<Packet>,
    ) -> Result<Silent, AllocError>
        ensures step { IfOk result (λ silent. silent.step ≡ step) }
        ensures packet { IfOk result (λ silent. silent.packet ≡ packet) }
        ensures room { OnOk result (1 ≤ self.new.room) }
        ensures post { self.new.post ≡ self.old.post }
        ensures own { self.new.own ≡ self.old.own }
    {
        let silent = Silent::make(*self.own.allocator(), step, packet)?;
        self.make_room()?;
        Ok(silent)
    }

    /// Starts its node anew, if the life is its own and it is not astray, and adds the entry of it to its own; the new life, and the entry for those that share
    /// it. An `Err` is Device, Spent, Damaged or Memory, Device only if the device failed, and adds nothing; it is astray, and the answer Damaged, if its store
    /// gave an incarnation that was used. Each hands back the life of the node, which is the one that was handed in, unless it is astray.
    pub fn start_anew(
        &mut self,
        life: Life,
        anew: Silent,
    ) -> Result<(Life, EntryCopies), (Refusal, Life)>
        requires life { IsLifeOf self.old.post.node life }
        requires sound { self.old.post.astray ≡ false }
        requires step { anew.step ≡ steps.Restart self.old.post.node.kept.setup.node }
        requires packet { anew.packet ≡ packet_halted self.old.post.halted }
        requires room { 1 ≤ self.old.room }
        ensures entry { IfOk result (λ started. IsAnew anew started.1) }
        ensures own { IfOk result (λ started. self.new.own ≡ self.old.own ++ started.1 ∷ []) }
        ensures err { OnErr result (self.new.own ≡ self.old.own) }
        ensures begun { IfOk result (λ started. IsLifeOf self.new.post.node started.0) }
        ensures later { IfOk result (λ started. life.incarnation < started.0.incarnation) }
        ensures setup { self.new.post.node.kept.setup ≡ self.old.post.node.kept.setup }
        ensures faults { IfErr result (λ failed. (failed.0 ≡ Device) ⊎ (failed.0 ≡ Damaged) ⊎ (failed.0 ≡ Spent) ⊎ (failed.0 ≡ Memory)) }
        ensures rose { IfErr result (λ failed. failed.0 ≡ Device → HasFailed (S.stored self.old.post.node.store) (S.stored self.new.post.node.store)) }
        ensures strays { IfErr result (λ failed. self.new.post.astray ≡ true → failed.0 ≡ Damaged) }
        ensures life { IfErr result (λ failed. self.new.post.astray ≡ false → failed.1 ≡ life) }
        ensures left { IfErr result (λ failed. IsLifeOf self.new.post.node failed.1) }
    {
        let Silent { done, mut copies } = anew;
        let (life, save) = self.post.reopen(life)?;
        copies.name(save);
        self.own.push_reserved(Entry {
            done,
            unfinished: save,
        });
        Ok((life, copies))
    }

    /// Its entries, the oldest first.
    pub(crate) fn own(&self) -> &[Entry]
        ensures { map entry_of result.now ≡ self.now.own }
    {
        self.own.as_slice()
    }

    /// What a proof takes of it: its entries are its own run, and it is one of nine nodes at most. The call does nothing.
    pub(crate) fn is_own_run(&self)
        ensures run { IsMember S.stored L.cluster L.kept self.now.post self.now.own }
        ensures setup { IsSetup self.now.post.node.kept.setup }
    {
        self.post.node.bounds();
    }

    /// The node at its post, once the journal is done with.
    pub fn into_post(self) -> Post<S>
        ensures { posted result ≡ self.post }
    {
        self.post
    }
}

impl<S: StableStore, L: Begins> Member<S, L> {
    /// Begins a group of no packets over what the node keeps. It changes nothing. Broken exactly if a save failed before; else an `Err` is want of memory.
    pub fn begin_group(&self) -> Result<StepGroup, Refusal>
        ensures was { IfOk result (λ group. group.was ≡ self.now.post.node.kept) }
        ensures packets { IfOk result (λ group. group.packets ≡ []) }
        ensures broken { IsErrOf result Broken ↔ (self.now.post.node.broken ≡ true) }
        ensures faults { IfErr result (λ refusal. (refusal ≡ Broken) ⊎ (refusal ≡ Memory)) }
    {
        Ok(self.post.node.begin_group()?)
    }

    /// Prepares the step of a packet and puts it behind the others of a group that was begun over what the node keeps. The node stays as it is. An `Err` hands
    /// the packet back, as `Node::join` says, and leaves the group as it was.
    pub fn join(&self, group: &mut StepGroup, packet: Packet) -> Result<(), (JoinFault, Packet)>
        requires { group.old.was ≡ self.now.post.node.kept }
        ensures joined { OnOk result (HasJoined group.old packet group.new) }
        ensures back { IfErr result (λ failed. failed.1 ≡ packet) }
        ensures stays { OnErr result (group.new ≡ group.old) }
    {
        self.post.node.join(group, packet)
    }

    /// Makes the entries of a group, whose packets have these numbers: it changes nothing but the room for entries. An `Err` is want of memory.
    pub fn gather(&mut self, group: StepGroup, numbers: &[u64]) -> Result<ReadyGroup, AllocError>
        requires was { group.was ≡ self.old.post.node.kept }
        requires numbers { length numbers.now ≡ length group.packets }
        ensures was { IfOk result (λ ready. ready.was ≡ group.was) }
        ensures count { IfOk result (λ ready. length ready.dones ≡ length group.packets) }
        ensures steps { IfOk result (λ ready. AllDeliver self.old.post.node.kept.setup.node ready.dones) }
        ensures numbers { IfOk result (λ ready. AreNumbered self.old.post.node.kept.setup.node numbers.now ready.dones) }
        ensures room { IfOk result (λ ready. length ready.dones ≤ self.new.room) }
        ensures post { self.new.post ≡ self.old.post }
        ensures own { self.new.own ≡ self.old.own }
    {
        self.own.reserve(numbers.len())?;
        ReadyGroup::of(*self.own.allocator(), self.node(), group, numbers)
    }
}

impl<S: GroupStore, L: Begins> Member<S, L> {
    /// Commits a group of this node that was prepared, if the node is as it was then and is not astray, and adds the entries of the steps that were taken to its
    /// own: these, for those that share them, the first of them first, and why there are no more, if there are not all. It takes no memory but what the store
    /// takes. Broken exactly if a save failed before; Device only if the device failed, and then the node is Broken, and astray if it can't be found out what
    /// is stored of the group; else Memory, from the store.
    pub fn commit_all(&mut self, ready: ReadyGroup) -> (Vec<EntryCopies>, Option<Refusal>)
        requires was { ready.was ≡ self.old.post.node.kept }
        requires room { length ready.dones ≤ self.old.room }
        requires sound { self.old.post.astray ≡ false }
        ensures own { self.new.own ≡ self.old.own ++ result.0.items }
        ensures front { (left : List Written) × (map entry_done ready.dones ≡ result.0.items ++ left) }
        ensures all { result.1 ≡ None → result.0.items ≡ map entry_done ready.dones }
        ensures faults { IfSome result.1 (λ refusal. (refusal ≡ Broken) ⊎ (refusal ≡ Device) ⊎ (refusal ≡ Memory)) }
        ensures setup { self.new.post.node.kept.setup ≡ self.old.post.node.kept.setup }
    {
        let ReadyGroup {
            group,
            dones,
            mut copies,
        } = ready;
        let (taken, fault) = self.post.commit_all(group, dones);
        copies.truncate(taken.len());
        push_each(&mut self.own, taken);
        (copies, fault)
    }
}

/// Adds the entries of steps, for which there is room. It takes no memory.
fn push_each(own: &mut Vec<Entry>, dones: Vec<Arc<Done>>)
    requires { length dones.items ≤ vec_capacity own.old - vec_len own.old }
    ensures { map entry_of own.new.items ≡ map entry_of own.old.items ++ map entry_done (map arc_value dones.items) }
{
    let mut left = VecDeque::from_vec(dones);
    while let Some(done) = left.pop_front() {
        own.push_reserved(Entry::of(done));
    }
}
