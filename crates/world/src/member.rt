//! One node of a world.

ghost use Rattle.std.specs.Prelude.{◌≡◌, ◌↔◌, ◌⊎◌, ◌≤◌, false, true, IfErr, IfOk, IsErrOf, OnErr, OnOk};
ghost use Rattle.node_runs.specs.StepFault.TheVariants.{Memory};
ghost use Rattle.node_runs.specs.Keeping.{kept_of};
ghost use Rattle.node_runs.specs.Steps.{IsFault, refused_by};
ghost use Rattle.node_runs.specs.Nodes.{HasTaken};
ghost use Rattle.node_runs.specs.Stops.{is_after};
ghost use Rattle.stable_store.specs.declared.fault.StoreFault.TheVariants as stores;
ghost use Rattle.world.specs.Members.{HasCrashed, HasPassed, HasRestarted, HasSaved, HasSent, IsOpened, IsUnmoved};

use crate::given::Given;
use mc_types::{LAST_INCARNATION, Moment};
use node_runs::{
    Found, Input, Life, Node, Outputs, Pending, Setup, StepFault, is_well_made, may_come,
    open_node, opens_as_restarted,
};
use sim_net::Packets;
use stable_store::{ListStore, StoreFault};
use std::alloc::{AllocError, Global};
use std::marker::Model;
use synod_acceptor::Packet;

/// One node of a world, over a store in memory, and whether it is up.
#[derive(Drop)]
pub struct Member {
    node: Node<ListStore>,
    // None only while the node opens again.
    life: Option<Life>,
    up: bool,
}

impl Model for Member {
    ghost use Rattle.world.specs.Scenes.{Placed};

    ghost Value = { Placed };

    ghost use Rattle.world.specs.Members.{IsSound};

    ghost view = { λ m. record { node = m.node; up = m.up } };

    ghost invariant = { λ m. IsSound m.node m.life };
}

impl Member {
    /// A node over a new store. An `Err` is want of memory.
    pub fn open(alloc: Global, setup: Setup) -> Result<Member, AllocError>
        ensures { IfOk result (IsOpened setup) }
    {
        match open_node(alloc, ListStore::make(alloc), setup) {
            Ok((node, life)) => Ok(Member {
                node,
                life: Some(life),
                up: true,
            }),
            Err(_) => Err(AllocError),
        }
    }

    /// Whether it is up.
    pub fn is_up(&self) -> bool
        ensures { result ≡ self.now.up }
    {
        self.up
    }

    /// The clock of its node.
    pub fn clock(&self) -> Moment
        ensures { result ≡ self.now.node.kept.clock }
    {
        self.node.clock()
    }

    /// Takes the step of an input, and sends its packets. Grant and NotGranted exactly as `Node::prepare_step` says; else an `Err` is want of
    /// memory. Then nothing changes.
    #[inline(always)]
    pub fn take(&mut self, input: Input, packets: &mut Packets) -> Result<Given, StepFault>
        requires { self.old.up ≡ true }
        ensures taken { IfOk result (λ given. HasSent self.old input packets.old.sent given self.new packets.new.sent) }
        ensures faults { IfErr result (IsFault (refused_by self.old.node.kept.setup (kept_of self.old.node.kept) input)) }
        ensures stays { OnErr result (IsUnmoved self.old self.new) }
        ensures sent { OnErr result (packets.new.sent ≡ packets.old.sent) }
    {
        self.node.bounds();
        may_come(&self.node, &input);
        let pending = self.node.prepare_step(input)?;
        let Ok(()) = packets.make_room(pending.outputs().packets.len()) else {
            drop(pending);
            return Err(StepFault::Memory);
        };
        let outputs = self.commit(pending)?;
        Ok(Given::send(outputs, packets))
    }

    /// Takes the step of a packet, if the node takes it quietly. False leaves it as it was. It takes no memory.
    #[inline(always)]
    pub fn take_quietly(&mut self, packet: &Packet) -> bool
        requires { self.old.up ≡ true }
        ensures taken { result ≡ true → HasPassed self.old packet.now self.new }
        ensures stays { result ≡ false → self.new ≡ self.old }
    {
        self.node.bounds();
        is_well_made(packet);
        self.node.take_quietly(packet)
    }

    /// Commits what was prepared, if the node is as it was then. A store in memory does not fail, so an `Err` is want of memory; then nothing
    /// changes.
    #[inline(always)]
    fn commit(&mut self, pending: Pending) -> Result<Outputs, StepFault>
        requires { pending.was ≡ self.old.node.kept }
        ensures taken { IfOk result (HasTaken self.old.node pending.input self.new.node) }
        ensures faults { IfErr result (λ fault. fault ≡ Memory) }
        ensures stays { OnErr result (IsUnmoved self.old self.new) }
        ensures up { self.new.up ≡ self.old.up }
    {
        self.node.commit(pending)
    }

    /// Stops as a packet comes, before the save of its step or after it. An `Err` is want of memory; then nothing changes.
    #[inline(never)]
    pub fn crash(&mut self, packet: &Packet, found: Found) -> Result<(), StepFault>
        requires { self.old.up ≡ true }
        ensures crashed { OnOk result (HasCrashed self.old packet.now (is_after found) self.new) }
        ensures faults { IfErr result (λ fault. fault ≡ Memory) }
        ensures stays { OnErr result (IsUnmoved self.old self.new) }
    {
        // What the proof takes of the node and the packet; none of the calls does anything.
        self.node.lists();
        self.node.bounds();
        is_well_made(packet);
        match found {
            Found::Before => {
                self.up = false;
                Ok(())
            }
            Found::After => {
                self.save(packet)?;
                self.up = false;
                Ok(())
            }
        }
    }

    /// Takes the step of a packet, of which nothing is sent.
    fn save(&mut self, packet: &Packet) -> Result<(), StepFault>
        requires { self.old.up ≡ true }
        ensures saved { OnOk result (HasSaved self.old packet.now self.new) }
        ensures faults { IfErr result (λ fault. fault ≡ Memory) }
        ensures stays { OnErr result (IsUnmoved self.old self.new) }
    {
        let pending = self.node.prepare_step(Input::Packet(packet.copy()?))?;
        drop(self.commit(pending)?);
        self.node.lists();
        Ok(())
    }

    /// Starts anew, in its next incarnation, with what its store has and nothing else. Incarnations exactly if it has begun its last one;
    /// else an `Err` is want of memory. Then nothing changes.
    #[inline(never)]
    pub fn restart(&mut self) -> Result<(), StoreFault>
        ensures restarted { OnOk result (HasRestarted self.old self.new) }
        ensures spent { IsErrOf result stores.Incarnations ↔ (9999 ≤ self.old.node.kept.incarnation) }
        ensures faults { IfErr result (λ fault. (fault ≡ stores.Incarnations) ⊎ (fault ≡ stores.Memory)) }
        ensures stays { OnErr result (IsUnmoved self.old self.new) }
    {
        let Some(life) = self.life.take() else {
            unreachable!();
        };
        if life.incarnation().number() >= LAST_INCARNATION {
            self.life = Some(life);
            return Err(StoreFault::Incarnations);
        }
        // What the proof takes of the node and of a start; none of the calls does anything.
        self.node.lists();
        self.node.bounds();
        opens_as_restarted::<ListStore>();
        match self.node.reopen(life) {
            Ok(life) => {
                self.life = Some(life);
                self.up = true;
                Ok(())
            }
            Err((fault, life)) => {
                self.life = Some(life);
                Err(fault)
            }
        }
    }
}
