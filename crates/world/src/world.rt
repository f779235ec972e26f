//! A world: its nodes, and the packets between them.

ghost use Rattle.std.specs.Prelude.{◌≡◌, ◌+◌, ◌<◌, ◌≤◌, [], true, length, IfErr, IfOk, IfSome, None, OnErr, OnOk, Some};
ghost use Rattle.mc_model.specs.synod.Lists.{In};
ghost use Rattle.node_runs.specs.Stops.{is_after};
ghost use Rattle.mc_model.specs.message.Ids.{IsSerial};
ghost use Rattle.world.specs.Members.{AreOpened, CantBegin, DoesNotTake, HasBegun, HasComeQuietly, HasForgotten, HasStopped, HasTaken, IsAddressed};
ghost use Rattle.world.specs.Members.{IsSentIn, IsUpAt, Keeps, RefusesTo, away_in, undelivered_in};
ghost use Rattle.node_laws.specs.Clusters.{cluster_with};
ghost use Rattle.world.specs.Runs.{HaltsOver, IsAt, IsFault, IsSomewhere, IsStartFault, Leads, StartsOver, leaves_up, start_refusal};
ghost use Rattle.node_entry.specs.Taking.{node_at};
ghost use Rattle.world.specs.Scenes.{clock_in, is_up_in};
ghost use Rattle.world.specs.declared.fault.WorldFault.TheVariants.{Memory};
ghost use Rattle.node_entry.specs.declared.step.Step.TheVariants as steps;

use crate::fault::{StartFault, WorldFault};
use crate::given::Given;
use crate::member::Member;
use mc_types::{LAST_SERIAL, MOST_NODES, Moment, NodeNo};
use node_entry::Step;
use node_runs::{Found, Input, Setup};
use sim_net::Packets;
use std::alloc::{AllocError, Global};
use std::marker::Model;
use synod_acceptor::Packet;

/// Up to nine nodes, each over a store in memory, and all packets that they sent. Any packet that was sent may come to any node that is up, any
/// number of times and in any order, or never; nodes may stop in any save and start anew. Whatever is asked of it, it stands somewhere in a run of
/// the model's cluster.
#[derive(Drop)]
pub struct World {
    alloc: Global,
    // Node n stands at the place n - 1.
    members: Vec<Member>,
    packets: Packets,
    // No step was taken yet, since all stores were new.
    fresh: bool,
}

impl Model for World {
    ghost use Rattle.world.specs.Scenes.{Scene};

    ghost Value = { Scene };

    ghost use Rattle.world.specs.Runs.{IsSomewhere};

    ghost view = { λ w. record { members = w.members.items; packets = w.packets.sent; fresh = w.fresh } };

    ghost invariant = { λ w. IsSomewhere (record { members = w.members.items; packets = w.packets.sent; fresh = w.fresh }) };
}

impl World {
    /// So many nodes, each over a new store in memory, with this serial of the first message of each of its incarnations; a message that asks for
    /// no time is valid for so many seconds. Nodes exactly if they are not 1 to 9; then Serial exactly if the serial is not 1 to 99,999; else an
    /// `Err` is want of memory.
    pub fn start(
        alloc: Global,
        nodes: u8,
        first_serial: u32,
        default_validity: u32,
    ) -> Result<World, StartFault>
        ensures stands { IfOk result (IsAt (cluster_with nodes first_serial default_validity) [] []) }
        ensures fresh { IfOk result (λ world. world.fresh ≡ true) }
        ensures refused { IfErr result (IsStartFault (start_refusal nodes first_serial)) }
    {
        if nodes < 1 || nodes > MOST_NODES {
            return Err(StartFault::Nodes);
        }
        if first_serial < 1 || first_serial > LAST_SERIAL {
            return Err(StartFault::Serial);
        }
        Ok(World {
            alloc,
            members: opened(alloc, nodes, first_serial, default_validity)?,
            packets: Packets::none(alloc),
            fresh: true,
        })
    }

    /// Starts it over the stores of its nodes, as if its program ended and another one opened them: each node starts anew in its next
    /// incarnation, with its stable records and nothing else, node 1 first. No packet that was sent before comes any more, and the next one has
    /// number 1. Spent exactly if a node has begun its last incarnation and those before it could start; else an `Err` is want of memory. Then
    /// the nodes before it have started anew, and the packets are still there.
    pub fn start_over(&mut self) -> Result<(), WorldFault>
        ensures over { OnOk result (StartsOver self.old self.new) }
        ensures halts { IfErr result (λ fault. HaltsOver self.old fault self.new) }
    {
        for place in 0..self.nodes() {
            self.restart_at(place)?;
        }
        self.forget_packets();
        Ok(())
    }

    /// How many nodes it has: 1 to 9.
    pub fn nodes(&self) -> usize
        ensures { result ≡ length self.now.members }
    {
        self.members.len()
    }

    /// Whether there is such a node, and it is up.
    pub fn is_up(&self, node: NodeNo) -> bool
        ensures { result ≡ is_up_in self.now node }
    {
        match self.members.get(node.number() as usize - 1) {
            Some(member) => member.is_up(),
            None => false,
        }
    }

    /// The clock of a node, in seconds since 1970. The least moment if there is no such node, or if it is down: its clock begins anew.
    pub fn clock(&self, node: NodeNo) -> Moment
        ensures { result ≡ clock_in self.now node }
    {
        match self.members.get(node.number() as usize - 1) {
            Some(member) if member.is_up() => member.clock(),
            _ => Moment::least(),
        }
    }

    /// No packet that was sent comes any more, and the next one has number 1.
    fn forget_packets(&mut self)
        ensures { HasForgotten self.old self.new }
    {
        self.packets = Packets::none(self.alloc);
        self.fresh = false;
    }

    /// All packets that were sent, since it last started over.
    pub fn packets(&self) -> &Packets
        ensures { result.now.sent ≡ self.now.packets }
    {
        &self.packets
    }

    /// What a proof takes of it: it stands somewhere in a run of the model's cluster. The call does nothing.
    pub fn stands(&self)
        ensures { IsSomewhere self.now }
    {
        let _fresh = self.fresh;
    }

    /// Takes a step. Of several refusals the one with the lowest number is told, but that a node is down before why an attempt is not granted;
    /// Memory is want of memory. A step that is refused changes nothing.
    #[inline(never)]
    pub fn step(&mut self, step: Step) -> Result<Given, WorldFault>
        ensures leads { Leads self.old step result self.new }
        ensures up { OnOk result (is_up_in self.new (node_at step) ≡ leaves_up step) }
    {
        match step {
            Step::Deliver { number, node } => self.deliver(number, node),
            Step::Request {
                node,
                account,
                request,
            } => self.take(node, Input::Request(account, request)),
            Step::Tick {
                node,
                moment,
                reach,
            } => self.take(node, Input::Tick(moment, reach)),
            Step::Grant { node, id } => self.take(node, Input::Grant(id)),
            Step::Answered {
                node,
                slot,
                outcome,
            } => self.take(node, Input::Answered(slot, outcome)),
            Step::Crash {
                node,
                number,
                found,
            } => self.crash(node, number, found),
            Step::Restart { node } => self.restart(node),
        }
    }

    /// The packet with this number comes to a node.
    #[inline(never)]
    pub fn deliver(&mut self, number: u64, node: NodeNo) -> Result<Given, WorldFault>
        ensures leads { Leads self.old (steps.Deliver number node) result self.new }
        ensures least { OnOk result (1 ≤ number) }
        ensures up { OnOk result (is_up_in self.new (node_at (steps.Deliver number node)) ≡ leaves_up (steps.Deliver number node)) }
    {
        match self.take_quietly(number, node) {
            Some(given) => Ok(given),
            None => self.take_sent(number, node),
        }
    }

    /// A node stops in the save of the step of the packet with this number, before it or after it; if it saves nothing, at the end of that step.
    #[inline(never)]
    pub fn crash(&mut self, node: NodeNo, number: u64, found: Found) -> Result<Given, WorldFault>
        ensures leads { Leads self.old (steps.Crash node number found) result self.new }
        ensures up { OnOk result (is_up_in self.new (node_at (steps.Crash node number found)) ≡ leaves_up (steps.Crash node number found)) }
    {
        match self.addressed(number, node) {
            Ok((place, packet)) => self.crash_at(place, &packet, found),
            Err(fault) => Err(fault),
        }
    }

    /// A node starts anew, in its next incarnation, with its stable records and nothing else.
    #[inline(never)]
    pub fn restart(&mut self, node: NodeNo) -> Result<Given, WorldFault>
        ensures leads { Leads self.old (steps.Restart node) result self.new }
        ensures up { OnOk result (is_up_in self.new (node_at (steps.Restart node)) ≡ leaves_up (steps.Restart node)) }
    {
        let place = node.number() as usize - 1;
        if place >= self.members.len() {
            return Err(WorldFault::NoSuchNode);
        }
        self.restart_at(place)
    }

    /// The same, of a copy of the packet.
    #[inline(always)]
    fn take_sent(&mut self, number: u64, node: NodeNo) -> Result<Given, WorldFault>
        ensures leads { Leads self.old (steps.Deliver number node) result self.new }
        ensures least { OnOk result (1 ≤ number) }
        ensures up { OnOk result (is_up_in self.new (node_at (steps.Deliver number node)) ≡ leaves_up (steps.Deliver number node)) }
    {
        match self.addressed(number, node) {
            Ok((place, packet)) => self.take_at(node, place, Input::Packet(packet)),
            Err(fault) => Err(fault),
        }
    }

    /// The packet with this number comes to a node, if the node takes its step quietly. None leaves the world as it was, and says nothing of the packet. It
    /// takes no memory.
    #[inline(always)]
    fn take_quietly(&mut self, number: u64, node: NodeNo) -> Option<Given>
        ensures taken { IfSome result (λ given. HasComeQuietly self.old number node given self.new) }
        ensures stays { result ≡ None → self.new ≡ self.old }
    {
        let Ok(place) = self.place_up(node) else {
            return None;
        };
        let packet = self.packets.get(number)?;
        if !self.members[place].take_quietly(packet) {
            return None;
        }
        self.fresh = false;
        Some(Given::nothing(self.alloc))
    }

    /// The place of a node that is up, and the packet with this number.
    #[inline(always)]
    fn addressed(&self, number: u64, node: NodeNo) -> Result<(usize, Packet), WorldFault>
        ensures found { IfOk result (λ found. IsAddressed self.now number node found.0 found.1) }
        ensures fault { IfErr result (IsFault (undelivered_in self.now number node)) }
        ensures least { 1 ≤ node }
    {
        let Some(packet) = self.packets.get(number) else {
            return Err(WorldFault::NoSuchPacket);
        };
        let place = self.place_up(node)?;
        Ok((place, packet.copy()?))
    }

    /// An input comes to a node, which takes its step if it is up.
    #[inline(never)]
    fn take(&mut self, node: NodeNo, input: Input) -> Result<Given, WorldFault>
        requires { IsSentIn self.old input }
        ensures taken { IfOk result (λ given. HasTaken self.old node input given self.new) }
        ensures refused { IfErr result (DoesNotTake self.old node input) }
        ensures least { 1 ≤ node }
        ensures stays { OnErr result (Keeps self.old self.new) }
    {
        let place = self.place_up(node)?;
        self.take_at(node, place, input)
    }

    /// The node at this place, which is up, takes the step of an input.
    #[inline(always)]
    fn take_at(&mut self, node: NodeNo, place: usize, input: Input) -> Result<Given, WorldFault>
        requires up { IsUpAt self.old node place }
        requires sent { IsSentIn self.old input }
        ensures taken { IfOk result (λ given. HasTaken self.old node input given self.new) }
        ensures refused { IfErr result (RefusesTo self.old node input) }
        ensures stays { OnErr result (Keeps self.old self.new) }
    {
        match self.members[place].take(input, &mut self.packets) {
            Ok(given) => {
                self.fresh = false;
                Ok(given)
            }
            Err(fault) => Err(WorldFault::from(fault)),
        }
    }

    /// The node at this place, which is up, stops as a packet comes.
    fn crash_at(&mut self, place: usize, packet: &Packet, found: Found) -> Result<Given, WorldFault>
        requires up { IsUpAt self.old (place + 1) place }
        requires sent { In packet.now self.old.packets }
        ensures stopped { IfOk result (λ given. HasStopped self.old place packet.now (is_after found) given self.new) }
        ensures fault { IfErr result (λ fault. fault ≡ Memory) }
        ensures stays { OnErr result (Keeps self.old self.new) }
    {
        match self.members[place].crash(packet, found) {
            Ok(()) => {
                self.fresh = false;
                Ok(Given::nothing(self.alloc))
            }
            Err(_) => Err(WorldFault::Memory),
        }
    }

    /// The node at this place starts anew.
    fn restart_at(&mut self, place: usize) -> Result<Given, WorldFault>
        requires { place < length self.old.members }
        ensures begun { IfOk result (λ given. HasBegun self.old place given self.new) }
        ensures refused { IfErr result (CantBegin self.old place) }
        ensures stays { OnErr result (Keeps self.old self.new) }
    {
        match self.members[place].restart() {
            Ok(()) => {
                self.fresh = false;
                Ok(Given::nothing(self.alloc))
            }
            Err(fault) => Err(WorldFault::from(fault)),
        }
    }

    /// The place of a node that is up.
    #[inline(always)]
    fn place_up(&self, node: NodeNo) -> Result<usize, WorldFault>
        ensures place { IfOk result (λ place. IsUpAt self.now node place) }
        ensures fault { IfErr result (λ fault. away_in self.now node ≡ Some fault) }
        ensures least { 1 ≤ node }
    {
        let place = node.number() as usize - 1;
        let Some(member) = self.members.get(place) else {
            return Err(WorldFault::NoSuchNode);
        };
        if !member.is_up() {
            return Err(WorldFault::Down);
        }
        Ok(place)
    }
}

/// Nodes 1 to so many, each over a new store. An `Err` is want of memory.
fn opened(
    alloc: Global,
    nodes: u8,
    first_serial: u32,
    default_validity: u32,
) -> Result<Vec<Member>, AllocError>
    requires most { nodes ≤ 9 }
    requires serial { IsSerial first_serial }
    ensures { IfOk result (λ members. AreOpened nodes first_serial default_validity nodes members.items) }
{
    let mut members = Vec::with_capacity(alloc, nodes as usize)?;
    for place in 0..nodes {
        let setup = Setup::make(
            NodeNo::of(place + 1),
            nodes,
            first_serial,
            default_validity,
        ).unwrap();
        members.push(Member::open(alloc, setup)?)?;
    }
    Ok(members)
}
