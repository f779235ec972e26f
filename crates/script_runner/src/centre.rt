//! The centre: a world, and what stands beside each of its nodes.

ghost use Rattle.std.specs.Prelude.{◌≡◌, ℕ, ◌==◌, ◌&&◌, ◌<◌, ◌≤◌, false, length, not, reverse, suc, IfErr, OnOk, IfOk};
ghost use Rattle.std.specs.List.{range_with_len};
ghost use Rattle.mc_types.specs.Nodes.{has};
ghost use Rattle.world.specs.Stops.{is_after};
ghost use Rattle.script_lines.specs.Said.{nodes_with};
ghost use Rattle.script_runner.specs.Arrivals.{came_in};
ghost use Rattle.script_runner.specs.Centres.{AreEmpty, Does, IsDue, IsLacking, IsPassed, IsPlaceUp, KeepsUp, StartsAs, declines};
ghost use Rattle.script_runner.specs.Sites.{IsRefused, Leaves, Tells};
ghost use Rattle.script_text.specs.Settings.{settings_of};
ghost use Rattle.script_text.specs.World.{all_come, comes, comes_to, crashes, grants, hears, node_numbers, on_replay, on_settle, restarts, takes_part, ticks};
ghost use Rattle.world.specs.Scenes.{is_up_in};

use crate::arrivals::Arrivals;
use config::Config;
use mc_types::{MOST_NODES, Moment, MsgId, NodeNo, NodeSet};
use script_site::{Site, write_declined, write_unsettled};
use std::alloc::{AllocError, Global};
use world::{Found, Given, World, WorldFault, sender};

/// How many packets a settle delivers at most.
const MOST_DELIVERIES: u32 = 100_000;
/// The number with which a line is refused whose node there is not.
const NO_NODE: u8 = 2;
/// The number with which a line is refused whose node is down.
const DOWN: u8 = 4;

/// A world of up to nine nodes, what stands beside each of them, and which packets came to which node. After an `Err` of a call, which is want
/// of memory, nothing is said of it.
#[derive(Drop)]
pub struct Centre {
    world: World,
    // That of node n stands at the place n - 1.
    sites: Vec<Site>,
    arrivals: Arrivals,
}

/// A packet that is to come to a node.
#[derive(Clone, Copy)]
struct Due {
    number: u64,
    node: NodeNo,
}

impl Centre {
    /// So many nodes, 1 to 9, over new stores, and no session. The first message of each has this serial. An `Err` is want of memory.
    pub fn start(
        alloc: Global,
        config: &Config,
        nodes: u8,
        serial: u32,
    ) -> Result<Centre, AllocError>
        requires few { nodes ≤ 9 }
        requires least { 1 ≤ serial }
        requires most { serial ≤ 99999 }
        ensures { IfOk result (StartsAs (settings_of config.now) nodes serial) }
    {
        let sites = empty_sites(alloc, nodes)?;
        match World::start(alloc, nodes, serial, config.default_validity) {
            Ok(world) => Ok(Centre {
                world,
                sites,
                arrivals: Arrivals::none(alloc),
            }),
            Err(_) => {
                drop(sites);
                Err(AllocError)
            }
        }
    }

    /// How many nodes it has.
    pub fn nodes(&self) -> usize
        ensures { result ≡ length self.now.sites.items }
    {
        self.sites.len()
    }

    /// The next octets of a session's stream came: adds the lines of what goes out.
    pub fn octets(
        &mut self,
        config: &Config,
        node: NodeNo,
        number: u8,
        octets: &[u8],
        text: &mut Vec<u8>,
    ) -> Result<(), AllocError>
        ensures { OnOk result (Does (λ w. hears (settings_of config.now) w node number octets.now) self.old self.new text.old.items text.new.items) }
    {
        match self.place_up(node) {
            Ok(at) => self.sites[at].octets(&mut self.world, config, number, octets, text),
            Err(refusal) => write_declined(text, refusal),
        }
    }

    /// A moment has come at a node.
    pub fn tick(
        &mut self,
        node: NodeNo,
        moment: Moment,
        text: &mut Vec<u8>,
    ) -> Result<(), AllocError>
        ensures { OnOk result (Does (λ w. ticks w node moment) self.old self.new text.old.items text.new.items) }
    {
        match self.place_up(node) {
            Ok(at) => self.sites[at].tick(&mut self.world, moment, text),
            Err(refusal) => write_declined(text, refusal),
        }
    }

    /// The attempt of a message is asked for at a node.
    pub fn grant(&mut self, node: NodeNo, id: MsgId, text: &mut Vec<u8>) -> Result<(), AllocError>
        ensures { OnOk result (Does (λ w. grants w node id) self.old self.new text.old.items text.new.items) }
    {
        match self.place_up(node) {
            Ok(at) => self.sites[at].grant(&mut self.world, id, text),
            Err(refusal) => write_declined(text, refusal),
        }
    }

    /// The place of a node that is up; else the number with which a line is refused that names it.
    fn place_up(&self, node: NodeNo) -> Result<usize, u8>
        ensures found { IfOk result (IsPlaceUp self.now node) }
        ensures away { IfErr result (declines self.now node) }
    {
        let at = place_of(node);
        if at >= self.sites.len() {
            return Err(NO_NODE);
        }
        if !self.world.is_up(node) {
            return Err(DOWN);
        }
        Ok(at)
    }

    /// The packet of a number comes to a node.
    pub fn deliver(
        &mut self,
        number: u64,
        node: NodeNo,
        text: &mut Vec<u8>,
    ) -> Result<(), AllocError>
        ensures comes { OnOk result (Does (λ w. comes w number node) self.old self.new text.old.items text.new.items) }
        ensures up { OnOk result (KeepsUp self.old number node) }
    {
        let at = place_of(node);
        match self.world.deliver(number, node) {
            Ok(given) => {
                self.tell(at, given, text)?;
                self.arrivals.add(number, node)
            }
            Err(fault) => refuse(text, fault),
        }
    }

    /// Adds the lines of what a step of the node at a place gave out. If there is no such node, it does nothing.
    #[inline(always)]
    fn tell(&mut self, at: usize, given: Given, text: &mut Vec<u8>) -> Result<(), AllocError>
        ensures { OnOk result (Tells self.old at given self.new text.old.items text.new.items) }
    {
        if at >= self.sites.len() {
            drop(given);
            return Ok(());
        }
        self.sites[at].tell(&self.world, given, text)
    }

    /// The packet of a number comes to a node, which stops in the save of that step: before it, or after it.
    pub fn crash(
        &mut self,
        node: NodeNo,
        number: u64,
        found: Found,
        text: &mut Vec<u8>,
    ) -> Result<(), AllocError>
        ensures { OnOk result (Does (λ w. crashes w node number (is_after found)) self.old self.new text.old.items text.new.items) }
    {
        let at = place_of(node);
        match self.world.crash(node, number, found) {
            Ok(given) => {
                drop(given);
                self.leave(at, text)
            }
            Err(fault) => refuse(text, fault),
        }
    }

    /// A node starts anew, in its next incarnation, whether it is up or down.
    pub fn restart(&mut self, node: NodeNo, text: &mut Vec<u8>) -> Result<(), AllocError>
        ensures { OnOk result (Does (λ w. restarts w node) self.old self.new text.old.items text.new.items) }
    {
        let at = place_of(node);
        match self.world.restart(node) {
            Ok(given) => {
                drop(given);
                self.leave(at, text)
            }
            Err(fault) => refuse(text, fault),
        }
    }

    /// Adds the line of each session of the node at a place that it is gone; the node keeps none. If there is no such node, it does nothing.
    fn leave(&mut self, at: usize, text: &mut Vec<u8>) -> Result<(), AllocError>
        ensures { OnOk result (Leaves self.old at self.new text.old.items text.new.items) }
    {
        if at >= self.sites.len() {
            return Ok(());
        }
        self.sites[at].leave(text)
    }

    /// Packets come that did not come yet, between these nodes, or between all if these are none: the first by its number, to the first node that
    /// has not got it, also those that are sent meanwhile. After 100,000 it adds a line that tells so.
    pub fn settle(&mut self, nodes: NodeSet, text: &mut Vec<u8>) -> Result<(), AllocError>
        ensures { OnOk result (Does (λ w. on_settle w (nodes_with (has nodes))) self.old self.new text.old.items text.new.items) }
    {
        let mut number = self.first_open(nodes);
        for _delivered in 0..MOST_DELIVERIES {
            let Some(due) = self.due(nodes, number) else {
                return Ok(());
            };
            self.deliver(due.number, due.node, text)?;
            number = due.number;
        }
        write_unsettled(text)
    }

    /// No packet below this number is to come to one of these nodes.
    fn first_open(&self, nodes: NodeSet) -> u64
        ensures { IsPassed self.now (nodes_with (has nodes)) result }
    {
        let mut first = u64::MAX;
        for place in 0..MOST_NODES {
            first = first.min(self.first_lacked(nodes, NodeNo::of(place + 1)));
        }
        first
    }

    /// A node lacks no packet below this number.
    fn first_lacked(&self, nodes: NodeSet, node: NodeNo) -> u64
        ensures { (number : ℕ) → 1 ≤ number → number < result →
            (takes_part (nodes_with (has nodes)) node && (is_up_in self.now.world node && not (came_in self.now.arrivals number node))) ≡ false }
    {
        if takes_part(nodes, node) && self.world.is_up(node) {
            self.arrivals.first_open(node)
        } else {
            u64::MAX
        }
    }

    /// The first packet, by its number, that is to come to one of these nodes, and the first such node. Packets below this number are not looked at.
    fn due(&self, nodes: NodeSet, from: u64) -> Option<Due>
        ensures { IsDue self.now (nodes_with (has nodes)) from result }
    {
        for place in from.saturating_sub(1) as usize..self.world.packets().len() {
            let number = place as u64 + 1;
            if let Some(node) = self.lacking(nodes, number) {
                return Some(Due { number, node });
            }
        }
        None
    }

    /// The first of these nodes that has not got the packet of a number, which one of them sent.
    fn lacking(&self, nodes: NodeSet, number: u64) -> Option<NodeNo>
        ensures { IsLacking self.now (nodes_with (has nodes)) number result }
    {
        let packet = self.world.packets().get(number)?;
        if !takes_part(nodes, sender(packet)) {
            return None;
        }
        for place in 0..MOST_NODES {
            if self.lacks(nodes, number, NodeNo::of(place + 1)) {
                return Some(NodeNo::of(place + 1));
            }
        }
        None
    }

    /// Whether a node takes part, is up, and has not got the packet of a number.
    fn lacks(&self, nodes: NodeSet, number: u64, node: NodeNo) -> bool
        ensures { result ≡ (takes_part (nodes_with (has nodes)) node && (is_up_in self.now.world node && not (came_in self.now.arrivals number node))) }
    {
        takes_part(nodes, node) && self.world.is_up(node) && !self.arrivals.has(number, node)
    }

    /// All packets that were sent before come again to all nodes that are up, from the highest number down, so many times.
    pub fn replay(&mut self, count: u64, text: &mut Vec<u8>) -> Result<(), AllocError>
        ensures { OnOk result (Does (λ w. on_replay w count) self.old self.new text.old.items text.new.items) }
    {
        let sent = self.world.packets().len() as u64;
        if sent == 0 {
            return Ok(());
        }
        for _time in 0..count {
            self.all_come(sent, text)?;
        }
        Ok(())
    }

    /// The packets up to the one of this number come again to all nodes that are up, from the highest number down.
    fn all_come(&mut self, sent: u64, text: &mut Vec<u8>) -> Result<(), AllocError>
        ensures { OnOk result (Does (λ w. all_come (reverse (range_with_len 1 sent)) w) self.old self.new text.old.items text.new.items) }
    {
        let mut number = sent;
        while number > 0 {
            self.comes_to_all(number, text)?;
            number -= 1;
        }
        Ok(())
    }

    /// The packet of a number comes again to all nodes that are up.
    fn comes_to_all(&mut self, number: u64, text: &mut Vec<u8>) -> Result<(), AllocError>
        ensures { OnOk result (Does (λ w. comes_to number (node_numbers w) w) self.old self.new text.old.items text.new.items) }
    {
        for place in 0..MOST_NODES {
            let node = NodeNo::of(place + 1);
            if self.world.is_up(node) {
                self.deliver(number, node, text)?;
            }
        }
        Ok(())
    }
}

/// The place at which what stands beside a node is.
fn place_of(node: NodeNo) -> usize
    ensures { node ≡ suc result }
{
    node.number() as usize - 1
}

/// Adds the line that tells why a line is refused. An `Err` is want of memory, also if the line is refused for that.
fn refuse(text: &mut Vec<u8>, fault: WorldFault) -> Result<(), AllocError>
    ensures { OnOk result (IsRefused fault text.old.items text.new.items) }
{
    match fault {
        WorldFault::Memory => Err(AllocError),
        fault => write_declined(text, fault.number()),
    }
}

/// No session at any of the nodes 1 to so many. An `Err` is want of memory.
fn empty_sites(alloc: Global, nodes: u8) -> Result<Vec<Site>, AllocError>
    requires { nodes ≤ 9 }
    ensures { IfOk result (λ sites. AreEmpty nodes sites.items) }
{
    let mut sites = Vec::with_capacity(alloc, nodes as usize)?;
    for place in 0..nodes {
        sites.push(Site::none(alloc, NodeNo::of(place + 1)))?;
    }
    Ok(sites)
}

/// Whether a node takes part: all do if these are none.
fn takes_part(nodes: NodeSet, node: NodeNo) -> bool
    ensures { result ≡ takes_part (nodes_with (has nodes)) node }
{
    is_nobody(nodes) || nodes.has(node)
}

/// Whether these nodes are none.
fn is_nobody(nodes: NodeSet) -> bool
    ensures { result ≡ (length (nodes_with (has nodes)) == 0) }
{
    for number in 1..=MOST_NODES {
        if nodes.has(NodeNo::of(number)) {
            return false;
        }
    }
    true
}
