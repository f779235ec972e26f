//! Which packets came to which nodes.

ghost use Rattle.std.specs.Prelude.{◌≡◌, ℕ, ◌==◌, ◌≤◌, ◌<◌, ◌-◌, ◌&&◌, ◌||◌, true, false, get_or, length, set, OnErr, OnOk};
ghost use Rattle.script_runner.specs.Arrivals.{HaveCome, came_in};

use mc_types::{MOST_NODES, NodeNo, NodeSet};
use std::alloc::{AllocError, Global};
use std::marker::Model;

/// Of how many nodes it is kept which packets came.
const NODES: usize = MOST_NODES as usize;

/// Which packets came to which of the nodes 1 to 9, by the numbers of the packets.
#[derive(Drop)]
pub struct Arrivals {
    // At the place n - 1 the nodes to which the packet n came; one behind the last came to none.
    sets: Vec<NodeSet>,
    // At the place n - 1 the number up to which each packet came to node n.
    marks: [u64; NODES],
}

impl Model for Arrivals {
    ghost use Rattle.script_runner.specs.Arrivals.{AreMarked, Came};

    ghost Value = { Came };

    ghost view = { λ arrivals. record { sets = arrivals.sets.items; marks = arrivals.marks } };

    ghost invariant = { λ arrivals. AreMarked arrivals.sets.items arrivals.marks };
}

impl Arrivals {
    /// No packet came to any node.
    pub fn none(alloc: Global) -> Arrivals
        ensures { (number node : ℕ) → came_in result number node ≡ false }
    {
        Arrivals {
            sets: Vec::new(alloc),
            marks: [0; NODES],
        }
    }

    /// Whether the packet of a number came to a node.
    pub fn has(&self, number: u64, node: NodeNo) -> bool
        ensures { result ≡ came_in self.now number node }
    {
        let Some(place) = number.checked_sub(1) else {
            return false;
        };
        match self.sets.get(place as usize) {
            Some(nodes) => nodes.has(node),
            None => false,
        }
    }

    /// The packets below this number came to a node.
    pub fn first_open(&self, node: NodeNo) -> u64
        ensures { (number : ℕ) → 1 ≤ number → number < result → came_in self.now number node ≡ true }
    {
        mark_of(&self.marks, node).saturating_add(1)
    }

    /// The packet of a number, 1 or more, came to a node. An `Err` is want of memory, which only the first packet of this number or a
    /// higher one needs.
    pub fn add(&mut self, number: u64, node: NodeNo) -> Result<(), AllocError>
        requires { 1 ≤ number }
        ensures came { OnOk result ((other at : ℕ) → came_in self.new other at ≡ ((other == number && at == node) || came_in self.old other at)) }
        ensures memory { OnErr result (length self.old.sets < number) }
    {
        self.reach(number)?;
        self.sets[number as usize - 1].add(node);
        self.count_on(node);
        Ok(())
    }

    /// Makes a place for each packet up to the one of this number. An `Err` is want of memory.
    fn reach(&mut self, number: u64) -> Result<(), AllocError>
        ensures memory { OnErr result (length self.old.sets < number) }
        ensures reached { OnOk result (number ≤ length self.new.sets) }
        ensures same { (other at : ℕ) → came_in self.new other at ≡ came_in self.old other at }
    {
        while (self.sets.len() as u64) < number {
            self.sets.push(NodeSet::empty())?;
        }
        Ok(())
    }

    /// Goes on with the mark of a node.
    fn count_on(&mut self, node: NodeNo)
        ensures { self.new.sets ≡ self.old.sets }
    {
        let mark = came_on(&self.sets, node, mark_of(&self.marks, node));
        mark_at(&mut self.marks, node, mark);
    }
}

/// The number up to which each packet came to a node, if each did up to this one.
fn came_on(sets: &[NodeSet], node: NodeNo, from: u64) -> u64
    requires { HaveCome sets.now node from }
    ensures { HaveCome sets.now node result }
{
    let mut mark = from;
    while let Some(set) = sets.get(mark as usize) {
        if !set.has(node) {
            return mark;
        }
        mark += 1;
    }
    mark
}

/// The mark of a node.
fn mark_of(marks: &[u64; NODES], node: NodeNo) -> u64
    ensures mark { result ≡ get_or marks.now (node - 1) 0 }
    ensures least { 1 ≤ node }
{
    match marks.get(node.number() as usize - 1) {
        Some(mark) => *mark,
        None => 0,
    }
}

/// Sets the mark of a node.
fn mark_at(marks: &mut [u64; NODES], node: NodeNo, mark: u64)
    ensures { marks.new ≡ set marks.old (node - 1) mark }
{
    marks[node.number() as usize - 1] = mark;
}
