//! Sets of nodes.

ghost use Rattle.std.specs.Prelude.{◌≡◌, ◌≤◌, ◌↔◌, ℕ, ◌==◌, ◌||◌, false, IsTrue};
ghost use Rattle.mc_model.specs.synod.Majority.{IsMajority, count};
ghost use Rattle.mc_types.specs.Nodes.{has};

use crate::number::{MOST_NODES, NodeNo};
use std::marker::Model;

/// A set of nodes, in 16 bits: bit n - 1 is set for node n. It takes no memory. Contracts see it as the number of its
/// bits, of which `has` says whether a node is in it.
#[derive(Clone, Copy, Debug, PartialEq, Eq)]
pub struct NodeSet {
    bits: u16,
}

impl Model for NodeSet {
    ghost use Rattle.std.specs.Prelude.{ℕ};

    ghost Value = { ℕ };

    ghost view = { λ set. set.bits };

    ghost inverse = { λ bits. record { bits = bits } };
}

impl NodeSet {
    /// No node.
    pub fn empty() -> NodeSet
        ensures { (node : ℕ) → has result node ≡ false }
    {
        NodeSet { bits: 0 }
    }

    /// Puts a node into the set.
    pub fn add(&mut self, node: NodeNo)
        ensures { (other : ℕ) → has self.new other ≡ (has self.old other || other == node) }
    {
        self.bits |= 1 << (node.number() - 1);
    }

    /// Whether the node is in the set.
    pub fn has(self, node: NodeNo) -> bool
        ensures { result ≡ has self node }
    {
        self.has_number(node.number())
    }

    /// Whether more than half of the nodes 1 to this one are in the set (Paxos Made Simple, section 2.2).
    pub fn is_majority(self, nodes: u8) -> bool
        ensures { IsTrue result ↔ IsMajority nodes (has self) }
    {
        2 * self.among(nodes) > nodes as u16
    }

    /// How many of the nodes 1 to this one are in the set.
    fn among(self, nodes: u8) -> u16
        ensures count { result ≡ count (has self) nodes }
        ensures most { result ≤ nodes }
    {
        let mut count = 0;
        for node in 0..nodes {
            if self.has_number(node + 1) {
                count += 1;
            }
        }
        count
    }

    /// Whether the node of this number is in the set.
    fn has_number(self, node: u8) -> bool
        ensures { result ≡ has self node }
    {
        1 <= node && node <= MOST_NODES && self.bits & (1 << (node - 1)) != 0
    }
}
