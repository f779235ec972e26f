//! A note.

ghost use Rattle.std.specs.Prelude.{◌≡◌, ◌↔◌, ◌<◌, ◌≤◌, ℕ, true, IfOk, IfSome, IsSome, IsTrue};
ghost use Rattle.node_model.specs.Message.{most_places};
ghost use Rattle.synod_acceptor.specs.Votes.{slot_in};
ghost use Rattle.mc_types.specs.Nodes.{has};
ghost use Rattle.noting_store.specs.Noted.{AreMost};

use mc_types::{MOST_NODES, MsgId, NodeNo, NodeSet, Slot};
use std::alloc::AllocError;
use std::marker::Model;
use synod_acceptor::Vote;

/// What made a node of a cluster know a chain: a vote, and the set of those who told of it, more than half of the nodes 1 to `nodes`, and no others.
#[derive(Drop)]
pub struct Note {
    nodes: u8,
    vote: Vote,
    voters: NodeSet,
}

impl Model for Note {
    ghost use Rattle.noting_store.specs.Noted.{AreMost, Note};

    ghost Value = { Note };

    ghost view = { λ n. record { nodes = n.nodes; vote = n.vote; voters = n.voters } };

    ghost invariant = { λ n. AreMost n.nodes n.voters };
}

impl Note {
    /// The note of a vote of which these nodes of a cluster of so many told. None exactly if one of them is above that, or if they are no more than half.
    pub fn make(nodes: u8, vote: Vote, voters: NodeSet) -> Option<Note>
        ensures made { IsSome result ↔ AreMost nodes voters }
        ensures value { IfSome result (λ note. note ≡ record { nodes = nodes; vote = vote; voters = voters }) }
    {
        if !are_within(nodes, voters) {
            return None;
        }
        if !voters.is_majority(nodes) {
            return None;
        }
        Some(Note {
            nodes,
            vote,
            voters,
        })
    }

    /// How many nodes the cluster has.
    pub fn nodes(&self) -> u8
        ensures { result ≡ self.now.nodes }
    {
        self.nodes
    }

    /// The vote.
    pub fn vote(&self) -> &Vote
        ensures { result.now ≡ self.now.vote }
    {
        &self.vote
    }

    /// Those who told of it.
    pub fn voters(&self) -> NodeSet
        ensures set { result ≡ self.now.voters }
        ensures most { AreMost self.now.nodes result }
    {
        self.voters
    }

    /// The message.
    pub fn id(&self) -> MsgId
        ensures { result ≡ self.now.vote.chain.id }
    {
        self.vote.chain.id()
    }

    /// The slot in which the chain of the vote stands.
    pub fn slot(&self) -> Slot
        ensures slot { result ≡ slot_in self.now.vote }
        ensures place { result.place < most_places }
    {
        self.vote.slot()
    }

    /// The same note once more. An `Err` is want of memory.
    pub fn copy(&self) -> Result<Note, AllocError>
        ensures { IfOk result (λ note. note ≡ self.now) }
    {
        Ok(Note {
            nodes: self.nodes,
            vote: self.vote.copy()?,
            voters: self.voters,
        })
    }
}

/// Whether all of these are nodes of a cluster of so many.
fn are_within(nodes: u8, voters: NodeSet) -> bool
    ensures { IsTrue result ↔ ((voter : ℕ) → has voters voter ≡ true → voter ≤ nodes) }
{
    for number in nodes..MOST_NODES {
        if voters.has(NodeNo::of(number + 1)) {
            return false;
        }
    }
    true
}
