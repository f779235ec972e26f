//! The learner.

ghost use Rattle.std.specs.Prelude.{◌≡◌, ◌<◌, ◌↔◌, ◌∷◌, [], ℕ, List, option_map, length, IfOk, IfSome, IsTrue, OnOk, OnErr};
ghost use Rattle.std.specs.Option.{option_copied};
ghost use Rattle.std.specs.Vec.{vec_len, vec_capacity};
ghost use Rattle.mc_model.specs.synod.Packet.{Packet, Voted};
ghost use Rattle.node_model.specs.Learner.{heard, makes_known};
ghost use Rattle.node_model.specs.Message.{unseen};
ghost use Rattle.synod_acceptor.specs.Votes.{slot_in, vote_of};
ghost use Rattle.synod_learner.specs.Counts.{AreOfOthers, Grows, IsChainPlace, IsCountPlace, IsCounted, IsVotersAt, WithChain, counts_of, known_in, with_count};
ghost use Rattle.synod_learner.specs.Hearing.{HasHeard, IsRecount, IsRecountFor, IsShorter, MakesKnown, known_if, message_in, recounted};

use crate::recount::Recount;
use crate::tally::{Tally, tally_of};
use mc_types::{MsgId, NodeNo, NodeSet};
use std::alloc::{AllocError, Global};
use std::marker::Model;
use synod_acceptor::{Chain, Vote};

/// What a node learns of the votes of which it is told: for each vote the set of those who cast it, and the chain of each message
/// that is known to be chosen.
///
/// A chain is known if more than half of the nodes told of their votes for it at one ballot. Of a message the longest is known, and
/// of equally long ones the first. A node keeps the votes on each message in a learner of its own, so that a call costs the few
/// votes of a message.
#[derive(Drop)]
pub struct Learner {
    nodes: u8,
    tallies: Vec<Tally>,
    known: Vec<Chain>,
}

impl Model for Learner {
    ghost use Rattle.synod_learner.specs.Counts.{Learned};

    ghost Value = { Learned };

    ghost use Rattle.synod_learner.specs.Counts.{counts_of};
    ghost use Rattle.synod_learner.specs.Hearing.{IsCoherent};

    ghost view = { λ l. record {
      nodes = l.nodes;
      counts = counts_of l.tallies.items;
      known = l.known.items;
    } };

    ghost invariant = { λ l. IsCoherent l.nodes (counts_of l.tallies.items) l.known.items };
}

impl Learner {
    /// A learner of a cluster of so many nodes that was told of no vote.
    pub fn make(alloc: Global, nodes: u8) -> Learner
        ensures nodes { result.nodes ≡ nodes }
        ensures nothing { HasHeard result [] }
        ensures message { (id : ℕ) → message_in result id ≡ unseen }
    {
        Learner {
            nodes,
            tallies: Vec::new(alloc),
            known: Vec::new(alloc),
        }
    }

    /// Counts a vote that a node tells of. `true` if its chain is known from then on: more than half of the nodes told of it at
    /// this ballot, and what was known of the message was shorter or nothing. An `Err` is want of memory, and changes nothing; a
    /// vote that was counted already takes none.
    pub fn on_vote(&mut self, from: NodeNo, vote: &Vote) -> Result<bool, AllocError>
        ensures nodes { self.new.nodes ≡ self.old.nodes }
        ensures heard { OnOk result ((received : List Packet) → HasHeard self.old received →
            HasHeard self.new (Voted from (slot_in vote.now) (vote_of vote.now) ∷ received)) }
        ensures grows { IfOk result (λ grows. grows ≡ makes_known self.old.nodes
            (heard (message_in self.old vote.now.chain.id) from (vote_of vote.now)) (vote_of vote.now)) }
        ensures message { IfOk result (λ grows. message_in self.new vote.now.chain.id
            ≡ known_if grows (heard (message_in self.old vote.now.chain.id) from (vote_of vote.now)) vote.now.chain.decrees) }
        ensures err { OnErr result (self.new ≡ self.old) }
        ensures memory { OnErr result (IsCounted self.old.counts from (slot_in vote.now) (vote_of vote.now) → ⊥) }
    {
        let place = tally_of(&self.tallies, vote);
        let mut voters = voters_at(&self.tallies, place);
        if voters.has(from) {
            return Ok(false);
        }
        voters.add(from);
        let grows = makes_known(&self.known, self.nodes, voters, vote);
        take_in(
            &mut self.tallies,
            &mut self.known,
            place,
            vote,
            voters,
            grows,
        )?;
        Ok(grows)
    }

    /// How a vote that a node tells of is counted, if its chain was voted for at its ballot before, and does not become known by it. None if the
    /// vote is the first of its chain and ballot, or makes its chain known. It takes no memory.
    pub fn recount(&self, from: NodeNo, vote: &Vote) -> Option<Recount>
        ensures { IsRecountFor self.now from vote.now result }
    {
        let Some(place) = tally_of(&self.tallies, vote) else {
            return None;
        };
        let mut voters = voters_at(&self.tallies, Some(place));
        voters.add(from);
        if makes_known(&self.known, self.nodes, voters, vote) {
            return None;
        }
        Some(Recount { place, voters })
    }

    /// Counts a vote as `recount` has it of this learner as it is. It takes no memory.
    pub fn count_anew(&mut self, recount: Recount)
        requires { IsRecount self.old recount }
        ensures { self.new ≡ recounted self.old recount }
    {
        self.tallies[recount.place].voters = recount.voters;
    }

    /// The chain of a message that is known to be chosen, if any. It takes no memory.
    pub fn known(&self, id: MsgId) -> Option<&Chain>
        ensures known { option_map (λ chain. chain.decrees) (option_copied result) ≡ known_in self.now.known id }
        ensures id { IfSome (option_copied result) (λ chain. chain.id ≡ id) }
    {
        let place = chain_place(&self.known, id)?;
        Some(&self.known[place])
    }

    /// The same learner once more.
    pub fn copy(&self) -> Result<Learner, AllocError>
        ensures { IfOk result (λ learner. learner ≡ self.now) }
    {
        Ok(Learner {
            nodes: self.nodes,
            tallies: tallies_copied(*self.tallies.allocator(), &self.tallies)?,
            known: chains_copied(*self.known.allocator(), &self.known)?,
        })
    }
}

/// Whether a vote's chain is known from then on, if these nodes cast it.
fn makes_known(known: &[Chain], nodes: u8, voters: NodeSet, vote: &Vote) -> bool
    ensures { AreOfOthers known.now → IsTrue result ↔ MakesKnown nodes known.now voters vote.now }
{
    voters.is_majority(nodes) && knows_less(known, &vote.chain)
}

/// Takes in that these nodes cast a vote whose tally stands there, and its chain if it is known from then on.
fn take_in(
    tallies: &mut Vec<Tally>,
    known: &mut Vec<Chain>,
    place: Option<usize>,
    vote: &Vote,
    voters: NodeSet,
    grows: bool,
) -> Result<(), AllocError>
    requires { IsCountPlace (counts_of tallies.old.items) (slot_in vote.now) (vote_of vote.now) place }
    ensures counts { OnOk result (counts_of tallies.new.items ≡ with_count (counts_of tallies.old.items) place
        (record { slot = slot_in vote.now; vote = vote_of vote.now; voters = voters })) }
    ensures known { OnOk result (AreOfOthers known.old.items → Grows grows known.old.items vote.now.chain known.new.items) }
    ensures err { OnErr result ((tallies.new.items ≡ tallies.old.items) × (known.new.items ≡ known.old.items)) }
{
    if !grows {
        count(tallies, place, vote, voters)?;
        return Ok(());
    }
    let chain = vote.chain.copy()?;
    known.reserve(1)?;
    count(tallies, place, vote, voters)?;
    learn(known, chain);
    Ok(())
}

/// Those who cast the vote whose tally stands there; nobody if it has none.
fn voters_at(tallies: &[Tally], place: Option<usize>) -> NodeSet
    requires { IfSome place (λ place. place < length tallies.now) }
    ensures { IsVotersAt (counts_of tallies.now) place result }
{
    match place {
        Some(place) => tallies[place].voters,
        None => NodeSet::empty(),
    }
}

/// Puts the set of those who cast a vote where its tally stands, or after the others.
fn count(
    tallies: &mut Vec<Tally>,
    place: Option<usize>,
    vote: &Vote,
    voters: NodeSet,
) -> Result<(), AllocError>
    requires { IsCountPlace (counts_of tallies.old.items) (slot_in vote.now) (vote_of vote.now) place }
    ensures ok { OnOk result (counts_of tallies.new.items ≡ with_count (counts_of tallies.old.items) place
        (record { slot = slot_in vote.now; vote = vote_of vote.now; voters = voters })) }
    ensures err { OnErr result (tallies.new.items ≡ tallies.old.items) }
{
    let Some(place) = place else {
        let vote = vote.copy()?;
        tallies.push(Tally { vote, voters })?;
        return Ok(());
    };
    tallies[place].voters = voters;
    Ok(())
}

/// Where the chain of a message stands.
fn chain_place(chains: &[Chain], id: MsgId) -> Option<usize>
    ensures { IsChainPlace chains.now id result }
{
    for place in 0..chains.len() {
        if chains[place].id() == id {
            return Some(place);
        }
    }
    None
}

/// Whether what is known of a chain's message is shorter, or nothing.
fn knows_less(known: &[Chain], chain: &Chain) -> bool
    ensures { AreOfOthers known.now → IsTrue result ↔ IsShorter (known_in known.now chain.now.id) chain.now.decrees }
{
    match chain_place(known, chain.id()) {
        Some(place) => known[place].place() < chain.place(),
        None => true,
    }
}

/// Puts a chain in the place of that of its message, or after the others. There is room for it.
fn learn(known: &mut Vec<Chain>, chain: Chain)
    requires { vec_len known.old < vec_capacity known.old }
    ensures { AreOfOthers known.old.items → WithChain known.old.items chain known.new.items }
{
    let Some(place) = chain_place(known, chain.id()) else {
        known.push_reserved(chain);
        return;
    };
    known[place] = chain;
}

/// Copies of tallies.
fn tallies_copied(alloc: Global, tallies: &[Tally]) -> Result<Vec<Tally>, AllocError>
    ensures { IfOk result (λ copies. copies.items ≡ tallies.now) }
{
    let mut copies = Vec::with_capacity(alloc, tallies.len())?;
    for tally in tallies {
        copies.push(Tally {
            vote: tally.vote.copy()?,
            voters: tally.voters,
        })?;
    }
    Ok(copies)
}

/// Copies of chains.
fn chains_copied(alloc: Global, chains: &[Chain]) -> Result<Vec<Chain>, AllocError>
    ensures { IfOk result (λ copies. copies.items ≡ chains.now) }
{
    let mut copies = Vec::with_capacity(alloc, chains.len())?;
    for chain in chains {
        copies.push(chain.copy()?)?;
    }
    Ok(copies)
}
