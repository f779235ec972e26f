//! A round.

ghost use Rattle.std.specs.Prelude.{◌≡◌, ◌⊎◌, ◌↔◌, true, None, Some, IfOk, IsSome, IsTrue, OnOk, OnErr};
ghost use Rattle.mc_types.specs.Nodes.{has};
ghost use Rattle.mc_model.specs.synod.Majority.{IsMajority};
ghost use Rattle.mc_model.specs.synod.Packet.{Slot as SlotValue, slot_of};
ghost use Rattle.node_model.specs.Proposer.{chain_offered, completes, higher_of, runs_at};
ghost use Rattle.synod_acceptor.specs.Votes.{report_of, slot_in, slot_reported, vote_of};
ghost use Rattle.synod_proposer.specs.Proposing.{IsCounted, IsFresh, Offers, as_round, over};
ghost use Rattle.synod_proposer.specs.Rounds.{IsIn, votes_of};

use mc_types::{Ballot, NodeNo, NodeSet, Slot};
use std::alloc::AllocError;
use std::marker::Model;
use synod_acceptor::{Chain, Report, Vote};

/// A round: its ballot, the chain that it is for, the nodes that promised, and the highest vote that they reported.
#[derive(Drop)]
pub struct Round {
    ballot: Ballot,
    own: Chain,
    promised: NodeSet,
    highest: Option<Vote>,
}

impl Model for Round {
    ghost use Rattle.synod_proposer.specs.Proposing.{Running};

    ghost Value = { Running };

    ghost use Rattle.mc_model.specs.synod.Packet.{slot_of};
    ghost use Rattle.synod_proposer.specs.Rounds.{IsIn, running_of};

    ghost view = { running_of };

    ghost invariant = { λ r. IsIn (slot_of r.own.id r.own.decrees) r.highest };
}

impl Round {
    /// A round at a ballot, for a chain.
    pub fn start(ballot: Ballot, own: Chain) -> Round
        ensures { IsFresh result (slot_of own.id own.decrees) ballot own.decrees }
    {
        Round {
            ballot,
            own,
            promised: NodeSet::empty(),
            highest: None,
        }
    }

    /// The slot of its chain.
    pub fn slot(&self) -> Slot
        ensures { result ≡ self.now.slot }
    {
        Slot {
            id: self.own.id(),
            place: self.own.place(),
        }
    }

    /// Whether it is of this slot and at this ballot.
    pub fn is_at(&self, slot: Slot, ballot: Ballot) -> bool
        ensures { result ≡ runs_at (Some (as_round self.now)) slot ballot }
    {
        self.slot() == slot && self.ballot == ballot
    }

    /// Counts a promise of a node with its report, and gives the vote that is asked for then, if the promise completes a majority.
    /// An `Err` is want of memory, which only a vote that is reported, or that is asked for, needs; it changes nothing.
    pub fn count(
        &mut self,
        nodes: u8,
        from: NodeNo,
        report: &Report,
    ) -> Result<Option<Vote>, AllocError>
        requires { slot_reported report.now ≡ self.old.slot }
        ensures counted { OnOk result (IsCounted self.old from (report_of report.now) self.new) }
        ensures offers { IfOk result (λ vote. Offers nodes self.old self.new (votes_of vote)) }
        ensures slot { IfOk result (λ vote. IsIn self.old.slot vote) }
        ensures err { OnErr result (self.new ≡ self.old) }
        ensures memory { OnErr result (IsSome (report_of report.now) ⊎ (completes nodes (as_round self.old) from ≡ true)) }
    {
        let mut promised = self.promised;
        promised.add(from);
        let above = reported_above(&self.highest, report)?;
        let offer = if completes(nodes, self.promised, promised) {
            let chain = chain_for(&above, &self.highest, &self.own)?;
            Some(Vote {
                ballot: self.ballot,
                chain,
            })
        } else {
            None
        };
        self.promised = promised;
        if above.is_some() {
            self.highest = above;
        }
        Ok(offer)
    }

    /// The same round once more.
    pub fn copy(&self) -> Result<Round, AllocError>
        ensures { IfOk result (λ round. round ≡ self.now) }
    {
        let highest = match &self.highest {
            Some(vote) => Some(vote.copy()?),
            None => None,
        };
        Ok(Round {
            ballot: self.ballot,
            own: self.own.copy()?,
            promised: self.promised,
            highest,
        })
    }
}

/// Whether these nodes are a majority, and those before were none.
fn completes(nodes: u8, before: NodeSet, after: NodeSet) -> bool
    ensures { IsTrue result ↔ (IsMajority nodes (has before) → ⊥) × IsMajority nodes (has after) }
{
    !before.is_majority(nodes) && after.is_majority(nodes)
}

/// The vote that is reported, once more, if it is above the highest so far.
fn reported_above(highest: &Option<Vote>, report: &Report) -> Result<Option<Vote>, AllocError>
    ensures memory { OnErr result (IsSome (report_of report.now)) }
    ensures vote { IfOk result (λ above. over (votes_of above) (votes_of highest.now) ≡ higher_of (votes_of highest.now) (report_of report.now)) }
    ensures slot { IfOk result (λ above. IsIn (slot_reported report.now) above) }
{
    let Report::Held(vote) = report else {
        return Ok(None);
    };
    if let Some(top) = highest {
        if top.ballot >= vote.ballot {
            return Ok(None);
        }
    }
    Ok(Some(vote.copy()?))
}

/// The chain of the vote that is reported above the others, else of the highest so far, else a round's own.
fn chain_for(above: &Option<Vote>, highest: &Option<Vote>, own: &Chain) -> Result<Chain, AllocError>
    ensures chain { IfOk result (λ chain. chain.decrees ≡ chain_offered (over (votes_of above.now) (votes_of highest.now)) own.now.decrees) }
    ensures slot { IfOk result (λ chain. (slot : SlotValue) → IsIn slot above.now → IsIn slot highest.now →
        slot_of own.now.id own.now.decrees ≡ slot → slot_of chain.id chain.decrees ≡ slot) }
{
    match (above, highest) {
        (Some(vote), _) => vote.chain.copy(),
        (None, Some(vote)) => vote.chain.copy(),
        (None, None) => own.copy(),
    }
}
