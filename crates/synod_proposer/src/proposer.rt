//! The proposer.

ghost use Rattle.std.specs.Prelude.{◌≡◌, ◌≤◌, ◌⊎◌, ◌↔◌, ◌+◌, true, false, None, Ok, get_or, set, max, option_map, IfOk, IsErr, IsSome, OnOk, OnErr, if◌then◌else◌};
ghost use Rattle.mc_model.specs.synod.Ballot.{ballot_of};
ghost use Rattle.mc_model.specs.synod.Packet.{Prepare, slot_of};
ghost use Rattle.node_model.specs.Message.{unseen};
ghost use Rattle.node_model.specs.Proposer.{refused, runs_at, started_at};
ghost use Rattle.synod_acceptor.specs.Packets.{packet_of};
ghost use Rattle.synod_acceptor.specs.Votes.{report_of, slot_reported};
ghost use Rattle.synod_proposer.specs.Proposing.{IsOfSame, as_round, counted_in, highest_round, is_own, message_of, proposed_in};

use crate::fault::ProposerFault;
use crate::round::Round;
use mc_types::{Ballot, NodeNo, Slot};
use std::alloc::AllocError;
use std::marker::Model;
use synod_acceptor::{Author, Chain, MOST_DECREES, Packet, Report};

/// What a node proposes on one message: the round that runs, if any, and the highest round that it saw at each place of the chain.
/// All that is handed to it is of that message, and a chain has 19 places at most.
#[derive(Drop)]
pub struct Proposer {
    me: Author,
    nodes: u8,
    round: Option<Round>,
    seen: [u32; MOST_DECREES],
}

impl Model for Proposer {
    ghost use Rattle.synod_proposer.specs.Proposing.{Proposing};

    ghost Value = { Proposing };

    ghost view = { λ p. record {
      node = p.me.node;
      incarnation = p.me.incarnation;
      nodes = p.nodes;
      round = p.round;
      seen = p.seen;
    } };
}

impl Proposer {
    /// The proposer of a node in an incarnation, in a cluster of so many nodes. No round runs, and it saw none.
    pub fn make(me: Author, nodes: u8) -> Proposer
        ensures node { result.node ≡ me.node }
        ensures incarnation { result.incarnation ≡ me.incarnation }
        ensures nodes { result.nodes ≡ nodes }
        ensures message { message_of result ≡ unseen }
    {
        Proposer {
            me,
            nodes,
            round: None,
            seen: [0; MOST_DECREES],
        }
    }

    /// The slot of the round that runs; none if none does.
    pub fn running(&self) -> Option<Slot>
        ensures { result ≡ option_map (λ round. round.slot) self.now.round }
    {
        match &self.round {
            Some(round) => Some(round.slot()),
            None => None,
        }
    }

    /// Whether a round of this slot runs at this ballot. It takes no memory.
    pub fn runs_at(&self, slot: Slot, ballot: Ballot) -> bool
        ensures { result ≡ runs_at (message_of self.now).round slot ballot }
    {
        is_at(&self.round, slot, ballot)
    }

    /// Starts the round for a chain, in the place of the one that runs, and gives its Prepare. The round is one above the highest at
    /// that place: of the own record's (0 if there is none), of refusals and of earlier rounds. Rounds exactly if that would pass
    /// 2^32 - 1; then nothing changes. It takes no memory.
    pub fn start(&mut self, chain: Chain, own: u32) -> Result<Packet, ProposerFault>
        ensures rounds { IsErr result ↔ (4294967295 ≤ highest_round self.old (slot_of chain.id chain.decrees).place own) }
        ensures prepare { IfOk result (λ packet. packet_of packet ≡ Prepare self.old.node (slot_of chain.id chain.decrees)
            (ballot_of (highest_round self.old (slot_of chain.id chain.decrees).place own + 1) self.old.incarnation self.old.node)) }
        ensures started { OnOk result (message_of self.new ≡ started_at (message_of self.old) (slot_of chain.id chain.decrees)
            (highest_round self.old (slot_of chain.id chain.decrees).place own + 1)
            (ballot_of (highest_round self.old (slot_of chain.id chain.decrees).place own + 1) self.old.incarnation self.old.node) chain.decrees) }
        ensures same { IsOfSame self.old self.new }
        ensures err { OnErr result (self.new ≡ self.old) }
    {
        let slot = Slot {
            id: chain.id(),
            place: chain.place(),
        };
        let highest = own.max(seen_at(&self.seen, slot.place));
        let Some(number) = highest.checked_add(1) else {
            return Err(ProposerFault::Rounds);
        };
        let ballot = Ballot::of(number, self.me.incarnation, self.me.node);
        note(&mut self.seen, slot.place, number);
        self.round = Some(Round::start(ballot, chain));
        Ok(Packet::Prepare {
            from: self.me.node,
            slot,
            ballot,
        })
    }

    /// Counts a promise, if it is for the slot and at the ballot of the round that runs, and gives the Propose if it completes a
    /// majority of promises of different nodes: for the chain of the highest vote that they report, else for the round's own. Any
    /// other promise changes nothing. An `Err` is want of memory, which only a vote that is reported, or the Propose, needs; it
    /// changes nothing.
    pub fn on_promise(
        &mut self,
        from: NodeNo,
        ballot: Ballot,
        report: &Report,
    ) -> Result<Option<Packet>, AllocError>
        ensures elsewhere { runs_at (message_of self.old).round (slot_reported report.now) ballot ≡ false → (result ≡ Ok None) × (self.new ≡ self.old) }
        ensures counted { OnOk result (runs_at (message_of self.old).round (slot_reported report.now) ballot ≡ true →
            message_of self.new ≡ counted_in (message_of self.old) from (report_of report.now)) }
        ensures proposed { IfOk result (λ packet. runs_at (message_of self.old).round (slot_reported report.now) ballot ≡ true →
            option_map packet_of packet ≡ proposed_in self.old.node self.old.nodes (message_of self.old).round from (report_of report.now)) }
        ensures same { IsOfSame self.old self.new }
        ensures err { OnErr result (self.new ≡ self.old) }
        ensures memory { OnErr result (IsSome (report_of report.now)
            ⊎ IsSome (proposed_in self.old.node self.old.nodes (message_of self.old).round from (report_of report.now))) }
    {
        let Some(round) = &mut self.round else {
            return Ok(None);
        };
        if !round.is_at(report.slot(), ballot) {
            return Ok(None);
        }
        let Some(vote) = round.count(self.nodes, from, report)? else {
            return Ok(None);
        };
        Ok(Some(Packet::Propose {
            from: self.me.node,
            vote,
        }))
    }

    /// Takes in that a ballot was refused for a promise at another. One of another node or incarnation changes nothing. The round
    /// that runs ends if it is refused for a greater ballot. It takes no memory.
    pub fn on_refused(&mut self, slot: Slot, ballot: Ballot, promised: Ballot)
        ensures message { message_of self.new
            ≡ (if is_own self.old ballot then refused (message_of self.old) slot ballot promised else message_of self.old) }
        ensures same { IsOfSame self.old self.new }
    {
        if ballot.node() != self.me.node || ballot.incarnation() != self.me.incarnation {
            return;
        }
        let seen = seen_at(&self.seen, slot.place).max(promised.round());
        note(&mut self.seen, slot.place, seen);
        if is_at(&self.round, slot, ballot) && ballot < promised {
            self.drop_round();
        }
    }

    /// Ends the round that runs, if any. It takes no memory.
    pub fn drop_round(&mut self)
        ensures { self.new ≡ record self.old { round = None } }
    {
        self.round = None;
    }

    /// Proposes for this node in this incarnation from now on.
    pub fn act_for(&mut self, me: Author)
        ensures { self.new ≡ record self.old { node = me.node; incarnation = me.incarnation } }
    {
        self.me = me;
    }

    /// The same proposer once more. An `Err` is want of memory, which only a round that runs needs.
    pub fn copy(&self) -> Result<Proposer, AllocError>
        ensures copy { IfOk result (λ proposer. proposer ≡ self.now) }
        ensures memory { OnErr result (IsSome self.now.round) }
    {
        let round = match &self.round {
            Some(round) => Some(round.copy()?),
            None => None,
        };
        Ok(Proposer {
            me: self.me,
            nodes: self.nodes,
            round,
            seen: self.seen,
        })
    }
}

/// Whether a round of this slot at this ballot runs.
fn is_at(round: &Option<Round>, slot: Slot, ballot: Ballot) -> bool
    ensures { result ≡ runs_at (option_map as_round round.now) slot ballot }
{
    match round {
        Some(round) => round.is_at(slot, ballot),
        None => false,
    }
}

/// The highest round that was seen at a place; 0 if none was.
fn seen_at(seen: &[u32; MOST_DECREES], place: u8) -> u32
    ensures { result ≡ get_or seen.now place 0 }
{
    match seen.get(place as usize) {
        Some(round) => *round,
        None => 0,
    }
}

/// Notes the highest round that was seen at a place.
fn note(seen: &mut [u32; MOST_DECREES], place: u8, round: u32)
    ensures { seen.new ≡ set seen.old place round }
{
    if (place as usize) < MOST_DECREES {
        seen[place as usize] = round;
    }
}
