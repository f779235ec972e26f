//! Ballots.

ghost use Rattle.std.specs.Prelude.{◌≡◌, ◌<◌, ◌↔◌, ℕ, IsOk, IfOk, IfErr, IsTrue};
ghost use Rattle.mc_model.specs.synod.Ballot.{IsBallot, IsBefore, IsRound, ballot_of, incarnation_in, proposer_of, round_in};
ghost use Rattle.mc_types.specs.declared.fault.TypeFault.TheVariants.{OutOfRange};

use crate::fault::TypeFault;
use crate::number::{Incarnation, LAST_INCARNATION, MOST_NODES, NodeNo};
use std::marker::Model;

/// A ballot, which orders what is proposed in one slot (Paxos Made Simple, sections 2.2 and 2.5): a round, 1 to
/// 2^32 - 1, then the incarnation of the node that proposes, then that node. Contracts see it as its number.
#[derive(Clone, Copy, Debug, PartialEq, Eq, PartialOrd, Ord)]
pub struct Ballot {
    number: u64,
}

impl Model for Ballot {
    ghost Value = { ℕ };

    ghost view = { λ ballot. ballot.number };

    ghost invariant = { λ ballot. IsBallot ballot.number };

    ghost inverse = { λ number. record { number = number } };
}

impl Ballot {
    /// The ballot of a round, an incarnation and a node; OutOfRange if the round is 0.
    pub fn make(round: u32, incarnation: Incarnation, node: NodeNo) -> Result<Ballot, TypeFault>
        ensures made { IsOk result ↔ IsRound round }
        ensures value { IfOk result (λ ballot. ballot ≡ ballot_of round incarnation node) }
        ensures fault { IfErr result (λ fault. fault ≡ OutOfRange) }
    {
        if round < 1 {
            return Err(TypeFault::OutOfRange);
        }
        Ok(Ballot::of(round, incarnation, node))
    }

    /// The ballot of a round that is known to be one, an incarnation and a node.
    pub fn of(round: u32, incarnation: Incarnation, node: NodeNo) -> Ballot
        requires { IsRound round }
        ensures { result ≡ ballot_of round incarnation node }
    {
        let incarnation = incarnation.number() as u64;
        let node = node.number() as u64;
        Ballot {
            number: 262144 * round as u64 + 16 * incarnation + node,
        }
    }

    /// The ballot of this number; OutOfRange if its round, its incarnation or its node is outside its range.
    pub fn of_number(number: u64) -> Result<Ballot, TypeFault>
        ensures made { IsOk result ↔ IsBallot number }
        ensures value { IfOk result (λ ballot. ballot ≡ number) }
        ensures fault { IfErr result (λ fault. fault ≡ OutOfRange) }
    {
        if !is_ballot(number) {
            return Err(TypeFault::OutOfRange);
        }
        Ok(Ballot { number })
    }

    /// Its number: 2^18 times the round, 2^4 times the incarnation, and the node, together. Numbers are ordered as
    /// their ballots.
    pub fn number(self) -> u64
        ensures value { result ≡ self }
        ensures ballot { IsBallot self }
    {
        self.number
    }

    /// What a proof takes of it: its number is one of a ballot. The call does nothing.
    pub fn bounds(self)
        ensures { IsBallot self }
    {}

    /// Its round, 1 to 2^32 - 1.
    pub fn round(self) -> u32
        ensures value { result ≡ round_in self }
        ensures range { IsRound result }
    {
        (self.number / 262144) as u32
    }

    /// The incarnation of the node that proposes at it.
    pub fn incarnation(self) -> Incarnation
        ensures { result ≡ incarnation_in self }
    {
        Incarnation::of((self.number / 16 % 16384) as u16)
    }

    /// The node that proposes at it.
    pub fn node(self) -> NodeNo
        ensures { result ≡ proposer_of self }
    {
        NodeNo::of((self.number % 16) as u8)
    }

    /// Whether it is below the other: by the rounds, then by the incarnations, then by the nodes. That is the order
    /// of their numbers.
    pub fn is_before(self, other: Ballot) -> bool
        ensures numbers { IsTrue result ↔ self < other }
        ensures parts { IsTrue result ↔
            IsBefore (round_in self, incarnation_in self, proposer_of self)
            (round_in other, incarnation_in other, proposer_of other) }
    {
        self.number < other.number
    }
}

/// Whether the number is a ballot.
fn is_ballot(number: u64) -> bool
    ensures { IsTrue result ↔ IsBallot number }
{
    let round = number / 262144;
    let incarnation = number / 16 % 16384;
    let node = number % 16;
    1 <= round
        && round <= u32::MAX as u64
        && 1 <= incarnation
        && incarnation <= LAST_INCARNATION as u64
        && 1 <= node
        && node <= MOST_NODES as u64
}
