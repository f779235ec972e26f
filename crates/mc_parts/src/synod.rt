//! Ballots, majorities, and what is chosen in one slot (Paxos Made Simple, section 2.2).

ghost use Rattle.std.specs.Prelude.{◌≡◌, ◌<◌, ◌≤◌, ◌↔◌, ℕ, Bool};
ghost use Rattle.mc_model.specs.message.Ids.{IsNode, IsIncarnation};
ghost use Rattle.mc_model.specs.synod.Majority.{IsMajority, PassesBoth};
ghost use Rattle.mc_model.specs.synod.Ballot.{IsRound, IsBallot, IsBefore, ballot_of, round_in, incarnation_in, proposer_of};
ghost use Rattle.mc_model.specs.synod.OneSlot.{SlotPast, Vote, KeepsTheSynod, IsChosen, was_voted, was_proposed};

/// A round, an incarnation and a node make a ballot that has them, and each ballot is made of those that it has. The order of
/// ballots is that of their rounds, then of their incarnations, then of their nodes.
pub fn ballots_have_their_parts()
    ensures made { (round incarnation node : ℕ) →
        IsRound round → IsIncarnation incarnation → IsNode node →
        IsBallot (ballot_of round incarnation node) }
    ensures round { (round incarnation node : ℕ) →
        IsIncarnation incarnation → IsNode node →
        round_in (ballot_of round incarnation node) ≡ round }
    ensures incarnation { (round incarnation node : ℕ) →
        IsIncarnation incarnation → IsNode node →
        incarnation_in (ballot_of round incarnation node) ≡ incarnation }
    ensures node { (round incarnation node : ℕ) →
        IsNode node →
        proposer_of (ballot_of round incarnation node) ≡ node }
    ensures whole { (ballot : ℕ) →
        IsBallot ballot → ballot ≡ ballot_of (round_in ballot) (incarnation_in ballot) (proposer_of ballot) }
    ensures order { (a b : ℕ) →
        IsBallot a → IsBallot b →
        (a < b) ↔ IsBefore (round_in a, incarnation_in a, proposer_of a) (round_in b, incarnation_in b, proposer_of b) }
{}

/// Two majorities have a node in common.
pub fn majorities_meet()
    ensures { (nodes : ℕ) (one other : ℕ → Bool) →
        IsMajority nodes one → IsMajority nodes other →
        PassesBoth nodes one other }
{}

/// Once a chain is chosen at a ballot, every vote of the slot from that ballot on carries it, and so does every proposal.
pub fn choice_is_stable()
    ensures votes { (nodes : ℕ) (past : SlotPast) (chosen : Vote) (acceptor : ℕ) (vote : Vote) →
        KeepsTheSynod nodes past → IsChosen nodes (was_voted past) chosen →
        was_voted past acceptor vote → chosen.ballot ≤ vote.ballot → vote.chain ≡ chosen.chain }
    ensures proposals { (nodes : ℕ) (past : SlotPast) (chosen vote : Vote) →
        KeepsTheSynod nodes past → IsChosen nodes (was_voted past) chosen →
        was_proposed past vote → chosen.ballot ≤ vote.ballot → vote.chain ≡ chosen.chain }
{}
