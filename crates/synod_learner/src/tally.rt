//! Tallies of votes.

ghost use Rattle.std.specs.Prelude.{◌≡◌, ◌↔◌, true, IsTrue, MatchOption};
ghost use Rattle.synod_acceptor.specs.Votes.{slot_in, vote_of};
ghost use Rattle.synod_learner.specs.Counts.{IsCountPlace, counts_of};

use mc_types::NodeSet;
use synod_acceptor::Vote;

/// A vote, and the nodes that cast it.
#[derive(Drop)]
pub struct Tally {
    pub vote: Vote,
    pub voters: NodeSet,
}

/// Where the tally of a vote stands: of this chain, at this ballot.
pub fn tally_of(tallies: &[Tally], vote: &Vote) -> Option<usize>
    ensures { IsCountPlace (counts_of tallies.now) (slot_in vote.now) (vote_of vote.now) result }
{
    for place in 0..tallies.len() {
        if tallies[place].vote.is(vote) {
            return Some(place);
        }
    }
    None
}
