//! What is told of a message.

ghost use Rattle.std.specs.Prelude.{◌≡◌, ◌↔◌, IsTrue, Some, pred, length, nat_le, if◌then◌else◌};
ghost use Rattle.std.specs.Option.{option_copied};
ghost use Rattle.node_model.specs.Requests.{higher_top, is_higher, is_reached};
ghost use Rattle.node_model.specs.Sets.{is_majority};
ghost use Rattle.mc_types.specs.Nodes.{has};
ghost use Rattle.synod_acceptor.specs.Votes.{slot_in, told_vote, vote_of};
ghost use Rattle.mc_model.specs.synod.Packet.{top_at};
ghost use Rattle.waiting_requests.specs.Tops.{Passes, over};
ghost use Rattle.waiting_requests.specs.Waiting.{known_of};

use fate_chain::Chain;
use mc_types::NodeSet;
use synod_acceptor::Vote;

/// The higher of the vote so far and the one that is told, as far as there are any; at the same place and ballot the one so far.
pub(crate) fn higher<'a>(top: Option<&'a Vote>, told: Option<&'a Vote>) -> Option<&'a Vote>
    ensures { told_vote (option_copied result) ≡ higher_top (told_vote (option_copied top.entry)) (told_vote (option_copied told.entry)) }
{
    let Some(vote) = told else {
        return top;
    };
    if passes(vote, top) {
        return Some(vote);
    }
    top
}

/// Whether a vote is higher than the one so far, if there is one.
pub(crate) fn passes(vote: &Vote, top: Option<&Vote>) -> bool
    ensures passes { IsTrue result ↔ Passes (told_vote (option_copied top.entry)) (told_vote (Some vote.now)) }
    ensures higher { higher_top (told_vote (option_copied top.entry)) (told_vote (Some vote.now))
        ≡ (if result then told_vote (Some vote.now) else told_vote (option_copied top.entry)) }
{
    match top {
        Some(old) => is_higher(vote, old),
        None => true,
    }
}

/// Puts a vote in the place of the one so far, if there is one.
pub(crate) fn raise(top: &mut Option<Vote>, higher: Option<Vote>)
    ensures { told_vote top.new ≡ over (told_vote higher) (told_vote top.old) }
{
    if higher.is_some() {
        *top = higher;
    }
}

/// Whether a vote is at a higher place than another, or at the same place at a higher ballot.
fn is_higher(new: &Vote, old: &Vote) -> bool
    ensures { result ≡ is_higher (top_at (slot_in new.now) (vote_of new.now)) (top_at (slot_in old.now) (vote_of old.now)) }
{
    let place = new.chain.place();
    let before = old.chain.place();
    before < place || (before == place && old.ballot < new.ballot)
}

/// Whether what is known reaches the vote that was told, if there is one.
pub(crate) fn is_reached(known: Option<&Chain>, top: Option<&Vote>) -> bool
    ensures { result ≡ is_reached (known_of (option_copied known.entry)) (told_vote (option_copied top.entry)) }
{
    let Some(vote) = top else {
        return true;
    };
    match known {
        Some(chain) => vote.chain.place() <= chain.place(),
        None => false,
    }
}

/// Whether more than half of the nodes are in the set (Paxos Made Simple, 2.2).
pub(crate) fn is_majority(nodes: u8, set: NodeSet) -> bool
    ensures { result ≡ is_majority nodes (has set) }
{
    set.is_majority(nodes)
}
