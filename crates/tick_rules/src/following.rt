//! A vote beyond what is known.

ghost use Rattle.std.specs.Prelude.{◌≡◌, ℕ, IfSome, option_map};
ghost use Rattle.std.specs.Option.{option_copied};
ghost use Rattle.node_model.specs.Starts.{follow};
ghost use Rattle.synod_acceptor.specs.Votes.{told_vote};
ghost use Rattle.tick_rules.specs.Standpoints.{decrees_of, start_of};

use fate_chain::Chain;
use synod_acceptor::Vote;

/// The chain of a vote that was told, if it is at a place beyond the chain that is known. It takes no memory.
pub fn follow<'a>(known: Option<&Chain>, told: Option<&'a Vote>) -> Option<&'a Chain>
    ensures start { option_map start_of (option_copied result) ≡ follow (decrees_of (option_copied known.entry)) (told_vote (option_copied told.entry)) }
    ensures id { (id : ℕ) → IfSome (told_vote (option_copied told.entry)) (λ top. top.id ≡ id) → IfSome (option_copied result) (λ chain. chain.id ≡ id) }
{
    let vote = told?;
    match known {
        Some(chain) if vote.chain.place() <= chain.place() => None,
        _ => Some(&vote.chain),
    }
}
