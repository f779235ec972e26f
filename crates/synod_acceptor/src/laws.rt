//! That verdicts are those of the acceptor of the definitions.

ghost use Rattle.synod_acceptor.specs.Laws.{PreparesKeepTheRule, ProposesKeepTheRule};

/// What is judged is what the acceptor of the definitions does: it sends this answer, and its records are then those with this
/// record in the slot.
pub fn verdicts_keep_the_rule()
    ensures prepares { PreparesKeepTheRule }
    ensures proposes { ProposesKeepTheRule }
{}
