//! What is due, and what may come of an attempt, whatever the chain.

ghost use Rattle.std.specs.Prelude.{◌≡◌, List, Option, Bool, ℕ};
ghost use Rattle.mc_model.specs.message.Decree.{Decree};
ghost use Rattle.mc_model.specs.node.Outcome.{IsOutcome};
ghost use Rattle.delivery.specs.Due.{IsDue};
ghost use Rattle.delivery.specs.Kept.{outcome_kept};
ghost use Rattle.delivery.specs.declared.due_decree.DueDecree.{DueDecree};

use crate::outcome::Outcome;

/// Of a chain at a moment one decree is due at most.
pub fn one_decree_is_due()
    ensures { (decrees : List Decree) (now : ℕ) (up : Bool) (one other : Option DueDecree) →
        IsDue decrees now up one → IsDue decrees now up other → one ≡ other }
{}

/// An outcome is one that the definitions allow: no other value of its type is there.
pub fn outcomes_are_possible(outcome: Outcome)
    ensures { IsOutcome (outcome_kept outcome) }
{}
