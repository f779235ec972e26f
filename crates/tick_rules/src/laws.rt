//! What is due, whatever the node.

ghost use Rattle.std.specs.Prelude.{◌≡◌, ℕ, Bool, ◌∷◌, List, length, Some};
ghost use Rattle.mc_model.specs.message.Submission.{Submission};
ghost use Rattle.mc_model.specs.message.Decree.{Decree};
ghost use Rattle.mc_model.specs.message.Chain.{taken_in};
ghost use Rattle.mc_model.specs.node.Reach.{Reach};
ghost use Rattle.mc_model.specs.node.Setup.{Setup};
ghost use Rattle.node_model.specs.Kept.{Kept};
ghost use Rattle.node_model.specs.Rules.{known_rule};
ghost use Rattle.tick_rules.specs.declared.attempted.Attempted.{Attempted};
ghost use Rattle.tick_rules.specs.declared.standpoint.Standpoint.{Standpoint};
ghost use Rattle.tick_rules.specs.Dues.{own_rule};
ghost use Rattle.tick_rules.specs.Reaching.{reached_by};
ghost use Rattle.tick_rules.specs.Seen.{IsSeen};

/// Of any node, what is due after the chain that it knows is the first rule of a tick that fits that chain.
pub fn what_is_due_is_the_first_rule()
    ensures { (setup : Setup) (k : Kept) (reach : Reach) (id : ℕ) (newest : Decree) (older : List Decree) (taken : Submission)
        (s : Standpoint) (a : Attempted) (cancelled : Bool) → taken_in (newest ∷ older) ≡ Some taken →
        IsSeen setup k id taken (length older) s a cancelled →
        known_rule setup k reach id (Some (newest ∷ older)) ≡ own_rule s a cancelled (reached_by reach id taken) newest older taken }
{}
