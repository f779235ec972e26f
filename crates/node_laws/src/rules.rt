//! The rules of a tick.

ghost use Rattle.std.specs.Prelude.{◌≡◌, ℕ, Bool, List, None, Some};
ghost use Rattle.mc_model.specs.node.Reach.{Reach};
ghost use Rattle.mc_model.specs.message.Decree.{Decree};
ghost use Rattle.mc_model.specs.node.Alone.{Node};
ghost use Rattle.mc_model.specs.node.FirstRule.{FitsRule, IsFirstRule, Rule};
ghost use Rattle.mc_model.specs.node.Setup.{Setup};
ghost use Rattle.node_model.specs.Kept.{Kept};
ghost use Rattle.node_model.specs.Rules.{Fitting, first_rule};
ghost use Rattle.node_laws.specs.Stands.{Stands};

/// Of the rules of a tick the one that is found for a message is the first that fits, with the place and the chain of its round;
/// and if none is found, none fits.
pub fn the_first_rule_is_found()
    ensures found { (setup : Setup) (k : Kept) (s : Node) → Stands setup k s → (reach : Reach) (id : ℕ) (fit : Fitting) →
        first_rule setup k reach id ≡ Some fit →
        IsFirstRule setup.nodes setup.node s.actor s.records reach id fit.start.place fit.start.chain fit.rule }
    ensures none { (setup : Setup) (k : Kept) (s : Node) → Stands setup k s → (reach : Reach) (id : ℕ) →
        first_rule setup k reach id ≡ None → (rule : Rule) (place : ℕ) (chain : List Decree) →
        FitsRule setup.nodes setup.node s.actor s.records reach id place chain rule → ⊥ }
{}
