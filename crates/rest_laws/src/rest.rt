//! Messages at rest, and a node without them.

ghost use Rattle.std.specs.Prelude.{◌≡◌, ℕ, Bool, List, None, Some};
ghost use Rattle.mc_model.specs.node.Grant.{NotChosen};
ghost use Rattle.mc_model.specs.node.Input.{Input};
ghost use Rattle.mc_model.specs.node.Reach.{Reach};
ghost use Rattle.mc_model.specs.node.Setup.{Setup};
ghost use Rattle.mc_parts.specs.FirstMessage.{first_id};
ghost use Rattle.node_laws.specs.Examples.{delivers, played_alone};
ghost use Rattle.node_model.specs.Attempts.{grant_refusal};
ghost use Rattle.node_model.specs.Kept.{Kept};
ghost use Rattle.node_model.specs.Rules.{first_rule};
ghost use Rattle.node_model.specs.Stepped.{stepped};
ghost use Rattle.rest_laws.specs.AtRest.{AreAtRest, IsAtRest};
ghost use Rattle.rest_laws.specs.Without.{AllSpare, DoesWithout, Spares, step_without, without};

/// No rule of a tick fits a message at rest, and no attempt of it is granted.
pub fn nothing_is_due_at_rest()
    ensures tick { (setup : Setup) (k : Kept) (reach : Reach) (id : ℕ) → IsAtRest k id → first_rule setup k reach id ≡ None }
    ensures grant { (setup : Setup) (k : Kept) (id : ℕ) → IsAtRest k id → grant_refusal setup k id ≡ Some NotChosen }
{}

/// Whatever comes to a node that is not about messages that are gone, which are at rest there: without them it gives out the same, and
/// keeps the same but for them; and they stay at rest.
pub fn a_node_does_without_what_is_at_rest()
    ensures same { (setup : Setup) (k : Kept) (gone : ℕ → Bool) (input : Input) → AreAtRest gone k → Spares gone input →
        stepped setup (without gone k) input ≡ step_without gone (stepped setup k input) }
    ensures rest { (setup : Setup) (k : Kept) (gone : ℕ → Bool) (input : Input) → AreAtRest gone k → Spares gone input →
        AreAtRest gone (stepped setup k input).kept }
{}

/// So it is of a whole run of which nothing is about them.
pub fn a_run_does_without_what_is_at_rest()
    ensures { (setup : Setup) (gone : ℕ → Bool) (k : Kept) (inputs : List Input) → AreAtRest gone k → AllSpare gone inputs →
        DoesWithout setup gone k inputs }
{}

/// A worked row: a node alone delivers its first message, and tells the receipt; then the message is at rest.
pub fn a_delivered_message_is_at_rest()
    ensures { IsAtRest (played_alone delivers).kept first_id }
{}
