//! A tick of what is kept, as a step of the actor.

ghost use Rattle.std.specs.Prelude.{ℕ, Bool, List};
ghost use Rattle.mc_model.specs.node.Reach.{Reach};
ghost use Rattle.mc_model.specs.message.Ids.{IsNode};
ghost use Rattle.mc_model.specs.node.Alone.{Node};
ghost use Rattle.mc_model.specs.node.Input.{Tick};
ghost use Rattle.mc_model.specs.node.Setup.{Setup};
ghost use Rattle.node_model.specs.Kept.{Kept};
ghost use Rattle.node_model.specs.Stepped.{stepped};
ghost use Rattle.node_laws.specs.Stands.{Stands};
ghost use Rattle.node_laws.specs.Steps.{IsAtWork, StepsAs};

/// At a tick the clock rises, requests that waited 30 seconds are answered so, the questions of the others are asked again of which a
/// majority has not told, and for each message the first rule that fits gives up an attempt and starts a round. That is an exact step
/// of every actor for which what is kept stands, at whatever moment, whoever is up. The node is one of nine at most.
pub fn a_tick_is_exact()
    ensures { (setup : Setup) (k : Kept) (s : Node) → Stands setup k s → IsAtWork setup s → IsNode setup.node →
        (moment : ℕ) (reach : Reach) → StepsAs setup s (Tick moment reach) (stepped setup k (Tick moment reach)) }
{}
