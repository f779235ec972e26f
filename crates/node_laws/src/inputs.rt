//! Runs of what is kept, as runs of the actor.

ghost use Rattle.std.specs.Prelude.{List};
ghost use Rattle.mc_model.specs.node.Alone.{Node, opened_new as node_new};
ghost use Rattle.mc_model.specs.node.Input.{Input};
ghost use Rattle.mc_model.specs.node.Setup.{Setup};
ghost use Rattle.node_model.specs.Kept.{Kept};
ghost use Rattle.node_model.specs.Stepped.{opened_new, stepped};
ghost use Rattle.node_laws.specs.Runs.{IsOneOf, IsUpFor, MayAllCome, MayCome, RunsAs};
ghost use Rattle.node_laws.specs.Stands.{Stands};
ghost use Rattle.node_laws.specs.Steps.{StepsAs};

/// Whatever may come to a node, by what it keeps, makes a step of what is kept that is an exact step of every actor for which it
/// stands, which that one may take by itself; it gives out the same, and stands for the next one.
pub fn a_step_is_exact()
    ensures { (setup : Setup) → IsOneOf setup → (k : Kept) (s : Node) → Stands setup k s →
        (input : Input) → IsUpFor k input → MayCome setup k input → StepsAs setup s input (stepped setup k input) }
{}

/// So a node that opens with a new store runs as the actor of the model does: for every list of inputs that may come to it, stops
/// and starts among them, there are steps of the actor with these inputs, each of them exact and such that the actor may take it by
/// itself, which give out the same.
pub fn a_run_is_exact()
    ensures { (setup : Setup) → IsOneOf setup → (inputs : List Input) → MayAllCome setup (opened_new setup) inputs →
        RunsAs setup (opened_new setup) (node_new setup.first_serial) inputs }
{}
