//! What happens to nodes that forget messages is what happens to nodes that do not.

ghost use Rattle.std.specs.Prelude.{◌≡◌, ◌∷◌, ℕ, ◌+◌, ◌<◌, List, false, map};
ghost use Rattle.mc_model.specs.cluster.Steps.{Cluster, setup_of};
ghost use Rattle.mc_model.specs.node.Input.{Input};
ghost use Rattle.node_laws.specs.Clusters.{MayHappen, NodeInput, kept_reached, WasSentBefore, comes_to, outputs_at};
ghost use Rattle.node_laws.specs.Runs.{IsOneOf, IsUpFor, MayCome};
ghost use Rattle.node_model.specs.Granted.{is_open_in};
ghost use Rattle.node_model.specs.Kept.{message_at};
ghost use Rattle.node_model.specs.Stepped.{stepped};
ghost use Rattle.rest_laws.specs.AtRest.{IsAtRest};
ghost use Rattle.rest_laws.specs.Behind.{StandsBehind, StartsBehind};
ghost use Rattle.rest_laws.specs.Cooled.{IsCalm};
ghost use Rattle.rest_laws.specs.Histories.{HasRun, event_of};
ghost use Rattle.rest_laws.specs.Remains.{Cools, Drops, Event, IsHistory, Remains, Starts, Takes, remains_after, remains_then};
ghost use Rattle.rest_laws.specs.Without.{Spares};

/// A node takes a step that is not about what it dropped, whatever it forgot of others: the run of the cluster that stands behind it goes on
/// by the same input, and gives out the same.
pub fn a_step_of_a_node_that_forgot_goes_on()
    ensures goes { (cluster : Cluster) (inputs : List NodeInput) (r : Remains) (node : ℕ) (input : Input) → StandsBehind cluster inputs r →
        IsOneOf (setup_of cluster node) → IsUpFor (r.kept node) input → MayCome (setup_of cluster node) (r.kept node) input →
        WasSentBefore r.packets input → Spares (r.gone node) input →
        StandsBehind cluster (comes_to node input ∷ inputs) (remains_then cluster r (Takes node input)) }
    ensures gives { (cluster : Cluster) (inputs : List NodeInput) (r : Remains) (node : ℕ) (input : Input) → StandsBehind cluster inputs r →
        IsOneOf (setup_of cluster node) → IsUpFor (r.kept node) input → MayCome (setup_of cluster node) (r.kept node) input →
        WasSentBefore r.packets input → Spares (r.gone node) input →
        (stepped (setup_of cluster node) (r.kept node) input).outputs ≡ outputs_at cluster inputs (comes_to node input) }
{}

/// A node drops a message that is at rest there: the same run stands behind it.
pub fn a_drop_goes_on()
    ensures { (cluster : Cluster) (inputs : List NodeInput) (r : Remains) (node id : ℕ) → StandsBehind cluster inputs r →
        IsAtRest (r.kept node) id → StandsBehind cluster inputs (remains_then cluster r (Drops node id)) }
{}

/// A node forgets what it heard of a message that is calm, and of which no attempt is open: the same run stands behind it.
pub fn a_cooling_goes_on()
    ensures { (cluster : Cluster) (inputs : List NodeInput) (r : Remains) (node id : ℕ) → StandsBehind cluster inputs r →
        IsCalm (r.kept node) id → ((place : ℕ) → is_open_in (message_at (r.kept node) id) place ≡ false) →
        StandsBehind cluster inputs (remains_then cluster r (Cools node id)) }
{}

/// A node starts anew, and hears nothing: behind it stands a run in which it starts anew, and then packets that were sent come again, by
/// which nothing goes out.
pub fn a_start_anew_goes_on()
    ensures { (cluster : Cluster) (inputs : List NodeInput) (r : Remains) (node lost : ℕ) → StandsBehind cluster inputs r →
        IsOneOf (setup_of cluster node) → (r.kept node).incarnation + lost < 9999 →
        StartsBehind cluster inputs node lost (remains_then cluster r (Starts node lost)) }
{}

/// Whatever happens to a cluster whose nodes drop messages that are at rest, forget what they heard of others that are calm, and start anew,
/// for every list of such events: a run of the cluster stands behind it, in which the same comes and the same is given out.
pub fn a_run_stands_behind()
    ensures { (cluster : Cluster) (events : List Event) → IsHistory cluster events → HasRun cluster events }
{}

/// And each run of the cluster is such a history, in which nothing is forgotten: so nothing is left out by these.
pub fn each_run_is_a_history()
    ensures history { (cluster : Cluster) (inputs : List NodeInput) → MayHappen cluster inputs → IsHistory cluster (map event_of inputs) }
    ensures kept { (cluster : Cluster) (inputs : List NodeInput) (node : ℕ) →
        (remains_after cluster (map event_of inputs)).kept node ≡ (kept_reached cluster inputs).kept node }
{}
