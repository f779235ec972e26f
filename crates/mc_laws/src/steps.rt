//! Steps of nodes, by themselves and in a cluster.

ghost use Rattle.std.specs.Prelude.{◌≡◌, ◌∷◌, ◌++◌, ℕ, Bool, List};
ghost use Rattle.mc_model.specs.synod.Acceptor.{Records};
ghost use Rattle.mc_model.specs.node.Setup.{Setup};
ghost use Rattle.mc_model.specs.node.Actor.{Actor};
ghost use Rattle.mc_model.specs.node.Act.{Act};
ghost use Rattle.mc_model.specs.node.Effect.{did, saved};
ghost use Rattle.mc_model.specs.node.Input.{Input};
ghost use Rattle.mc_model.specs.node.Step.{IsExact};
ghost use Rattle.mc_model.specs.node.Alone.{AreStepsAlone, IsRunAlone, IsStepAlone, opened_new, reached_alone};
ghost use Rattle.mc_model.specs.node.Outputs.{packets_in};
ghost use Rattle.mc_model.specs.cluster.World.{IsRun, Run, World, reached, start, world_of};
ghost use Rattle.mc_model.specs.cluster.Steps.{Cluster, setup_of, IsStep, Step, AreSteps, CameTo, acts_in, by_node};
ghost use Rattle.mc_model.specs.cluster.Assembly.{EachCame, EachWasSent, acts_of, steps_of};
ghost use Rattle.mc_model.specs.cluster.Stores.{AreLeft, opened_in, openings, serials_over, start_over};

/// A run of steps is a run of their acts, so that every law over runs holds of it.
pub fn steps_are_runs()
    ensures { (cluster : Cluster) (steps : List Step) →
        AreSteps cluster (start cluster.nodes cluster.serials) steps →
        IsRun (start cluster.nodes cluster.serials) (acts_in steps) }
{}

/// From one node and one input the replies and the receipts are decided: those of too long a wait, those by what the node
/// knows, and the receipts; and so is what is settled, asked and given up.
pub fn replies_are_decided()
    ensures settles { (setup : Setup) (a : Actor) (records : Records) (input : Input) (acts others : List Act) →
        (one : IsExact setup a records input acts) (other : IsExact setup a records input others) → one.settles ≡ other.settles }
    ensures late { (setup : Setup) (a : Actor) (records : Records) (input : Input) (acts others : List Act) →
        (one : IsExact setup a records input acts) (other : IsExact setup a records input others) → one.late ≡ other.late }
    ensures asks { (setup : Setup) (a : Actor) (records : Records) (input : Input) (acts others : List Act) →
        (one : IsExact setup a records input acts) (other : IsExact setup a records input others) → one.asks ≡ other.asks }
    ensures abandons { (setup : Setup) (a : Actor) (records : Records) (input : Input) (acts others : List Act) →
        (one : IsExact setup a records input acts) (other : IsExact setup a records input others) →
        one.abandons ≡ other.abandons }
    ensures replies { (setup : Setup) (a : Actor) (records : Records) (input : Input) (acts others : List Act) →
        (one : IsExact setup a records input acts) (other : IsExact setup a records input others) → one.replies ≡ other.replies }
    ensures reports { (setup : Setup) (a : Actor) (records : Records) (input : Input) (acts others : List Act) →
        (one : IsExact setup a records input acts) (other : IsExact setup a records input others) → one.reports ≡ other.reports }
{}

/// If the acts of each node are a run of that node by itself, and each packet that comes was sent before, then all acts
/// together are a run of the cluster.
pub fn nodes_make_a_run()
    ensures { (nodes : ℕ) (serials : ℕ → ℕ) (acts : List (ℕ × Act)) →
        ((node : ℕ) → IsRunAlone nodes node (opened_new (serials node)) (acts_of node acts)) →
        EachWasSent (start nodes serials) acts →
        IsRun (start nodes serials) acts }
{}

/// A step of a node by itself, where its acts in a run have led it, is a step of the cluster, if its packet was sent.
pub fn a_step_alone_is_a_step()
    ensures { (cluster : Cluster) (acts : List (ℕ × Act)) (node : ℕ) (input : Input) (more : List Act) →
        IsRun (start cluster.nodes cluster.serials) acts →
        IsStepAlone (setup_of cluster node) (reached_alone node (opened_new (cluster.serials node))
        (acts_of node acts)) input more →
        CameTo (reached (start cluster.nodes cluster.serials) acts) input →
        IsStep (reached (start cluster.nodes cluster.serials) acts) (setup_of cluster node) input more }
{}

/// And a run of steps goes on by it.
pub fn a_run_of_steps_goes_on()
    ensures { (cluster : Cluster) (steps : List Step) (step : Step) →
        AreSteps cluster (start cluster.nodes cluster.serials) steps →
        IsStepAlone (setup_of cluster step.node) (reached_alone step.node (opened_new (cluster.serials step.node))
        (acts_of step.node (acts_in steps))) step.input step.acts →
        CameTo (reached (start cluster.nodes cluster.serials) (acts_in steps)) step.input →
        AreSteps cluster (start cluster.nodes cluster.serials) (step ∷ steps) }
{}

/// If the steps of each node are a run of steps of that node by itself, and each packet that comes was sent before, then all
/// steps together are a run of steps of the cluster.
pub fn nodes_make_a_run_of_steps()
    ensures { (cluster : Cluster) (steps : List Step) →
        ((node : ℕ) → AreStepsAlone (setup_of cluster node) (opened_new (cluster.serials node)) (steps_of node steps)) →
        EachCame (start cluster.nodes cluster.serials) steps →
        AreSteps cluster (start cluster.nodes cluster.serials) steps }
{}

/// A run over stores that were not new: the run that left them, a start anew of each node whose store was not new, and the
/// later acts are together one run, in which the packets are numbered on; and so it is if the later acts are those of steps.
pub fn a_run_over_old_stores_goes_on()
    ensures run { (run : Run) (fresh : ℕ → Bool) (lost serials : ℕ → ℕ) (later : List (ℕ × Act)) →
        AreLeft run fresh lost →
        IsRun (start_over run.nodes (world_of run).records (opened_in (world_of run) fresh lost) serials) later →
        IsRun (start run.nodes (serials_over run.serials fresh serials))
        (later ++ (openings run.nodes fresh lost serials ++ run.acts)) }
    ensures numbered { (run : Run) (fresh : ℕ → Bool) (lost serials : ℕ → ℕ) (later : List (ℕ × Act)) →
        AreLeft run fresh lost →
        IsRun (start_over run.nodes (world_of run).records (opened_in (world_of run) fresh lost) serials) later →
        (reached (start run.nodes (serials_over run.serials fresh serials))
        (later ++ (openings run.nodes fresh lost serials ++ run.acts))).packets
        ≡ (reached (start_over run.nodes (world_of run).records (opened_in (world_of run) fresh lost) serials) later).packets
        ++ (world_of run).packets }
    ensures steps { (run : Run) (fresh : ℕ → Bool) (lost : ℕ → ℕ) (cluster : Cluster) (steps : List Step) →
        AreLeft run fresh lost →
        AreSteps cluster
        (start_over run.nodes (world_of run).records (opened_in (world_of run) fresh lost) cluster.serials) steps →
        IsRun (start run.nodes (serials_over run.serials fresh cluster.serials))
        (acts_in steps ++ (openings run.nodes fresh lost cluster.serials ++ run.acts)) }
{}

/// What the acts of one node leave of it, and what they send, is what the node by itself says: its actor, its records, and the
/// packets that it gives out, ahead of those that were sent before.
pub fn acts_leave_what_the_node_says()
    ensures actor { (w : World) (node : ℕ) (acts : List Act) →
        (reached w (by_node node acts)).actors node ≡ did node (w.actors node) acts }
    ensures records { (w : World) (node : ℕ) (acts : List Act) →
        (reached w (by_node node acts)).records node ≡ saved (w.records node) acts }
    ensures packets { (w : World) (node : ℕ) (acts : List Act) →
        (reached w (by_node node acts)).packets ≡ packets_in node (w.actors node) (w.records node) acts ++ w.packets }
{}
