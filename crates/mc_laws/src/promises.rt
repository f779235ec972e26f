//! The headline, over runs and over every list of steps.

ghost use Rattle.std.specs.Prelude.{◌≡◌, ◌∷◌, ◌++◌, ℕ, List, Some};
ghost use Rattle.mc_model.specs.message.Decree.{Decree, Final, Delivered};
ghost use Rattle.mc_model.specs.node.Act.{Reports};
ghost use Rattle.mc_model.specs.synod.Lists.{In};
ghost use Rattle.mc_model.specs.cluster.World.{Deed, Run, start};
ghost use Rattle.mc_model.specs.cluster.Steps.{StepRun, world_after};
ghost use Rattle.mc_model.specs.cluster.Fate.{CameBefore, States, IsGrant, IsDelivery, IsToldChosen};
ghost use Rattle.mc_model.specs.cluster.Loose.{IsLooseRun, LooseRun, end_of};

/// Of one message no two statements of a final state differ; after a statement, as ESME_ROK to its cancel_sm, no attempt of it
/// is ever granted; and behind each statement of DELIVERED, as a receipt, stands an attempt that was granted and then answered
/// ESME_ROK. It is so of every run of the cluster, and of every loose one: it does not rest on what nodes answer that states no
/// fate, nor on when they are up, have room, ask, tell or settle.
pub fn headline()
    ensures one_fate { (run : LooseRun) (one other : Deed) (id : ℕ) (first second : Final) →
        In one (end_of run).past → In other (end_of run).past →
        States one id first → States other id second → first ≡ second }
    ensures no_grant { (run : LooseRun) (stating granting : Deed) (id : ℕ) (final : Final) →
        CameBefore stating granting (end_of run).past →
        States stating id final → IsGrant granting id → ⊥ }
    ensures delivery { (run : LooseRun) (newer : List Deed) (stating : Deed) (older : List Deed) (id : ℕ) →
        (end_of run).past ≡ newer ++ stating ∷ older →
        (states : States stating id Delivered) → IsDelivery id states.chain older }
{}

/// Each run is a loose one.
pub fn each_run_is_loose()
    ensures { (run : Run) → IsLooseRun (start run.nodes run.serials) run.acts }
{}

/// For every list of steps in which packets are delivered, lost, repeated or reordered and nodes restart with their stable
/// records, no two statements of a final state for one message id differ; after ESME_ROK to its cancel_sm no attempt of it is
/// ever granted; each DELIVRD receipt stands on an attempt that was chosen, granted and answered ESME_ROK.
pub fn headline_over_steps()
    ensures one_fate { (run : StepRun) (one other : Deed) (id : ℕ) (first second : Final) →
        In one (world_after run).past → In other (world_after run).past →
        States one id first → States other id second → first ≡ second }
    ensures no_grant { (run : StepRun) (stating granting : Deed) (id : ℕ) (final : Final) →
        CameBefore stating granting (world_after run).past →
        States stating id final → IsGrant granting id → ⊥ }
    ensures delivery { (run : StepRun) (newer : List Deed) (stating : Deed) (older : List Deed) (id : ℕ) →
        (world_after run).past ≡ newer ++ stating ∷ older →
        (states : States stating id Delivered) → IsDelivery id states.chain older }
    ensures chosen { (run : StepRun) (stating : Deed) (id : ℕ) (final : Final) →
        In stating (world_after run).past →
        (states : States stating id final) → IsToldChosen (world_after run) id states.chain }
{}

/// The chain of which a statement tells is chosen, in every loose run.
pub fn what_is_stated_is_chosen()
    ensures { (run : LooseRun) (stating : Deed) (id : ℕ) (final : Final) →
        In stating (end_of run).past →
        (states : States stating id final) → IsToldChosen (end_of run) id states.chain }
{}

/// Over every list of steps at most one delivery receipt goes out for each message_id, however often nodes stop and start anew.
pub fn one_receipt_over_steps()
    ensures { (run : StepRun) (first second : Deed) (id : ℕ) (one other : List Decree) →
        CameBefore first second (world_after run).past →
        first.act ≡ Reports id one → second.act ≡ Reports id other → ⊥ }
{}
