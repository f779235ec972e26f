//! A node that forgot what it heard and did of messages that are over.

ghost use Rattle.std.specs.Prelude.{◌≡◌, ℕ, Bool};
ghost use Rattle.mc_model.specs.cluster.Steps.{Cluster, setup_of};
ghost use Rattle.mc_model.specs.node.Input.{Input, Restart};
ghost use Rattle.mc_model.specs.node.Setup.{Setup};
ghost use Rattle.node_model.specs.Kept.{Kept};
ghost use Rattle.node_model.specs.Stepped.{stepped};
ghost use Rattle.node_laws.specs.Clusters.{MayHappen, NodeInput, WasSentBefore, kept_reached};
ghost use Rattle.node_laws.specs.Runs.{MayCome};
ghost use Rattle.std.specs.Prelude.{List};
ghost use Rattle.rest_laws.specs.Cooled.{AreCalm, AreShut, KeepsCalm, Suits, cool, cool_step};

/// What a node heard, saw, granted and closed of messages of which it knows a chain that is over does not matter: without it, it gives out
/// the same, and keeps the same but for that.
pub fn what_was_heard_of_what_is_over_does_not_matter()
    ensures { (setup : Setup) (k : Kept) (cold : ℕ → Bool) (input : Input) → AreCalm cold k → Suits setup cold k input →
        cool_step cold (stepped setup (cool cold k) input) ≡ cool_step cold (stepped setup k input) }
{}

/// And it stays so: what is calm stays calm until the node starts anew, and no attempt of it opens.
pub fn what_is_calm_stays_calm()
    ensures calm { (setup : Setup) (k : Kept) (cold : ℕ → Bool) (input : Input) → AreCalm cold k → Suits setup cold k input → KeepsCalm cold k input →
        AreCalm cold (stepped setup k input).kept }
    ensures shut { (setup : Setup) (k : Kept) (cold : ℕ → Bool) (input : Input) → AreShut cold k → Suits setup cold k input →
        AreShut cold (stepped setup k input).kept }
{}

/// In a cluster nothing goes on from a chain that is over: so whatever may come to a node suits what is calm and shut there.
pub fn what_comes_suits_what_is_calm()
    ensures suits { (cluster : Cluster) (inputs : List NodeInput) → MayHappen cluster inputs → (node : ℕ) (cold : ℕ → Bool) →
        AreCalm cold ((kept_reached cluster inputs).kept node) → AreShut cold ((kept_reached cluster inputs).kept node) → (input : Input) →
        MayCome (setup_of cluster node) ((kept_reached cluster inputs).kept node) input → WasSentBefore (kept_reached cluster inputs).packets input →
        Suits (setup_of cluster node) cold ((kept_reached cluster inputs).kept node) input }
    ensures keeps { (cluster : Cluster) (inputs : List NodeInput) → MayHappen cluster inputs → (node : ℕ) (cold : ℕ → Bool) →
        AreCalm cold ((kept_reached cluster inputs).kept node) → (input : Input) → WasSentBefore (kept_reached cluster inputs).packets input →
        ((lost : ℕ) → input ≡ Restart lost → ⊥) → KeepsCalm cold ((kept_reached cluster inputs).kept node) input }
{}
