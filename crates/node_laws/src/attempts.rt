//! Attempts of what is kept, as steps of the actor.

ghost use Rattle.std.specs.Prelude.{◌≡◌, ℕ, List, None, Some};
ghost use Rattle.mc_model.specs.message.Decree.{Decree};
ghost use Rattle.mc_model.specs.message.Ids.{IsNode};
ghost use Rattle.mc_model.specs.synod.Packet.{Slot, slot_of};
ghost use Rattle.mc_model.specs.node.Alone.{Node};
ghost use Rattle.mc_model.specs.node.Grant.{GrantRefusal, IsRefusedFor, MayConclude, MayGrant};
ghost use Rattle.mc_model.specs.node.Input.{Grant, Response};
ghost use Rattle.mc_model.specs.node.Outcome.{Outcome};
ghost use Rattle.mc_model.specs.node.Setup.{Setup};
ghost use Rattle.node_model.specs.Attempts.{grant_refusal};
ghost use Rattle.node_model.specs.Kept.{Kept, message_at};
ghost use Rattle.node_model.specs.Stepped.{stepped};
ghost use Rattle.node_laws.specs.Stands.{Stands};
ghost use Rattle.node_laws.specs.Steps.{IsAtWork, StepsAs};

/// A grant that is refused is refused for what the model says, and if none is, the attempt in which the known chain ends may be
/// granted.
pub fn a_grant_is_judged()
    ensures refused { (setup : Setup) (k : Kept) (s : Node) → Stands setup k s → (id : ℕ) (refusal : GrantRefusal) →
        grant_refusal setup k id ≡ Some refusal → IsRefusedFor setup.nodes setup.node s.actor id refusal }
    ensures given { (setup : Setup) (k : Kept) (s : Node) → Stands setup k s → (id : ℕ) →
        grant_refusal setup k id ≡ None →
        (chain : List Decree) × ((message_at k id).known ≡ Some chain) × MayGrant setup.nodes setup.node s.actor (slot_of id chain) }
{}

/// An attempt that may be granted is granted, which is an exact step of every actor for which what is kept stands.
pub fn a_grant_is_exact()
    ensures { (setup : Setup) (k : Kept) (s : Node) → Stands setup k s → IsAtWork setup s → IsNode setup.node →
        (slot : Slot) → MayGrant setup.nodes setup.node s.actor slot →
        StepsAs setup s (Grant slot) (stepped setup k (Grant slot)) }
{}

/// The outcome of an attempt that was granted closes it, and starts the round of its decree if the attempt is the newest that is
/// known. That is an exact step of every actor for which what is kept stands.
pub fn a_response_is_exact()
    ensures { (setup : Setup) (k : Kept) (s : Node) → Stands setup k s → IsAtWork setup s → IsNode setup.node →
        (slot : Slot) (outcome : Outcome) → MayConclude s.actor slot outcome →
        StepsAs setup s (Response slot outcome) (stepped setup k (Response slot outcome)) }
{}
