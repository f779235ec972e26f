//! One node, whatever packets came to it.

ghost use Rattle.std.specs.Prelude.{◌≡◌, ◌⊎◌, ℕ, List, Option};
ghost use Rattle.mc_model.specs.message.Decree.{Decree};
ghost use Rattle.mc_model.specs.synod.Packet.{Packet, Slot};
ghost use Rattle.mc_model.specs.node.Actor.{Actor, Waiting};
ghost use Rattle.mc_model.specs.node.Knowledge.{IsKnown, Knows};
ghost use Rattle.mc_model.specs.node.Replies.{Answer, FitsRequest};
ghost use Rattle.mc_model.specs.node.Grant.{MayGrant, GrantRefusal, IsGiven, IsRefusedFor};

/// A node knows one chain of a message at most.
pub fn a_node_knows_one_chain()
    ensures { (nodes : ℕ) (received : List Packet) (id : ℕ) (one other : List Decree) →
        Knows nodes received id one → Knows nodes received id other → one ≡ other }
{}

/// A grant is given, or refused by exactly one number.
pub fn a_grant_is_given_or_refused_by_one_number()
    ensures judged { (nodes node : ℕ) (a : Actor) (id : ℕ) (known : Option (List Decree)) →
        IsKnown nodes a.received id known →
        IsGiven nodes node a id ⊎ ((refusal : GrantRefusal) × IsRefusedFor nodes node a id refusal) }
    ensures one { (nodes node : ℕ) (a : Actor) (id : ℕ) (one other : GrantRefusal) →
        IsRefusedFor nodes node a id one → IsRefusedFor nodes node a id other → one ≡ other }
    ensures not_both { (nodes node : ℕ) (a : Actor) (slot : Slot) (refusal : GrantRefusal) →
        MayGrant nodes node a slot → IsRefusedFor nodes node a slot.id refusal → ⊥ }
{}

/// What a node knows gives a request that waits one answer at most.
pub fn an_answer_is_one()
    ensures { (nodes node : ℕ) (a : Actor) (waiting : Waiting) (one other : Answer) →
        FitsRequest nodes node a waiting waiting.request one → FitsRequest nodes node a waiting waiting.request other →
        one ≡ other }
{}
