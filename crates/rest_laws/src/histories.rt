//! The headline, of nodes that drop messages and forget what they heard: over every list of events.

ghost use Rattle.std.specs.Prelude.{◌≡◌, ◌∷◌, ◌++◌, ℕ, List, Some};
ghost use Rattle.mc_model.specs.cluster.Steps.{Cluster};
ghost use Rattle.mc_model.specs.message.Chain.{final_in};
ghost use Rattle.mc_model.specs.message.Decree.{Decree, Delivered, Final};
ghost use Rattle.mc_model.specs.node.Actor.{Request};
ghost use Rattle.mc_model.specs.node.Input.{Arrival, Input};
ghost use Rattle.mc_model.specs.node.Outputs.{Outputs};
ghost use Rattle.mc_model.specs.node.Replies.{Accepted, Shown, Unknown};
ghost use Rattle.mc_model.specs.synod.Lists.{In};
ghost use Rattle.node_laws.specs.Chosen.{WasVotedFor};
ghost use Rattle.node_laws.specs.Clusters.{CameEarlier, GrantsOut, OneOfEach, StatesFinal, receipts_given};
ghost use Rattle.node_laws.specs.GivenOut.{Cancels, CancelsDelete, ReceiptsStand};
ghost use Rattle.rest_laws.specs.Histories.{IsDeliveredIn, LivesThrough};
ghost use Rattle.rest_laws.specs.Remains.{Event, IsHistory, Takes, given_at, given_in, remains_after};

/// No two final states that they tell of one message differ.
pub fn nodes_that_forget_tell_one_fate()
    ensures { (cluster : Cluster) (events : List Event) → IsHistory cluster events → (one other : Outputs) (id : ℕ) (first second : Final) →
        In one (given_in cluster events) → In other (given_in cluster events) →
        StatesFinal one id first → StatesFinal other id second → first ≡ second }
{}

/// And once a final state of a message was told, no attempt of it is granted, by whatever node, however many have forgotten it.
pub fn nodes_that_forget_grant_nothing_after_a_fate()
    ensures { (cluster : Cluster) (events : List Event) → IsHistory cluster events → (stating granting : Outputs) (id : ℕ) (final : Final) →
        CameEarlier stating granting (given_in cluster events) → StatesFinal stating id final → GrantsOut granting id → ⊥ }
{}

/// ESME_ROK to a cancel_sm states that its message is DELETED, and no attempt of it is granted behind that.
pub fn nodes_that_forget_delete_what_is_cancelled()
    ensures deleted { (cluster : Cluster) (events : List Event) → IsHistory cluster events → CancelsDelete (given_in cluster events) }
    ensures no_grant { (cluster : Cluster) (events : List Event) → IsHistory cluster events → (cancelling granting : Outputs) (id : ℕ) →
        CameEarlier cancelling granting (given_in cluster events) → Cancels cancelling id → GrantsOut granting id → ⊥ }
{}

/// Each DELIVERED that they tell stands on an attempt of its author, which was granted at the author's node and then answered by ESME_ROK,
/// in one life of that node.
pub fn nodes_that_forget_tell_deliveries_that_stand()
    ensures { (cluster : Cluster) (node : ℕ) (input : Input) (older : List Event) → IsHistory cluster (Takes node input ∷ older) →
        (id : ℕ) (says : StatesFinal (given_at cluster older node input) id Delivered) → IsDeliveredIn id says.chain older }
{}

/// What they tell of a final state was chosen: a majority of the nodes voted for its chain at one ballot, in packets that were sent.
pub fn nodes_that_forget_tell_what_was_chosen()
    ensures { (cluster : Cluster) (node : ℕ) (input : Input) (older : List Event) → IsHistory cluster (Takes node input ∷ older) →
        (id : ℕ) (final : Final) (says : StatesFinal (given_at cluster older node input) id final) →
        WasVotedFor cluster.nodes (remains_after cluster (Takes node input ∷ older)).packets id says.chain }
{}

/// Of each message_id they give out one receipt at most, in all their lives together.
pub fn nodes_that_forget_tell_one_receipt()
    ensures { (cluster : Cluster) (events : List Event) → IsHistory cluster events → OneOfEach (receipts_given (given_in cluster events)) }
{}

/// Each receipt is of a message whose id names the node that gives it out, and stands on a chain that ends in a Told of that node.
pub fn nodes_that_forget_tell_receipts_that_stand()
    ensures { (cluster : Cluster) (node : ℕ) (input : Input) (older : List Event) → IsHistory cluster (Takes node input ∷ older) →
        ReceiptsStand node (given_at cluster older node input) }
{}

/// A query_sm that came after a final state of its message was told, and is answered by ESME_ROK in the same life of its node, is told that
/// state; and a request that came after ESME_ROK to the submit_sm of its message is never answered so that there is no such message.
pub fn nodes_that_forget_answer_by_what_they_told()
    ensures fate { (cluster : Cluster) (older middle : List Event) (node ticket : ℕ) (request : Request) (next : Input) →
        IsHistory cluster (Takes node next ∷ (middle ++ Takes node (Arrival request) ∷ older)) →
        (given_at cluster older node (Arrival request)).ticket ≡ Some ticket → LivesThrough node middle →
        (id : ℕ) (chain : List Decree) (stating : Outputs) (final : Final) → In stating (given_in cluster older) → StatesFinal stating id final →
        In (record { ticket = ticket; id = id; answer = Shown chain })
        (given_at cluster (middle ++ Takes node (Arrival request) ∷ older) node next).replies →
        final_in chain ≡ Some final }
    ensures known { (cluster : Cluster) (older middle : List Event) (node ticket : ℕ) (request : Request) (next : Input) →
        IsHistory cluster (Takes node next ∷ (middle ++ Takes node (Arrival request) ∷ older)) →
        (given_at cluster older node (Arrival request)).ticket ≡ Some ticket → LivesThrough node middle →
        (id : ℕ) (accepting : Outputs) (taken : ℕ) → In accepting (given_in cluster older) →
        In (record { ticket = taken; id = id; answer = Accepted }) accepting.replies →
        In (record { ticket = ticket; id = id; answer = Unknown })
        (given_at cluster (middle ++ Takes node (Arrival request) ∷ older) node next).replies → ⊥ }
{}
