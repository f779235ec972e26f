//! A cluster of nodes by what they keep, as a cluster of the model.

ghost use Rattle.std.specs.Prelude.{◌≡◌, ◌∷◌, ◌++◌, ℕ, List, Some};
ghost use Rattle.mc_model.specs.message.Decree.{Decree, Delivered, Final};
ghost use Rattle.mc_model.specs.message.Chain.{final_in};
ghost use Rattle.mc_model.specs.synod.Lists.{In};
ghost use Rattle.mc_model.specs.node.Actor.{Request};
ghost use Rattle.mc_model.specs.node.Input.{Arrival, Input};
ghost use Rattle.mc_model.specs.node.Outputs.{Outputs};
ghost use Rattle.mc_model.specs.node.Replies.{Accepted, Shown, Unknown};
ghost use Rattle.mc_model.specs.cluster.Steps.{Cluster};
ghost use Rattle.node_laws.specs.Chosen.{WasVotedFor};
ghost use Rattle.node_laws.specs.Clusters.{
  CameEarlier,
  GrantsOut,
  IsDeliveredBy,
  LivesOn,
  MayHappen,
  NodeInput,
  OneOfEach,
  RunsTogether,
  StatesFinal,
  cluster_outputs,
  comes_to,
  kept_reached,
  outputs_at,
  receipts_given,
};
ghost use Rattle.node_laws.specs.GivenOut.{Cancels, CancelsDelete, ReceiptsStand};

/// For every list of inputs of a cluster of nine nodes at most, in which packets are delivered, lost, repeated or reordered and nodes
/// stop and start anew, the nodes by what they keep run as the cluster of the model does: by exact steps of the same inputs, which
/// send the same packets and give out the same.
pub fn a_cluster_of_nodes_runs()
    ensures { (cluster : Cluster) (inputs : List NodeInput) → MayHappen cluster inputs → RunsTogether cluster inputs }
{}

/// So no two final states that its replies and receipts tell of one message differ, whichever nodes give them out.
pub fn one_fate_is_given_out()
    ensures { (cluster : Cluster) (inputs : List NodeInput) → MayHappen cluster inputs →
        (one other : Outputs) (id : ℕ) (first second : Final) →
        In one (cluster_outputs cluster inputs) → In other (cluster_outputs cluster inputs) →
        StatesFinal one id first → StatesFinal other id second → first ≡ second }
{}

/// And once a final state of a message was given out, no attempt of it is granted at any node: not after ESME_ROK to its cancel_sm
/// either, which tells DELETED.
pub fn no_attempt_is_granted_after_a_fate()
    ensures { (cluster : Cluster) (inputs : List NodeInput) → MayHappen cluster inputs →
        (stating granting : Outputs) (id : ℕ) (final : Final) →
        CameEarlier stating granting (cluster_outputs cluster inputs) →
        StatesFinal stating id final → GrantsOut granting id → ⊥ }
{}

/// What is told of a final state was chosen: a majority of the nodes voted for its chain at one ballot, in packets that were sent.
pub fn what_is_given_out_was_chosen()
    ensures { (cluster : Cluster) (next : NodeInput) (inputs : List NodeInput) → MayHappen cluster (next ∷ inputs) →
        (id : ℕ) (final : Final) (says : StatesFinal (outputs_at cluster inputs next) id final) →
        WasVotedFor cluster.nodes (kept_reached cluster (next ∷ inputs)).packets id says.chain }
{}

/// And each DELIVERED that is given out stands on an attempt of its author, which was granted at the author's node and then answered by
/// ESME_ROK, as earlier inputs came.
pub fn a_delivery_stands_on_an_answered_attempt()
    ensures { (cluster : Cluster) (next : NodeInput) (inputs : List NodeInput) → MayHappen cluster (next ∷ inputs) →
        (id : ℕ) (says : StatesFinal (outputs_at cluster inputs next) id Delivered) → IsDeliveredBy id says.chain inputs }
{}

/// And a query_sm that came after a final state of its message was given out, and is answered by ESME_ROK in the same life of its node, is told
/// that state.
pub fn a_later_query_is_told_the_fate()
    ensures { (cluster : Cluster) (older middle : List NodeInput) (node ticket : ℕ) (request : Request) (next : Input) (id : ℕ)
        (chain : List Decree) (stating : Outputs) (final : Final) →
        MayHappen cluster (comes_to node next ∷ (middle ++ comes_to node (Arrival request) ∷ older)) →
        In stating (cluster_outputs cluster older) → StatesFinal stating id final →
        (outputs_at cluster older (comes_to node (Arrival request))).ticket ≡ Some ticket → LivesOn node middle →
        In (record { ticket = ticket; id = id; answer = Shown chain })
        (outputs_at cluster (middle ++ comes_to node (Arrival request) ∷ older) (comes_to node next)).replies →
        final_in chain ≡ Some final }
{}

/// And a request that came after ESME_ROK to the submit_sm of its message was given out is never answered, in the same life of its node, that
/// there is no such message.
pub fn a_later_request_is_of_a_known_message()
    ensures { (cluster : Cluster) (older middle : List NodeInput) (node ticket : ℕ) (request : Request) (next : Input) (id : ℕ)
        (accepting : Outputs) (taken : ℕ) →
        MayHappen cluster (comes_to node next ∷ (middle ++ comes_to node (Arrival request) ∷ older)) →
        In accepting (cluster_outputs cluster older) → In (record { ticket = taken; id = id; answer = Accepted }) accepting.replies →
        (outputs_at cluster older (comes_to node (Arrival request))).ticket ≡ Some ticket → LivesOn node middle →
        In (record { ticket = ticket; id = id; answer = Unknown })
        (outputs_at cluster (middle ++ comes_to node (Arrival request) ∷ older) (comes_to node next)).replies → ⊥ }
{}

/// And of each message_id one receipt is given out at most, by whatever node and in whichever of its lives, however often nodes stop and start anew.
pub fn one_receipt_is_given_out()
    ensures { (cluster : Cluster) (inputs : List NodeInput) → MayHappen cluster inputs → OneOfEach (receipts_given (cluster_outputs cluster inputs)) }
{}

/// And ESME_ROK to a cancel_sm states that its message is DELETED: so no attempt of it is granted behind that, at any node.
pub fn a_cancelled_message_is_given_out_as_deleted()
    ensures deleted { (cluster : Cluster) (inputs : List NodeInput) → MayHappen cluster inputs → CancelsDelete (cluster_outputs cluster inputs) }
    ensures no_grant { (cluster : Cluster) (inputs : List NodeInput) → MayHappen cluster inputs →
        (cancelling granting : Outputs) (id : ℕ) → CameEarlier cancelling granting (cluster_outputs cluster inputs) →
        Cancels cancelling id → GrantsOut granting id → ⊥ }
{}

/// And each receipt is of a message whose id names the node that gives it out, and stands on a chain that ends in a Told of that node.
pub fn a_receipt_is_given_out_on_a_told_of_its_node()
    ensures { (cluster : Cluster) (next : NodeInput) (inputs : List NodeInput) → MayHappen cluster (next ∷ inputs) →
        ReceiptsStand next.node (outputs_at cluster inputs next) }
{}
