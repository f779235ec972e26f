//! What may happen, so that the laws over runs are not about nothing.

ghost use Rattle.mc_model.specs.message.Submission.{Submission};
ghost use Rattle.mc_model.specs.message.Decree.{Deleted, Delivered};
ghost use Rattle.mc_model.specs.message.Receipts.{AsksReceipt};
ghost use Rattle.mc_model.specs.synod.Lists.{In};
ghost use Rattle.mc_model.specs.synod.Acceptor.{blank};
ghost use Rattle.mc_model.specs.node.Actor.{Submit, opened};
ghost use Rattle.mc_model.specs.node.Knowledge.{KnowsNothing};
ghost use Rattle.mc_model.specs.node.Input.{Arrival};
ghost use Rattle.mc_model.specs.node.Step.{IsExact};
ghost use Rattle.mc_model.specs.cluster.World.{start, IsChosenIn, IsRun, reached};
ghost use Rattle.mc_model.specs.cluster.Steps.{AreSteps, acts_in};
ghost use Rattle.mc_model.specs.cluster.Fate.{States};
ghost use Rattle.mc_laws.specs.Stories.{
  MayBeTried,
  delivered_slot,
  delivered_vote,
  delivering_story,
  delivery_story,
  first_id,
  first_setup,
  first_step,
  last_deed,
  one_node,
  taken_slot,
  taken_vote,
  three_nodes,
};
ghost use Rattle.mc_laws.specs.StopStories.{accepting_deed, restart_story, until_anew};
ghost use Rattle.mc_laws.specs.AnswerStories.{cancel_story, query_story, removing_deed, showing_deed};
ghost use Rattle.mc_laws.specs.ClusterStories.{lone, taking_steps};

/// A cluster of one node takes a message, attempts it, is answered, and chooses the fate DELIVERED. If a receipt is asked for, the node
/// tells it, and its last deed states DELIVERED; else whoever asks is told so (`a_query_is_answered`).
pub fn a_message_is_delivered()
    ensures delivered { (message : Submission) → MayBeTried message → IsRun one_node (delivering_story message) }
    ensures chosen { (message : Submission) → IsChosenIn (reached one_node (delivering_story message)) delivered_slot
        (delivered_vote message) }
    ensures run { (message : Submission) → MayBeTried message → AsksReceipt Delivered message →
        IsRun one_node (delivery_story message) }
    ensures told { (message : Submission) → In (last_deed message) (reached one_node (delivery_story message)).past }
    ensures stated { (message : Submission) → States (last_deed message) first_id Delivered }
{}

/// The first step of a node, to which a submit_sm comes, is exactly this: the request waits, and a round for its message is
/// started at the first ballot.
pub fn a_submit_starts_a_round()
    ensures { (message : Submission) → IsExact first_setup (opened 1 1) (λ slot. blank) (Arrival (Submit first_id message))
        (first_step message) }
{}

/// A node of three stops between the save of its vote and its answer, and starts anew. Its vote counts: with that of one other
/// node the chain is chosen, though nobody knows it yet. It is asked again and votes again, and the submit_sm is answered.
pub fn a_node_stops_after_a_save()
    ensures run { (message : Submission) → MayBeTried message → IsRun three_nodes (restart_story message) }
    ensures chosen { (message : Submission) → IsChosenIn (reached three_nodes (until_anew message)) taken_slot
        (taken_vote message) }
    ensures unknown { (message : Submission) → KnowsNothing 3 ((reached three_nodes
        (until_anew message)).actors 1).received first_id }
    ensures answered { (message : Submission) → In accepting_deed (reached three_nodes (restart_story message)).past }
{}

/// A cluster of one node has delivered a message, and a query_sm of its submitter comes. The node asks itself how far the chain
/// has come and tells it, and the query_sm_resp states DELIVERED.
pub fn a_query_is_answered()
    ensures run { (message : Submission) → MayBeTried message → IsRun one_node (query_story message) }
    ensures answered { (message : Submission) → In (showing_deed message) (reached one_node (query_story message)).past }
    ensures stated { (message : Submission) → States (showing_deed message) first_id Delivered }
{}

/// A cluster of one node has taken a message, and a cancel_sm of its submitter comes. The node asks itself how far the chain
/// has come and tells it, the request is settled, the message is deleted, and the cancel_sm_resp has ESME_ROK for DELETED.
pub fn a_message_is_cancelled()
    ensures run { (message : Submission) → MayBeTried message → IsRun one_node (cancel_story message) }
    ensures answered { (message : Submission) → In (removing_deed message) (reached one_node (cancel_story message)).past }
    ensures stated { (message : Submission) → States (removing_deed message) first_id Deleted }
{}

/// A cluster of one node takes a message in five steps, each of them exact: the submit_sm comes and a round is started; the
/// node promises, proposes and votes; and when it hears of its vote, the submit_sm is answered ESME_ROK.
pub fn a_message_is_taken_step_by_step()
    ensures steps { (message : Submission) → MayBeTried message → AreSteps lone (start lone.nodes lone.serials)
        (taking_steps message) }
    ensures answered { (message : Submission) →
        In accepting_deed (reached (start lone.nodes lone.serials) (acts_in (taking_steps message))).past }
{}
