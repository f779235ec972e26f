//! Steps of a node by itself, so that the laws over steps are not about nothing.

ghost use Rattle.std.specs.Prelude.{◌≡◌, ◌+◌, ◌<◌, ◌≤◌, [], ◌∷◌, ◌++◌, ℕ, List, None, true, false};
ghost use Rattle.mc_model.specs.message.Submission.{Submission};
ghost use Rattle.mc_model.specs.message.Decree.{Decree, Delivered};
ghost use Rattle.mc_model.specs.message.Receipts.{AsksReceipt};
ghost use Rattle.mc_model.specs.synod.OneSlot.{Vote};
ghost use Rattle.mc_model.specs.synod.Packet.{Prepare, Promise, Slot, Voted, slot_at, slot_of};
ghost use Rattle.mc_model.specs.synod.Acceptor.{Records};
ghost use Rattle.mc_model.specs.synod.Lists.{In};
ghost use Rattle.mc_model.specs.node.Outcome.{Concluded};
ghost use Rattle.mc_model.specs.node.Actor.{Actor, opening_clock};
ghost use Rattle.mc_model.specs.node.Effect.{saved};
ghost use Rattle.mc_model.specs.node.Setup.{Setup};
ghost use Rattle.mc_model.specs.node.Step.{IsExact};
ghost use Rattle.mc_model.specs.node.Room.{queue_full};
ghost use Rattle.mc_model.specs.node.Act.{Act, Concludes, Grants, Prepares, Promises, Receives, Restarts, Stops, Ticks};
ghost use Rattle.mc_model.specs.node.Input.{Crash, Delivery, Grant, Refusal, Response, Restart, Tick};
ghost use Rattle.mc_model.specs.node.Alone.{AreStepsAlone, IsStepAlone, Node, opened_new};
ghost use Rattle.mc_laws.specs.Receipts.{HasToTell, MayTell, seen, starts_told};
ghost use Rattle.mc_laws.specs.Stories.{
  deleted_chain,
  taken_slot,
  MayBeTried,
  attempted_chain,
  delivered_chain,
  first_ballot,
  first_id,
  first_setup,
  taken_chain,
  told_chain,
};
ghost use Rattle.mc_laws.specs.NodeStories.{all_up, among_three, first_attempt, knowing, node_of_actor, none_begin, none_up, used_up};
ghost use Rattle.mc_laws.specs.TickStories.{
  again_ballot,
  cancelled_once,
  expired_chain,
  failed_chain,
  given_up_chain,
  giving_up,
  lost_chain,
  one_minute_later,
  starting,
  taking_again,
  undelivered_chain,
  voted_before,
};
ghost use Rattle.mc_laws.specs.CancelStories.{behind_slot, cancelled_twice, cancelling_again, told_of_taking};
ghost use Rattle.mc_laws.specs.QueryStories.{
  asking_about,
  carrying,
  carrying_on,
  following,
  second_ballot,
  second_slot,
  second_vote,
  showing,
  told_by_3,
};

/// A tick comes, and by the first rule that fits a round is started. By what the chain ends in that a node knows: for the next
/// attempt, if one may begin, for EXPIRED, for UNDELIVERABLE after eight failures with the error of the last, for the outcome of an attempt, for the
/// failure of an attempt that an older incarnation made, and for that of one which finds no session, which is given up then; and
/// for the Told behind a fate of which a receipt is asked. Or for a submit_sm that waits, for a vote beyond what is known, and for
/// a cancel_sm that waits.
pub fn a_tick_starts_a_round()
    ensures attempt { (message : Submission) → MayBeTried message →
        IsStepAlone first_setup (node_of_actor (knowing 1 opening_clock (taken_chain message) [] []))
        (Tick opening_clock all_up) (starting 1 opening_clock (attempted_chain message)) }
    ensures held_back { (message : Submission) → MayBeTried message →
        IsStepAlone first_setup (node_of_actor (knowing 1 opening_clock (taken_chain message) [] []))
        (Tick opening_clock none_begin) (Ticks opening_clock ∷ []) }
    ensures expire { (message : Submission) → message.expiry ≤ one_minute_later →
        IsStepAlone first_setup (node_of_actor (knowing 1 opening_clock (taken_chain message) [] []))
        (Tick one_minute_later all_up) (starting 1 one_minute_later (expired_chain message)) }
    ensures undeliver { (message : Submission) → MayBeTried message →
        IsStepAlone first_setup (node_of_actor (knowing 1 opening_clock (failed_chain 8 message) [] []))
        (Tick opening_clock all_up) (starting 1 opening_clock (undelivered_chain message)) }
    ensures close { (message : Submission) →
        IsStepAlone first_setup (node_of_actor (knowing 1 opening_clock (attempted_chain message) [] ((
          slot_of first_id
              (attempted_chain message),
          Concluded Delivered 0,
        ) ∷ [])))
        (Tick opening_clock all_up) (starting 1 opening_clock (delivered_chain message)) }
    ensures lose { (message : Submission) →
        IsStepAlone first_setup (node_of_actor (knowing 2 opening_clock (attempted_chain message) [] []))
        (Tick opening_clock all_up) (starting 2 opening_clock (lost_chain message)) }
    ensures give_up { (message : Submission) →
        IsStepAlone first_setup (node_of_actor (knowing 1 opening_clock (attempted_chain message) [] []))
        (Tick opening_clock none_up) (giving_up 1 opening_clock (slot_of first_id (attempted_chain message))
        (given_up_chain message)) }
    ensures announce { (message : Submission) → AsksReceipt Delivered message →
        IsStepAlone first_setup (node_of_actor (knowing 1 opening_clock (delivered_chain message) [] []))
        (Tick opening_clock all_up) (starting 1 opening_clock (told_chain message)) }
    ensures take { (message : Submission) →
        IsStepAlone first_setup (node_of_actor (taking_again message)) (Tick opening_clock all_up)
        (Prepares taken_slot again_ballot (taken_chain message) ∷ Ticks opening_clock ∷ []) }
    ensures follow { (chain : List Decree) →
        IsStepAlone among_three (voted_before chain) (Tick opening_clock all_up)
        (Prepares second_slot second_ballot chain ∷ Ticks opening_clock ∷ []) }
    ensures delete { (message : Submission) →
        IsStepAlone first_setup (node_of_actor (cancelled_once message)) (Tick opening_clock all_up)
        (Prepares behind_slot first_ballot (deleted_chain message) ∷ Ticks opening_clock ∷ []) }
{}

/// Among three nodes a query_sm of another node's message comes and is asked, node 2 has nothing to tell, and node 3 tells of a
/// vote. So a round is started for the chain of that vote; and if nodes 2 and 3 promise and report no vote, that chain is
/// proposed.
pub fn a_told_vote_is_followed()
    ensures { (account source : List ℕ) (vote : Vote) →
        AreStepsAlone among_three (opened_new 1) (following account source vote) }
{}

/// A node of three is asked for a promise and gives it; if it stops after the save, it answers nothing.
pub fn an_acceptor_promises_or_stops()
    ensures promises { IsStepAlone among_three (opened_new 1) (Delivery (Prepare 2 (slot_at first_id 0) first_ballot))
        (Promises (slot_at first_id 0) first_ballot true ∷ Receives (Prepare 2 (slot_at first_id 0) first_ballot) ∷ []) }
    ensures stops { IsStepAlone among_three (opened_new 1) (Crash (Prepare 2 (slot_at first_id 0) first_ballot) true)
        (Stops ∷ Promises (slot_at first_id 0) first_ballot false ∷ Receives (Prepare 2 (slot_at first_id 0) first_ballot)
        ∷ []) }
{}

/// A node starts anew after two starts that failed, three incarnations later, and counts its messages from its own first
/// serial.
pub fn a_node_starts_anew()
    ensures { (s : Node) → s.actor.incarnation + 2 < 9999 → IsStepAlone among_three s (Restart 2) (Restarts 2 1 ∷ []) }
{}

/// A submit_sm to a node that has given all its serials is answered at once, and nothing else is done.
pub fn a_request_finds_no_serial()
    ensures { IsStepAlone among_three (node_of_actor used_up) (Refusal queue_full) [] }
{}

/// An attempt is granted, and when its outcome comes a round for its decree is started.
pub fn an_attempt_is_granted_and_concluded()
    ensures granted { (message : Submission) →
        IsStepAlone first_setup (node_of_actor (knowing 1 opening_clock (attempted_chain message) [] []))
        (Grant (first_attempt message)) (Grants (first_attempt message) ∷ []) }
    ensures concluded { (message : Submission) →
        IsStepAlone first_setup (node_of_actor (knowing 1 opening_clock (attempted_chain message) (first_attempt message
        ∷ []) []))
        (Response (first_attempt message) (Concluded Delivered 0))
        (Prepares (slot_of first_id (delivered_chain message)) first_ballot (delivered_chain message) ∷ Concludes
        (first_attempt message) (Concluded Delivered 0) ∷ []) }
{}

/// A node knows that a message is taken, and two cancel_sms of it wait. The first is settled, but its round was refused. A Tell
/// settles the second, and it starts a round of its own for DELETED, above the ballot of the refusal.
pub fn each_cancel_starts_a_round()
    ensures { (message : Submission) →
        IsStepAlone first_setup (node_of_actor (cancelled_twice message)) (Delivery (told_of_taking message))
        (cancelling_again message) }
{}

/// A node began its second incarnation with a vote, and started a round for that vote's chain. It has voted for another chain
/// since, but if a majority has promised and reports no vote, the chain of the round is proposed.
pub fn a_voted_chain_is_carried_on()
    ensures { (vote : Vote) (other : List Decree) →
        IsStepAlone among_three (carrying vote other) (Delivery (Promise 3 second_slot second_ballot None)) (carrying_on vote) }
{}

/// Among three nodes a query_sm waits for a message of node 2, that is known to be taken, and node 2 has told of its vote. Node 3
/// tells
/// too: that settles the query_sm, and its answer is ESME_ROK, with the state of the known chain.
pub fn a_tell_settles_a_query()
    ensures { (message : Submission) →
        IsStepAlone among_three (node_of_actor (asking_about message)) (Delivery (told_by_3 (second_vote message)))
        (showing message) }
{}

/// By a vote that comes the node that took a message first knows a fate of it, of which a receipt is asked: in that step it starts a round for its Told, if
/// no round of the message runs.
pub fn each_fate_that_asks_starts_a_round()
    ensures { (setup : Setup) (a now : Actor) (records : Records) (acceptor : ℕ) (slot : Slot) (vote : Vote) (acts : List Act)
        (exact : IsExact setup a records (Delivery (Voted acceptor slot vote)) acts) (id : ℕ) (fate : Decree) (older : List Decree) (ballot : ℕ) →
        now ≡ seen setup a records (Delivery (Voted acceptor slot vote)) acts exact →
        HasToTell setup a now id fate older → MayTell setup now (saved records exact.core) id fate older ballot →
        In (starts_told setup now id fate older ballot) acts }
{}
