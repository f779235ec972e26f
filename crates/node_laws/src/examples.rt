//! Worked rows, step by step: of one node, to which its own packets are delivered after each input, and of one of three.

ghost use Rattle.std.specs.Prelude.{◌≡◌, ◌++◌, [], ◌∷◌, None, Some};
ghost use Rattle.mc_model.specs.synod.OneSlot.{vote_at};
ghost use Rattle.mc_model.specs.synod.Packet.{Prepare, Promise, Propose, Refused, Voted};
ghost use Rattle.mc_model.specs.node.Actor.{Query};
ghost use Rattle.mc_model.specs.node.Grant.{AlreadyGranted, NotChosen, OlderIncarnation};
ghost use Rattle.mc_model.specs.node.Input.{Arrival, Delivery, Tick};
ghost use Rattle.mc_model.specs.node.Replies.{Accepted, Kept, NotOwner, Removed, Shown, TooLate, Unknown};
ghost use Rattle.node_model.specs.Kept.{message_at};
ghost use Rattle.node_model.specs.Attempts.{grant_refusal};
ghost use Rattle.mc_parts.specs.FirstMessage.{account, attempted, told, first_id, sender, taken};
ghost use Rattle.node_laws.specs.Examples.{
  all_up,
  alone,
  attempts,
  cancels,
  deleted,
  delivers,
  first_ballot,
  first_slot,
  grants,
  loses,
  lost,
  none_begin,
  none_up,
  other_ballot,
  played_alone,
  played_of_three,
  queries,
  restarts,
  submits,
  third_ballot,
  tried_again,
};

/// A cluster of one node takes a message: it asks itself for a promise and for a vote, and answers once it hears of the vote.
pub fn a_message_is_taken_alone()
    ensures packets { (played_alone submits).packets ≡
        Prepare 1 first_slot first_ballot
        ∷ Promise 1 first_slot first_ballot None
        ∷ Propose 1 first_slot (vote_at first_ballot taken)
        ∷ Voted 1 first_slot (vote_at first_ballot taken)
        ∷ [] }
    ensures replies { (played_alone submits).replies ≡ record { ticket = 1; id = first_id; answer = Accepted } ∷ [] }
    ensures known { (message_at (played_alone submits).kept first_id).known ≡ Some taken }
{}

/// A query_sm is answered by the chain that is known; one of another source, and one for another id, are refused.
pub fn a_query_is_answered_alone()
    ensures shown { (played_alone (submits ++ queries ∷ [])).replies ≡
        record { ticket = 1; id = first_id; answer = Accepted }
        ∷ record { ticket = 2; id = first_id; answer = Shown taken }
        ∷ [] }
    ensures other { (played_alone (submits ++ Arrival (Query first_id account []) ∷ [])).replies ≡
        record { ticket = 1; id = first_id; answer = Accepted }
        ∷ record { ticket = 2; id = first_id; answer = NotOwner }
        ∷ [] }
    ensures unknown { (played_alone (submits ++ Arrival (Query 1000100009 account sender) ∷ [])).replies ≡
        record { ticket = 1; id = first_id; answer = Accepted }
        ∷ record { ticket = 2; id = 1000100009; answer = Unknown }
        ∷ [] }
{}

/// A cancel_sm deletes a message that waits for its first attempt, and comes too late once that is begun.
pub fn a_message_is_cancelled_alone()
    ensures removed { (played_alone (submits ++ cancels ∷ [])).replies ≡
        record { ticket = 1; id = first_id; answer = Accepted }
        ∷ record { ticket = 2; id = first_id; answer = Removed deleted }
        ∷ [] }
    ensures kept { (played_alone (attempts ++ cancels ∷ [])).replies ≡
        record { ticket = 1; id = first_id; answer = Accepted }
        ∷ record { ticket = 2; id = first_id; answer = Kept attempted }
        ∷ [] }
{}

/// A tick begins the first attempt; it is granted once; and with ESME_ROK the message is DELIVERED, its receipt is told, and goes out.
pub fn a_message_is_delivered_alone()
    ensures before { grant_refusal alone (played_alone submits).kept first_id ≡ Some NotChosen }
    ensures begun { (message_at (played_alone attempts).kept first_id).known ≡ Some attempted }
    ensures given { grant_refusal alone (played_alone attempts).kept first_id ≡ None }
    ensures once { grant_refusal alone (played_alone grants).kept first_id ≡ Some AlreadyGranted }
    ensures delivered { (message_at (played_alone delivers).kept first_id).known ≡ Some told }
    ensures receipt { (played_alone delivers).receipts ≡ record { id = first_id; chain = told } ∷ [] }
{}

/// After a restart a node learns again how far a chain has come at a tick, by its own vote; an attempt of its older incarnation is
/// not granted, is lost at the next tick, and is made anew 60 seconds later, if one may begin.
pub fn an_attempt_is_lost_by_a_restart()
    ensures known { (message_at (played_alone restarts).kept first_id).known ≡ Some attempted }
    ensures refused { grant_refusal alone (played_alone restarts).kept first_id ≡ Some OlderIncarnation }
    ensures lost { (message_at (played_alone loses).kept first_id).known ≡ Some lost }
    ensures waits { (message_at (played_alone (loses ++ Tick 1706659259 all_up ∷ [])).kept first_id).known ≡ Some lost }
    ensures held_back { (message_at (played_alone (loses ++ Tick 1706659260 none_begin ∷ [])).kept first_id).known ≡ Some lost }
    ensures again { (message_at (played_alone (loses ++ Tick 1706659260 all_up ∷ [])).kept first_id).known ≡ Some tried_again }
{}

/// Of three nodes one alone takes no message: its request is answered ESME_RSYSERR at the tick 30 seconds after it came, and not
/// before.
pub fn a_node_of_three_waits_for_others()
    ensures waits { (played_of_three (submits ++ Tick 1706659229 none_up ∷ [])).replies ≡ [] }
    ensures late { (played_of_three (submits ++ Tick 1706659230 none_up ∷ [])).replies ≡
        record { ticket = 1; id = first_id; answer = TooLate } ∷ [] }
{}

/// A refusal for a greater ballot ends a round, and the next one, which a tick starts, is above it. It votes no more at a ballot
/// below one that it promised.
pub fn a_refused_round_is_followed_by_a_greater_one()
    ensures refused { (played_of_three (submits ++ Delivery (Refused 3 first_slot first_ballot other_ballot) ∷ Tick 1706659201 none_up ∷ [])).packets ≡
        Prepare 1 first_slot first_ballot
        ∷ Promise 1 first_slot first_ballot None
        ∷ Prepare 1 first_slot third_ballot
        ∷ Promise 1 first_slot third_ballot None
        ∷ [] }
    ensures below { (played_of_three (submits ++ Delivery (Prepare 3 first_slot other_ballot)
        ∷ Delivery (Propose 1 first_slot (vote_at first_ballot taken)) ∷ [])).packets ≡
        Prepare 1 first_slot first_ballot
        ∷ Promise 1 first_slot first_ballot None
        ∷ Promise 1 first_slot other_ballot None
        ∷ Refused 1 first_slot first_ballot other_ballot
        ∷ [] }
{}
