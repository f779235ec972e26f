//! Steps of what is kept to which a packet of another comes, as steps of the actor.

ghost use Rattle.std.specs.Prelude.{ℕ, Option};
ghost use Rattle.mc_model.specs.message.Chain.{IsPermitted};
ghost use Rattle.mc_model.specs.message.Ids.{IsNode};
ghost use Rattle.mc_model.specs.synod.OneSlot.{Vote};
ghost use Rattle.mc_model.specs.synod.Packet.{Name, Packet, Promise, Refused, Slot, Tell, TopVote, Voted};
ghost use Rattle.mc_model.specs.node.Alone.{Node};
ghost use Rattle.mc_model.specs.node.Input.{Delivery};
ghost use Rattle.mc_model.specs.node.Setup.{Setup};
ghost use Rattle.node_model.specs.Kept.{Kept};
ghost use Rattle.node_model.specs.Stepped.{stepped};
ghost use Rattle.node_laws.specs.Stands.{IsWithin, Stands};
ghost use Rattle.node_laws.specs.Steps.{IsAtWork, IsWellMade, StepsAs};

/// A refusal tells the proposer a round, if it is of a ballot of its own, and ends the round that runs, if it is of that one and for a
/// greater ballot. That is an exact step of every actor for which what is kept stands.
pub fn a_refused_ballot_is_exact()
    ensures { (setup : Setup) (k : Kept) (s : Node) → Stands setup k s → IsAtWork setup s →
        (sender ballot promised : ℕ) (slot : Slot) →
        StepsAs setup s (Delivery (Refused sender slot ballot promised)) (stepped setup k (Delivery (Refused sender slot ballot promised))) }
{}

/// A promise is counted if it is for the round that runs. With the one that completes a majority, and with no other, the chain of the
/// highest vote that was reported is proposed, or if there is none the one that the round is for. That is an exact step of every actor
/// for which what is kept stands.
pub fn a_promise_is_exact()
    ensures { (setup : Setup) (k : Kept) (s : Node) → Stands setup k s → IsAtWork setup s →
        (sender ballot : ℕ) (slot : Slot) (report : Option Vote) →
        StepsAs setup s (Delivery (Promise sender slot ballot report)) (stepped setup k (Delivery (Promise sender slot ballot report))) }
{}

/// A vote of which the node is told is heard. If a majority told of it, and its chain is longer than what was known, the chain is known
/// from then on: a round that it reaches ends, each cancel_sm of the message that is then settled is settled, a message that is to be
/// deleted for one has a round started, whoever waits for what is now known is answered, and a receipt goes out on a final state that
/// was not known before. That is an exact step of every actor for which what is kept stands. The chain is a permitted one.
pub fn a_vote_is_exact()
    ensures { (setup : Setup) (k : Kept) (s : Node) → Stands setup k s → IsAtWork setup s → IsNode setup.node →
        (voter : ℕ) (slot : Slot) (vote : Vote) → IsPermitted slot.id vote.chain →
        StepsAs setup s (Delivery (Voted voter slot vote)) (stepped setup k (Delivery (Voted voter slot vote))) }
{}

/// What is told to a question of this node in this incarnation, by one of the nodes and about its message, is kept of the request that
/// waits under its ticket. A cancel_sm that is settled by it may have its message deleted, and if a majority has told of more than is
/// known, that is followed; the request is answered, if it has an answer then. That is an exact step of every actor for which what is
/// kept stands, and so it is if the Tell is another's or comes too late. What is told is at one of the places of a chain.
pub fn a_tell_is_exact()
    ensures { (setup : Setup) (k : Kept) (s : Node) → Stands setup k s → IsAtWork setup s → IsNode setup.node →
        (teller : ℕ) (name : Name) (told : Option TopVote) → IsWithin told →
        StepsAs setup s (Delivery (Tell teller name told)) (stepped setup k (Delivery (Tell teller name told))) }
{}

/// With every packet, from whatever sender and whether it concerns the node or not, what is kept takes an exact step of every actor for
/// which it stands. What a Propose, a vote and a Tell carry is well made.
pub fn a_step_of_a_packet_is_exact()
    ensures { (setup : Setup) (k : Kept) (s : Node) → Stands setup k s → IsAtWork setup s → IsNode setup.node →
        (packet : Packet) → IsWellMade packet → StepsAs setup s (Delivery packet) (stepped setup k (Delivery packet)) }
{}
