//! One message in the synod.

ghost use Rattle.std.specs.Prelude.{◌≡◌, ◌↔◌, ◌∷◌, [], ℕ, Bool, List, Option, true, false};
ghost use Rattle.mc_model.specs.synod.Acceptor.{IsTold, Records};
ghost use Rattle.mc_model.specs.synod.Lists.{In};
ghost use Rattle.mc_model.specs.synod.Majority.{Majority};
ghost use Rattle.mc_model.specs.synod.OneSlot.{Vote};
ghost use Rattle.mc_model.specs.synod.Packet.{Name, Packet, Prepare, Promise, Propose, Slot, Voted, slot_of};
ghost use Rattle.mc_model.specs.node.Actor.{Actor};
ghost use Rattle.mc_model.specs.node.Knowledge.{IsLearned};
ghost use Rattle.mc_model.specs.node.Rounds.{IsPromised};
ghost use Rattle.mc_model.specs.node.Settling.{HasTold};
ghost use Rattle.node_model.specs.Acceptor.{ArePlaced, prepare_judged, propose_judged, told_of};
ghost use Rattle.node_model.specs.Learner.{heard, makes_known};
ghost use Rattle.node_model.specs.Message.{Message, unseen};
ghost use Rattle.node_model.specs.Packets.{known_then};
ghost use Rattle.node_model.specs.Same.{same_vote};
ghost use Rattle.node_model.specs.Sets.{is_majority};
ghost use Rattle.node_laws.specs.Answering.{IsAnswered};
ghost use Rattle.node_laws.specs.Stands.{HasHeard, TellsOfNone};

/// Two votes are found the same exactly if they are equal.
pub fn votes_are_compared_exactly()
    ensures { (a b : Vote) → (same_vote a b ≡ true) ↔ (a ≡ b) }
{}

/// A set of nodes is more than half of them exactly if a majority of them told of a vote, promised at a ballot, or told to the
/// questions of a request, if it is the set of those that did.
pub fn a_set_decides_a_majority()
    ensures votes { (nodes : ℕ) (received : List Packet) (slot : Slot) (vote : Vote) (voters : ℕ → Bool) →
        ((node : ℕ) → (voters node ≡ true) ↔ In (Voted node slot vote) received) →
        (is_majority nodes voters ≡ true) ↔ IsLearned nodes received slot vote }
    ensures promises { (nodes : ℕ) (a : Actor) (slot : Slot) (ballot : ℕ) (promised : ℕ → Bool) →
        ((node : ℕ) → (promised node ≡ true) ↔ ((report : Option Vote) × In (Promise node slot ballot report) a.received)) →
        (is_majority nodes promised ≡ true) ↔ IsPromised nodes a slot ballot }
    ensures tells { (nodes : ℕ) (received : List Packet) (name : Name) (tellers : ℕ → Bool) →
        ((node : ℕ) → (tellers node ≡ true) ↔ HasTold received name node) →
        (is_majority nodes tellers ≡ true) ↔ Majority nodes (HasTold received name) }
{}

/// Once a vote is heard, what is known of its message is what a node knows to which the packet came: its chain, if it becomes
/// known by it, and else what was known. Of other messages nothing becomes known, and nothing by other packets.
pub fn what_is_heard_is_known()
    ensures nothing { (nodes id : ℕ) → HasHeard nodes [] id unseen }
    ensures known { (nodes voter id : ℕ) (vote : Vote) (received : List Packet) (m : Message) →
        HasHeard nodes received id m →
        makes_known nodes (heard m voter vote) vote ≡ true →
        HasHeard nodes (Voted voter (slot_of id vote.chain) vote ∷ received) id (known_then (heard m voter vote) vote.chain) }
    ensures stays { (nodes voter id : ℕ) (vote : Vote) (received : List Packet) (m : Message) →
        HasHeard nodes received id m →
        makes_known nodes (heard m voter vote) vote ≡ false →
        HasHeard nodes (Voted voter (slot_of id vote.chain) vote ∷ received) id (heard m voter vote) }
    ensures others { (nodes id : ℕ) (packet : Packet) (received : List Packet) (m : Message) →
        TellsOfNone packet id → HasHeard nodes received id m → HasHeard nodes (packet ∷ received) id m }
{}

/// What an acceptor answers, and the record that it leaves, are those of the actor, by one act; and it tells of the vote at the
/// highest place of a message at which it has one.
pub fn an_acceptor_answers_as_the_actor()
    ensures prepare { (node sender : ℕ) (a : Actor) (records : Records) (slot : Slot) (ballot : ℕ) →
        IsAnswered node a records (Prepare sender slot ballot) slot (prepare_judged node slot ballot (records slot)) }
    ensures propose { (node sender : ℕ) (a : Actor) (records : Records) (slot : Slot) (vote : Vote) →
        IsAnswered node a records (Propose sender slot vote) slot (propose_judged node slot vote (records slot)) }
    ensures tell { (records : Records) (id : ℕ) → ArePlaced records → IsTold records id (told_of records id) }
{}
