//! What a learner knows, whatever votes it was told of.

ghost use Rattle.std.specs.Prelude.{◌≡◌, ◌∷◌, List, ℕ};
ghost use Rattle.mc_model.specs.synod.OneSlot.{Vote};
ghost use Rattle.mc_model.specs.synod.Packet.{Packet, Slot, Voted};
ghost use Rattle.mc_model.specs.node.Knowledge.{IsKnown};
ghost use Rattle.synod_learner.specs.Counts.{Learned, known_in};
ghost use Rattle.synod_learner.specs.Hearing.{HasHeard};

/// What a learner knows of a message is what a node knows of it to which the same packets came.
pub fn what_is_heard_is_known()
    ensures { (l : Learned) (received : List Packet) (id : ℕ) →
        HasHeard l received → IsKnown l.nodes received id (known_in l.known id) }
{}

/// Packets that tell of no vote teach a learner nothing.
pub fn other_packets_teach_nothing()
    ensures { (l : Learned) (received : List Packet) (packet : Packet) →
        ((voter : ℕ) (slot : Slot) (vote : Vote) → Voted voter slot vote ≡ packet → ⊥) →
        HasHeard l received → HasHeard l (packet ∷ received) }
{}
