//! Steps of what is kept, as steps of the actor.

ghost use Rattle.std.specs.Prelude.{◌≡◌, ◌+◌, ◌<◌, ◌≤◌, ℕ, Bool};
ghost use Rattle.mc_model.specs.synod.OneSlot.{Vote};
ghost use Rattle.mc_model.specs.synod.Packet.{Ask, Name, Packet, Prepare, Propose, Slot};
ghost use Rattle.mc_model.specs.node.Alone.{Node, opened_new as node_new};
ghost use Rattle.mc_model.specs.node.Core.{IsRefusal};
ghost use Rattle.mc_model.specs.node.Input.{Crash, Delivery, Refusal, Restart};
ghost use Rattle.mc_model.specs.node.Setup.{Setup};
ghost use Rattle.node_model.specs.Kept.{Kept};
ghost use Rattle.node_model.specs.Stepped.{opened_new, stepped};
ghost use Rattle.node_laws.specs.Stands.{IsPlaced, Stands};
ghost use Rattle.node_laws.specs.Steps.{IsAtWork, IsWellMade, StepsAs};

/// What a node keeps, to which a Prepare, a Propose or a question comes, takes an exact step of every actor that it stands for,
/// which that one may take by itself; it gives out the same, and stands for the next one. A Propose names the slot of its chain.
pub fn a_step_of_an_acceptor_is_exact()
    ensures prepare { (setup : Setup) (k : Kept) (s : Node) → Stands setup k s → IsAtWork setup s →
        (sender ballot : ℕ) (slot : Slot) →
        StepsAs setup s (Delivery (Prepare sender slot ballot)) (stepped setup k (Delivery (Prepare sender slot ballot))) }
    ensures propose { (setup : Setup) (k : Kept) (s : Node) → Stands setup k s → IsAtWork setup s →
        (sender : ℕ) (slot : Slot) (vote : Vote) → IsPlaced slot vote →
        StepsAs setup s (Delivery (Propose sender slot vote)) (stepped setup k (Delivery (Propose sender slot vote))) }
    ensures ask { (setup : Setup) (k : Kept) (s : Node) → Stands setup k s → IsAtWork setup s →
        (sender id : ℕ) (name : Name) →
        StepsAs setup s (Delivery (Ask sender id name)) (stepped setup k (Delivery (Ask sender id name))) }
{}

/// What a node keeps that opens with a new store stands for the actor that does; and a restart, which loses all but the records, is
/// an exact step of every actor, as long as there is an incarnation left.
pub fn an_opening_is_exact()
    ensures new { (setup : Setup) → Stands setup (opened_new setup) (node_new setup.first_serial) }
    ensures restart { (setup : Setup) (k : Kept) (s : Node) (lost : ℕ) → Stands setup k s →
        1 ≤ setup.node → setup.node ≤ setup.nodes → s.actor.incarnation + lost < 9999 →
        StepsAs setup s (Restart lost) (stepped setup k (Restart lost)) }
{}

/// A request that is refused at once changes nothing, which is an exact step of every actor; for want of room or of a serial it is
/// refused only if there is none.
pub fn a_refusal_is_exact()
    ensures { (setup : Setup) (k : Kept) (s : Node) → Stands setup k s → (status : ℕ) → IsAtWork setup s → IsRefusal s.actor status →
        StepsAs setup s (Refusal status) (stepped setup k (Refusal status)) }
{}

/// A node stops as a packet comes to it, before it has saved what that one has it save, or after it. What is kept then stands for the
/// actor that stopped so, by an exact step.
pub fn a_stop_is_exact()
    ensures { (setup : Setup) (k : Kept) (s : Node) → Stands setup k s → IsAtWork setup s → (packet : Packet) (after : Bool) →
        IsWellMade packet → StepsAs setup s (Crash packet after) (stepped setup k (Crash packet after)) }
{}
