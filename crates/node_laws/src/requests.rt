//! A request that comes to what is kept, as a step of the actor.

ghost use Rattle.mc_model.specs.message.Ids.{IsNode};
ghost use Rattle.mc_model.specs.node.Actor.{Request};
ghost use Rattle.mc_model.specs.node.Alone.{Node};
ghost use Rattle.mc_model.specs.node.Input.{Arrival};
ghost use Rattle.mc_model.specs.node.Room.{MayWait};
ghost use Rattle.mc_model.specs.node.Setup.{Setup};
ghost use Rattle.node_model.specs.Kept.{Kept};
ghost use Rattle.node_model.specs.Stepped.{stepped};
ghost use Rattle.node_laws.specs.Stands.{Stands};
ghost use Rattle.node_laws.specs.Steps.{IsAtWork, StepsAs};

/// A request that may wait gets the next ticket: a submit_sm starts the round in which its message is taken, a query_sm and a
/// cancel_sm ask how far the chain has come. That is an exact step of every actor for which what is kept stands.
pub fn an_arrival_is_exact()
    ensures { (setup : Setup) (k : Kept) (s : Node) → Stands setup k s → IsAtWork setup s → IsNode setup.node →
        (request : Request) → MayWait setup.node s.actor s.actor.ticket request →
        StepsAs setup s (Arrival request) (stepped setup k (Arrival request)) }
{}
