//! Laws of what comes by a request: nothing to call, but to cite.

ghost use Rattle.std.specs.Prelude.{ℕ, ◌≤◌, List};
ghost use Rattle.mc_model.specs.message.Ids.{IsIncarnation, IsNode};
ghost use Rattle.mc_model.specs.node.Setup.{Setup};
ghost use Rattle.node_model.specs.Kept.{Kept};
ghost use Rattle.node_laws.specs.Runs.{MayCome};
ghost use Rattle.desk.specs.Arrivals.{requested};
ghost use Rattle.desk.specs.declared.request.Request.{Request};

/// What comes to a node by the request of an account may come to it: the request waits, with room for it, the next id and times to come, or
/// it is refused, for want of room only if there is none.
pub fn a_request_may_come()
    ensures { (setup : Setup) (k : Kept) → IsNode setup.node → IsIncarnation k.incarnation → 1 ≤ k.serial →
        (account : List ℕ) (request : Request) → MayCome setup k (requested setup k account request) }
{}
