//! What a round has counted, whatever promises came.

ghost use Rattle.std.specs.Prelude.{◌≡◌, ◌↔◌, ◌∷◌, List, ℕ, Option, true};
ghost use Rattle.mc_model.specs.synod.OneSlot.{Vote};
ghost use Rattle.mc_model.specs.synod.Packet.{Packet, Promise};
ghost use Rattle.node_model.specs.Message.{Round};
ghost use Rattle.node_model.specs.Proposer.{promised_by};
ghost use Rattle.node_model.specs.Sets.{is_majority};
ghost use Rattle.synod_proposer.specs.Promises.{CountsPromises, IsPromisedBy};

/// A round that has counted the promises among some packets, and counts one more, has counted those and it: who promised, and the
/// highest vote that was reported.
pub fn promises_are_counted()
    ensures { (r : Round) (received : List Packet) (acceptor : ℕ) (report : Option Vote) →
        CountsPromises r received →
        CountsPromises (promised_by r acceptor report) (Promise acceptor r.slot r.ballot report ∷ received) }
{}

/// Its nodes that promised are a majority exactly if a majority of acceptors promised at its ballot.
pub fn a_majority_has_promised()
    ensures { (nodes : ℕ) (r : Round) (received : List Packet) →
        CountsPromises r received →
        (is_majority nodes r.promised ≡ true) ↔ IsPromisedBy nodes received r.slot r.ballot }
{}
