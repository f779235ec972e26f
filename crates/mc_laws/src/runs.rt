//! Whole runs: whatever packets are delivered, lost, repeated or reordered, and whatever nodes stop and start anew.

ghost use Rattle.std.specs.Prelude.{◌≡◌, ◌⊎◌, ◌∷◌, ◌++◌, ◌≤◌, ℕ, List, Some, length};
ghost use Rattle.mc_model.specs.message.Ids.{node_of};
ghost use Rattle.mc_model.specs.message.Decree.{Author, Decree, Attempt, Deleted};
ghost use Rattle.mc_model.specs.message.Chain.{GoesOn, IsPermitted, final_in};
ghost use Rattle.mc_model.specs.synod.Lists.{In};
ghost use Rattle.mc_model.specs.synod.OneSlot.{Vote};
ghost use Rattle.mc_model.specs.synod.Packet.{Packet, Slot, Propose, slot_of};
ghost use Rattle.mc_model.specs.node.Outcome.{Outcome, IsOutcome};
ghost use Rattle.mc_model.specs.node.Room.{most_waiting};
ghost use Rattle.mc_model.specs.node.Replies.{Removed};
ghost use Rattle.mc_model.specs.node.Act.{Concludes, Restarts, Stops, Abandons, Grants, Replies, Reports};
ghost use Rattle.mc_model.specs.node.Concerns.{Concerns};
ghost use Rattle.mc_model.specs.node.Knowledge.{Knows};
ghost use Rattle.mc_model.specs.cluster.World.{Deed, cast, IsChosenIn, Run, past_of, world_of};
ghost use Rattle.mc_model.specs.cluster.Fate.{IsToldChosen, States, deed_by};
ghost use Rattle.mc_model.specs.cluster.Loose.{LooseRun, end_of};
ghost use Rattle.mc_model.specs.cluster.Decrees.{IsDeletion, HasItsError, IsTimely};
ghost use Rattle.mc_laws.specs.Receipts.{EndsInItsTold};

/// Once a chain is chosen at a ballot, every vote of its slot at that ballot or above carries it, across all starts anew and
/// votes of which no packet told, in every loose run.
pub fn what_is_chosen_stays()
    ensures { (run : LooseRun) (slot : Slot) (chosen : Vote) (acceptor : ℕ) (vote : Vote) →
        IsChosenIn (end_of run) slot chosen →
        In (cast acceptor slot vote) (end_of run).votes →
        chosen.ballot ≤ vote.ballot → vote.chain ≡ chosen.chain }
{}

/// Of two chosen chains of one message one goes on from the other, in every loose run.
pub fn chosen_chains_agree()
    ensures { (run : LooseRun) (one other : Slot) (first second : Vote) →
        one.id ≡ other.id →
        IsChosenIn (end_of run) one first →
        IsChosenIn (end_of run) other second →
        GoesOn first.chain second.chain ⊎ GoesOn second.chain first.chain }
{}

/// Each chosen chain is a permitted one: its message was taken before its expiry, by the node and in the incarnation that its id names, and each
/// other decree may follow the one before.
pub fn chosen_chains_are_permitted()
    ensures { (run : Run) (slot : Slot) (vote : Vote) →
        IsChosenIn (world_of run) slot vote → IsPermitted slot.id vote.chain }
{}

/// While an attempt of a node in its incarnation is not closed there, no proposal goes on from it: neither a cancel nor the
/// expiry passes it, in any loose run.
pub fn an_open_attempt_is_not_passed()
    ensures { (run : LooseRun) (sender : ℕ) (slot : Slot) (vote : Vote) (node : ℕ) (last : Decree) (more : List Decree)
        (newest : Decree) (older : List Decree) (number : ℕ) →
        In (Propose sender slot vote) (end_of run).packets →
        vote.chain ≡ last ∷ (more ++ newest ∷ older) →
        newest.kind ≡ Attempt number →
        newest.author ≡ record { node = node; incarnation = ((end_of run).actors node).incarnation } →
        ((outcome : Outcome) → In (slot_of slot.id (newest ∷ older), outcome) ((end_of run).actors node).closed → ⊥) → ⊥ }
{}

/// Each statement that a message is DELETED, as ESME_ROK to a cancel_sm, stands on a cancel_sm that came before, with the
/// account and the addresses of what was taken, and was settled.
pub fn deleted_stands_on_a_cancel()
    ensures { (run : Run) (newer : List Deed) (stating : Deed) (older : List Deed) (id : ℕ) →
        past_of run ≡ newer ++ stating ∷ older →
        (states : States stating id Deleted) → IsDeletion id states.chain older }
{}

/// In a cluster every packet that was sent concerns every node, so that no node ignores any.
pub fn every_packet_concerns_every_node()
    ensures { (run : Run) (node : ℕ) (packet : Packet) →
        In packet (world_of run).packets →
        Concerns run.nodes node ((world_of run).actors node) packet }
{}

/// ESME_ROK to a cancel_sm tells of a chain that ends in DELETED.
pub fn a_cancelled_message_is_deleted()
    ensures { (run : Run) (deed : Deed) (ticket id : ℕ) (chain : List Decree) →
        In deed (past_of run) → deed.act ≡ Replies ticket id (Removed chain) → final_in chain ≡ Some Deleted }
{}

/// A receipt is written by the node that the id names, and by no other.
pub fn receipts_are_of_the_node_of_the_id()
    ensures { (run : Run) (deed : Deed) (id : ℕ) (chain : List Decree) →
        In deed (past_of run) → deed.act ≡ Reports id chain → node_of id ≡ deed.node }
{}

/// A receipt is written on a chain that ends in a Told of the node that writes it, in that incarnation of it. That chain is chosen; and the node knows it
/// then, and as long as it lives.
pub fn a_receipt_stands_on_its_told()
    ensures told { (run : Run) (deed : Deed) (id : ℕ) (chain : List Decree) →
        In deed (past_of run) → deed.act ≡ Reports id chain → EndsInItsTold deed chain }
    ensures chosen { (run : Run) (deed : Deed) (id : ℕ) (chain : List Decree) →
        In deed (past_of run) → deed.act ≡ Reports id chain → IsToldChosen (world_of run) id chain }
    ensures known { (run : Run) (deed : Deed) (id : ℕ) (chain : List Decree) →
        In deed (past_of run) → deed.act ≡ Reports id chain → deed.incarnation ≡ ((world_of run).actors deed.node).incarnation →
        Knows run.nodes ((world_of run).actors deed.node).received id chain }
{}

/// An attempt that was given up for want of a session was not granted by that node in that incarnation, neither before nor
/// after.
pub fn what_is_given_up_was_never_granted()
    ensures { (run : Run) (author : Author) (slot : Slot) →
        In (deed_by author (Abandons slot)) (past_of run) → In (deed_by author (Grants slot)) (past_of run) → ⊥ }
{}

/// The newest decree of a chain that is proposed has the moment of the decree before it, or one that its author's clock had in
/// that incarnation: no decree is ahead of the clock and the chain.
pub fn no_decree_is_ahead_of_the_clock()
    ensures { (run : Run) (sender : ℕ) (slot : Slot) (vote : Vote) →
        In (Propose sender slot vote) (world_of run).packets → IsTimely (past_of run) vote.chain }
{}

/// A proposal that a message expires or is deleted has no error, and one that it cannot be delivered has that of its last
/// failure.
pub fn decrees_have_their_errors()
    ensures { (run : Run) (sender : ℕ) (slot : Slot) (vote : Vote) →
        In (Propose sender slot vote) (world_of run).packets → HasItsError vote.chain }
{}

/// No more than 1,000 requests wait at a node.
pub fn a_full_desk_takes_no_request()
    ensures { (run : Run) (node : ℕ) → length ((world_of run).actors node).waiting ≤ most_waiting }
{}

/// The outcome of an attempt is one that a response can give, or that there was none; and in an incarnation it comes once.
pub fn an_outcome_is_possible_and_comes_once()
    ensures possible { (run : Run) (deed : Deed) (slot : Slot) (outcome : Outcome) →
        In deed (past_of run) → deed.act ≡ Concludes slot outcome → IsOutcome outcome }
    ensures once { (run : Run) (newer : List Deed) (deed : Deed) (older : List Deed) (slot : Slot) (outcome other : Outcome) →
        past_of run ≡ newer ++ deed ∷ older → deed.act ≡ Concludes slot outcome →
        In (record deed { act = Concludes slot other }) older → ⊥ }
{}

/// A node that has stopped does nothing more in that incarnation but start anew.
pub fn a_node_that_stopped_starts_anew()
    ensures { (run : Run) (newer : List Deed) (deed : Deed) (older : List Deed) →
        past_of run ≡ newer ++ deed ∷ older → In (record deed { act = Stops }) older →
        (lost : ℕ) × (serial : ℕ) × (deed.act ≡ Restarts lost serial) }
{}
