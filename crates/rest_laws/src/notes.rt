//! Notes, by which a node knows again what it knew.

ghost use Rattle.std.specs.Prelude.{◌≡◌, ◌∷◌, ℕ, Bool, List, [], Some, true};
ghost use Rattle.std.specs.List.Sorted.{IsStrictlySortedBy};
ghost use Rattle.std.specs.Map.{keys_of};
ghost use Rattle.std.specs.Ordering.{nat_cmp};
ghost use Rattle.mc_model.specs.cluster.Steps.{Cluster, setup_of};
ghost use Rattle.mc_model.specs.message.Decree.{Decree};
ghost use Rattle.mc_model.specs.node.Setup.{Setup};
ghost use Rattle.mc_model.specs.synod.Lists.{In};
ghost use Rattle.mc_model.specs.synod.OneSlot.{Vote};
ghost use Rattle.mc_model.specs.synod.Packet.{Voted, slot_of};
ghost use Rattle.node_model.specs.Kept.{Kept, message_at};
ghost use Rattle.node_model.specs.Stepped.{opened_new, restarted};
ghost use Rattle.node_laws.specs.Clusters.{MayHappen, NodeInput, kept_reached};
ghost use Rattle.node_laws.specs.Examples.{alone};
ghost use Rattle.rest_laws.specs.AtRest.{is_over};
ghost use Rattle.rest_laws.specs.FirstMessage.{first_gone, first_note};
ghost use Rattle.rest_laws.specs.Notes.{
  AreAllNoted,
  AreNotes,
  HasNote,
  IsFresh,
  IsNote,
  KnowsAgain,
  Note,
  OpensOver,
  StartsNoRound,
  StartsWithout,
  waits,
};

/// Each vote that a node of a cluster has heard, by what it keeps, stands among the packets that were sent: so it may come again, to that
/// node or to any.
pub fn what_was_heard_was_sent()
    ensures { (cluster : Cluster) (inputs : List NodeInput) → MayHappen cluster inputs → (node id voter : ℕ) (vote : Vote) →
        (message_at ((kept_reached cluster inputs).kept node) id).votes vote voter ≡ true →
        In (Voted voter (slot_of id vote.chain) vote) (kept_reached cluster inputs).packets }
{}

/// And of each chain that a node knows there is a note: votes of a majority, each of which it heard, and which it may hear again once it
/// has started anew.
pub fn what_is_known_may_be_noted()
    ensures { (cluster : Cluster) (inputs : List NodeInput) → MayHappen cluster inputs → (node id : ℕ) (chain : List Decree) →
        (message_at ((kept_reached cluster inputs).kept node) id).known ≡ Some chain →
        HasNote (setup_of cluster node) ((kept_reached cluster inputs).kept node) id chain }
{}

/// A node that hears again the votes that it noted knows what it knew, and gives nothing out.
pub fn what_was_noted_is_known_again()
    ensures { (setup : Setup) (k : Kept) (n : Note) → IsFresh k n.slot.id → IsNote setup k n → StartsNoRound setup n.slot.id n.vote.chain →
        KnowsAgain setup k n }
{}

/// So it is of each chain that is over, and of each that waits or is attempted. Left out is a final state alone of which a receipt is still
/// to be told.
pub fn most_chains_start_no_round()
    ensures over { (setup : Setup) (id : ℕ) (chain : List Decree) → is_over chain ≡ true → StartsNoRound setup id chain }
    ensures waits { (setup : Setup) (id : ℕ) (newest : Decree) (older : List Decree) → waits newest.kind ≡ true →
        StartsNoRound setup id (newest ∷ older) }
{}

/// So a node starts anew over notes: with what a start anew keeps, and the chains of the notes known.
pub fn a_node_starts_anew_over_notes()
    ensures { (setup : Setup) (k : Kept) (lost : ℕ) (notes : List Note) → AreNotes setup (restarted setup k lost) notes →
        OpensOver setup k lost notes }
{}

/// A node that dropped messages starts anew as if behind the start the votes came again that were noted of them: by these nothing goes
/// out, and what is gone is at rest then.
pub fn a_start_anew_does_without_what_is_gone()
    ensures { (setup : Setup) (gone : ℕ → Bool) (k : Kept) (lost : ℕ) (notes : List Note) → IsStrictlySortedBy nat_cmp (keys_of k.messages) →
        AreAllNoted setup gone (restarted setup k lost) notes → StartsWithout setup gone k lost notes }
{}

/// A worked row: a node alone starts anew with the note of its first message, whose receipt it told in its first life.
pub fn a_first_message_is_noted()
    ensures noted { AreAllNoted alone first_gone (restarted alone (opened_new alone) 0) (first_note ∷ []) }
    ensures starts { StartsWithout alone first_gone (opened_new alone) 0 (first_note ∷ []) }
{}
