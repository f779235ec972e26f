//! A round of a node by itself.

ghost use Rattle.std.specs.Prelude.{ℕ, [], ◌∷◌};
ghost use Rattle.mc_model.specs.message.Decree.{Decree};
ghost use Rattle.node_model.specs.Kept.{Kept};
ghost use Rattle.table_laws.specs.Alone.{alone};
ghost use Rattle.table_laws.specs.Tables.{TableNode, chain_at, receipts_with, settled, with_entry};
ghost use Rattle.table_laws.specs.Resting.{IsResting, IsTaken};
ghost use Rattle.table_laws.specs.Settling.{SettlesOn, round_begun};

/// A round for any next decree on the chain of a message that was taken starts at a node at rest, and its Prepare, the promise, the Propose
/// and the vote are delivered to the node. If the decree is a first final state on which a receipt was asked, that is told by a round more. Then
/// the decree stands on the chain, and the Told behind it, the node is at rest, and nothing else has changed. A receipt goes out by a Told.
pub fn a_round_settles()
    ensures { (first_serial default_validity : ℕ) (k : Kept) (t : TableNode) → IsResting k t → (id : ℕ) (decree : Decree) →
        IsTaken k id (decree ∷ chain_at t.table id) →
        SettlesOn (alone first_serial default_validity) (round_begun (alone first_serial default_validity) k id decree (chain_at t.table id))
        (record t { table = with_entry t.table id (settled t (chain_at t.table id) decree) }) [] (receipts_with t id (chain_at t.table id) decree) }
{}
