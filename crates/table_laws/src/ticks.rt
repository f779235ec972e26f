//! A tick comes to a node by itself.

ghost use Rattle.std.specs.Prelude.{◌≡◌, ℕ, Bool, List, []};
ghost use Rattle.mc_model.specs.node.Reach.{of_all};
ghost use Rattle.mc_model.specs.node.Input.{Tick};
ghost use Rattle.node_model.specs.Kept.{Kept};
ghost use Rattle.node_model.specs.Stepped.{stepped};
ghost use Rattle.table_laws.specs.Alone.{alone};
ghost use Rattle.table_laws.specs.Tables.{TableNode};
ghost use Rattle.table_laws.specs.Ticks.{receipts_ticked, ticked};
ghost use Rattle.table_laws.specs.Resting.{IsResting};
ghost use Rattle.table_laws.specs.Settling.{SettlesOn};

/// A tick comes to a node at rest, at any moment, whoever is up, and each packet that the node sends is delivered to it, until none is left:
/// the rounds of all messages for which something is due run side by side. Then the node is at rest on the table that the tick makes of its
/// table: each message has got the decree that is due for it, if any is, and that its receipt is told, if one was asked on a final state; nothing
/// else has changed. Nobody is answered, and a receipt goes out for each message whose receipt is told.
pub fn a_tick_settles()
    ensures { (first_serial default_validity : ℕ) (k : Kept) (t : TableNode) → IsResting k t → (moment : ℕ) (up : List ℕ → Bool) →
        SettlesOn (alone first_serial default_validity) (stepped (alone first_serial default_validity) k (Tick moment (of_all up))) (ticked t moment up)
        [] (receipts_ticked t moment up) }
{}
