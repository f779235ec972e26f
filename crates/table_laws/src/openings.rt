//! A node by itself that has a new store.

ghost use Rattle.std.specs.Prelude.{ℕ};
ghost use Rattle.node_model.specs.Stepped.{opened_new};
ghost use Rattle.table_laws.specs.Alone.{alone};
ghost use Rattle.table_laws.specs.Tables.{new_table};
ghost use Rattle.table_laws.specs.Resting.{IsResting};

/// A node that opens over a new store is at rest on the empty table.
pub fn a_new_node_is_at_rest()
    ensures { (first_serial default_validity : ℕ) → IsResting (opened_new (alone first_serial default_validity)) (new_table first_serial) }
{}
