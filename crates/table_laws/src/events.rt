//! Events come to a node by itself, one after the other.

ghost use Rattle.std.specs.Prelude.{ℕ, List};
ghost use Rattle.node_model.specs.Kept.{Kept};
ghost use Rattle.node_model.specs.Stepped.{opened_new};
ghost use Rattle.table_laws.specs.Alone.{alone};
ghost use Rattle.table_laws.specs.Events.{Event, MayAllHappen, MayHappen, RunsAs, SettlesBy};
ghost use Rattle.table_laws.specs.Tables.{TableNode, new_table};
ghost use Rattle.table_laws.specs.Resting.{IsResting};

/// An event that may happen comes to a node at rest, and each packet that the node sends is delivered to it, until none is left. Then the node
/// is at rest on the table that the event makes of its table, and has given out the replies and the receipts of that table, and no others.
pub fn an_event_settles()
    ensures { (first_serial default_validity : ℕ) (k : Kept) (t : TableNode) → IsResting k t → (event : Event) → MayHappen t event →
        SettlesBy (alone first_serial default_validity) k t event }
{}

/// For every list of events, requests, refusals, ticks, grants and outcomes, each of which comes once the node has settled after the one
/// before: a node at rest, as one with a new store is, settles after each of them on the table that all events so far make of its table, and
/// with each gives out the replies and the receipts of that table, and no others.
pub fn one_node_alone_is_the_table()
    ensures from_rest { (first_serial default_validity : ℕ) (k : Kept) (t : TableNode) → IsResting k t → (events : List Event) →
        MayAllHappen t events → RunsAs (alone first_serial default_validity) k t events }
    ensures from_new { (first_serial default_validity : ℕ) (events : List Event) → MayAllHappen (new_table first_serial) events →
        RunsAs (alone first_serial default_validity) (opened_new (alone first_serial default_validity)) (new_table first_serial) events }
{}
