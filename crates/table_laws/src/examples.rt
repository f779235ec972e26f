//! A worked row, over the table.

ghost use Rattle.std.specs.Prelude.{◌≡◌, false, [], ◌∷◌};
ghost use Rattle.mc_model.specs.node.Replies.{Shown};
ghost use Rattle.mc_parts.specs.FirstMessage.{first_id, told};
ghost use Rattle.table_laws.specs.Tables.{new_table};
ghost use Rattle.table_laws.specs.Events.{MayAllHappen, receipts_of_event, replies_by};
ghost use Rattle.table_laws.specs.Examples.{after_grant, after_life, asks, concludes, life};

/// A message is taken, attempted, granted and delivered: all that may happen. The table then has its chain, a receipt goes out with the last
/// event, and a query_sm is answered by that chain.
pub fn a_message_is_delivered_on_the_table()
    ensures may { MayAllHappen (new_table 1) life }
    ensures table { after_life.table ≡ (first_id, record { chain = told; granted = false }) ∷ [] }
    ensures receipt { receipts_of_event after_grant concludes ≡ record { id = first_id; chain = told } ∷ [] }
    ensures shown { replies_by after_life asks ≡ record { ticket = 2; id = first_id; answer = Shown told } ∷ [] }
{}
