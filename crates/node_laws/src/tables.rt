//! What is kept of a message.

ghost use Rattle.std.specs.Prelude.{◌≡◌, ℕ};
ghost use Rattle.node_model.specs.Message.{Message};
ghost use Rattle.node_model.specs.Kept.{Kept, message_at, with_message};

/// What is kept of a message is what was put there last, and what is kept of the others stays.
pub fn messages_are_kept_by_their_ids()
    ensures here { (k : Kept) (id : ℕ) (m : Message) → message_at (with_message k id m) id ≡ m }
    ensures elsewhere { (k : Kept) (id other : ℕ) (m : Message) →
        (other ≡ id → ⊥) → message_at (with_message k id m) other ≡ message_at k other }
{}
