//! An attempt is asked for at a node by itself, and its outcome comes.

ghost use Rattle.std.specs.Prelude.{◌≡◌, ℕ, ◌<◌, [], length, None, Some};
ghost use Rattle.mc_model.specs.node.Input.{Grant, Response};
ghost use Rattle.mc_model.specs.node.Outcome.{Outcome};
ghost use Rattle.node_model.specs.Attempts.{grant_refusal};
ghost use Rattle.node_model.specs.Kept.{Kept};
ghost use Rattle.node_model.specs.Stepped.{stepped};
ghost use Rattle.table_laws.specs.Alone.{alone};
ghost use Rattle.table_laws.specs.Attempts.{concluded_at, granted_at, newest_slot, receipts_on, refusal_at};
ghost use Rattle.table_laws.specs.Tables.{TableNode, chain_at};
ghost use Rattle.table_laws.specs.Resting.{IsResting};
ghost use Rattle.table_laws.specs.Settling.{SettlesOn};

/// Of a node at rest a grant is refused for what the table says, and if for nothing, the newest attempt of the message is granted: the
/// node gives it out, and stays at rest on the table in which that attempt is marked as granted.
pub fn a_grant_settles()
    ensures refused { (first_serial default_validity : ℕ) (k : Kept) (t : TableNode) → IsResting k t → (id : ℕ) →
        grant_refusal (alone first_serial default_validity) k id ≡ refusal_at t id }
    ensures granted { (first_serial default_validity : ℕ) (k : Kept) (t : TableNode) → IsResting k t → (id : ℕ) → refusal_at t id ≡ None →
        (stepped (alone first_serial default_validity) k (Grant (newest_slot t id))).outputs.granted ≡ Some (newest_slot t id) }
    ensures settles { (first_serial default_validity : ℕ) (k : Kept) (t : TableNode) → IsResting k t → (id : ℕ) → refusal_at t id ≡ None →
        SettlesOn (alone first_serial default_validity) (stepped (alone first_serial default_validity) k (Grant (newest_slot t id)))
        (granted_at t id) [] [] }
{}

/// The outcome of an attempt, the newest decree on the chain of a message, comes to a node at rest, and each packet that the node sends is
/// delivered to it, until none is left. Then the node is at rest on the table with the decree of that outcome on the chain. A receipt goes
/// out if it is a final state for which one was asked.
pub fn a_response_settles()
    ensures { (first_serial default_validity : ℕ) (k : Kept) (t : TableNode) → IsResting k t → (id : ℕ) → 0 < length (chain_at t.table id) →
        (outcome : Outcome) →
        SettlesOn (alone first_serial default_validity) (stepped (alone first_serial default_validity) k (Response (newest_slot t id) outcome))
        (concluded_at t id outcome) [] (receipts_on t id outcome) }
{}
