//! A request comes to a node by itself.

ghost use Rattle.std.specs.Prelude.{◌≡◌, ℕ, [], ◌∷◌, Some};
ghost use Rattle.mc_model.specs.node.Actor.{Request};
ghost use Rattle.mc_model.specs.node.Input.{Arrival, Refusal};
ghost use Rattle.node_model.specs.Kept.{Kept};
ghost use Rattle.node_model.specs.Stepped.{stepped};
ghost use Rattle.table_laws.specs.Alone.{alone};
ghost use Rattle.table_laws.specs.Tables.{MayCome, TableNode, receipts_by, reply_to, requested};
ghost use Rattle.table_laws.specs.Resting.{IsResting};
ghost use Rattle.table_laws.specs.Settling.{SettlesOn};

/// A request comes to a node at rest, which gives it the next ticket, and each packet that the node sends is delivered to it, until none is
/// left. Then the node is at rest on the table that the request makes of its table: a submit_sm has its message taken, a cancel_sm has one
/// deleted that it matches and that is idle, and nothing else changes. The request is answered, and nobody else is, by the table then: a
/// submit_sm ESME_ROK, a query_sm and a cancel_sm by the chain of their message. A receipt goes out if one was asked for on the deletion, and
/// no other.
pub fn a_request_settles()
    ensures ticket { (first_serial default_validity : ℕ) (k : Kept) (t : TableNode) → IsResting k t → (request : Request) →
        (stepped (alone first_serial default_validity) k (Arrival request)).outputs.ticket ≡ Some t.ticket }
    ensures settles { (first_serial default_validity : ℕ) (k : Kept) (t : TableNode) → IsResting k t → (request : Request) → MayCome t request →
        SettlesOn (alone first_serial default_validity) (stepped (alone first_serial default_validity) k (Arrival request)) (requested t request)
        (reply_to t request ∷ []) (receipts_by t request) }
{}

/// A request that is refused at once changes nothing at a node at rest, which gives out its status.
pub fn a_refusal_settles()
    ensures refused { (first_serial default_validity : ℕ) (k : Kept) (t : TableNode) → IsResting k t → (status : ℕ) →
        (stepped (alone first_serial default_validity) k (Refusal status)).outputs.refused ≡ Some status }
    ensures settles { (first_serial default_validity : ℕ) (k : Kept) (t : TableNode) → IsResting k t → (status : ℕ) →
        SettlesOn (alone first_serial default_validity) (stepped (alone first_serial default_validity) k (Refusal status)) t [] [] }
{}
