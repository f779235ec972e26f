//! Ids, and a chain with a decree of each kind.

ghost use Rattle.std.specs.Prelude.{◌≡◌, ◌+◌, ◌<◌, ◌≤◌, ℕ, Some};
ghost use Rattle.mc_model.specs.message.Ids.{IsNode, IsIncarnation, IsSerial, IsId, id_of, node_of, incarnation_of, serial_of};
ghost use Rattle.mc_model.specs.message.Submission.{Submission};
ghost use Rattle.mc_model.specs.message.Decree.{Delivered};
ghost use Rattle.mc_model.specs.message.Receipts.{AsksReceipt};
ghost use Rattle.mc_model.specs.message.Chain.{IsPermitted, taken_in, final_in};
ghost use Rattle.mc_parts.specs.Example.{delivered_at_second, told_at_second};

/// A node, an incarnation and a serial make an id that has them, and each id is made of those that it has.
pub fn ids_have_their_parts()
    ensures made { (node incarnation serial : ℕ) →
        IsNode node → IsIncarnation incarnation → IsSerial serial →
        IsId (id_of node incarnation serial) }
    ensures node { (node incarnation serial : ℕ) →
        IsIncarnation incarnation → IsSerial serial →
        node_of (id_of node incarnation serial) ≡ node }
    ensures incarnation { (node incarnation serial : ℕ) →
        IsIncarnation incarnation → IsSerial serial →
        incarnation_of (id_of node incarnation serial) ≡ incarnation }
    ensures serial { (node incarnation serial : ℕ) →
        IsSerial serial →
        serial_of (id_of node incarnation serial) ≡ serial }
    ensures whole { (id : ℕ) →
        IsId id → id ≡ id_of (node_of id) (incarnation_of id) (serial_of id) }
{}

/// A message may be taken from its schedule on, attempted, fail, be attempted again a minute later and be delivered then, each
/// by the node and incarnation that its id names; and if a receipt is asked, that is told.
pub fn a_chain_of_each_kind_is_permitted()
    ensures permitted { (id moment : ℕ) (message : Submission) →
        message.schedule ≤ moment → moment + 60 < message.expiry →
        IsPermitted id (delivered_at_second id moment message) }
    ensures taken { (id moment : ℕ) (message : Submission) →
        taken_in (delivered_at_second id moment message) ≡ Some message }
    ensures delivered { (id moment : ℕ) (message : Submission) →
        final_in (delivered_at_second id moment message) ≡ Some Delivered }
    ensures told { (id moment : ℕ) (message : Submission) →
        message.schedule ≤ moment → moment + 60 < message.expiry → AsksReceipt Delivered message →
        IsPermitted id (told_at_second id moment message) }
    ensures stays { (id moment : ℕ) (message : Submission) →
        final_in (told_at_second id moment message) ≡ Some Delivered }
{}
