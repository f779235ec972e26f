//! An attempt, as the gate has it.

ghost use Rattle.std.specs.Prelude.{◌≡◌, ◌↔◌, IfOk, IsErrOf};
ghost use Rattle.delivery.specs.Deliveries.{EndsInAttempt};
ghost use Rattle.delivery.specs.Kept.{outcome_kept};
ghost use Rattle.delivery.specs.declared.fault.DeliverFault.TheVariants.{NoAttempt};
ghost use Rattle.worker_parts.specs.Attempts.{AreOctetsOf, outcome_by};

use delivery::{DeliverFault, Outcome, deliver_pdu, outcome_of};
use fate_chain::Chain;
use pdu_codec::Pdu;
use sessions::encoded;
use std::alloc::Global;

/// The octets of the deliver_sm (SMPP 3.4, section 4.6.1) of the attempt that is the chain's newest decree, with this sequence_number, for a
/// `Gate`: optional parameters are in it. NoAttempt exactly if the newest decree is no attempt; else an `Err` is want of memory.
pub fn attempt_octets(alloc: Global, chain: &Chain, sequence: u32) -> Result<Vec<u8>, DeliverFault>
    ensures octets { IfOk result (λ octets. AreOctetsOf chain.now.decrees sequence octets.items) }
    ensures refused { IsErrOf result NoAttempt ↔ (EndsInAttempt chain.now.decrees → ⊥) }
{
    let pdu = deliver_pdu(alloc, chain, sequence)?;
    Ok(encoded(alloc, pdu)?)
}

/// What came of the attempt whose deliver_sm has this sequence_number, by the answer that a `Gate` gave: what that PDU tells of it. It failed
/// with the error 997 if there was no answer, or one that tells nothing of it: a PDU with another sequence_number, or one that is no
/// deliver_sm_resp and no generic_nack. It takes no memory.
pub fn attempt_outcome(sequence: u32, answer: Option<Pdu>) -> Outcome
    ensures { outcome_kept result ≡ outcome_by sequence answer }
{
    let told = match &answer {
        Some(pdu) => outcome_of(sequence, pdu),
        None => None,
    };
    drop(answer);
    told.unwrap_or(Outcome::unanswered())
}
