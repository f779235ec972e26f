//! The deliver_sm of an attempt and of a receipt, as the ESME is to get it.

ghost use Rattle.std.specs.Prelude.{◌≡◌, true, None, Some, option_map, IfOk, Ok};
ghost use Rattle.mc_model.specs.message.Chain.{taken_in};
ghost use Rattle.mc_model.specs.message.Submission.{Submission};
ghost use Rattle.pdu_codec.specs.Pdu.{octets_of};
ghost use Rattle.esme_service.specs.Sendings.{report_octets};
ghost use Rattle.delivery.specs.Deliveries.{EndsInAttempt, delivered_message};
ghost use Rattle.pdu_bodies.specs.declared.pdu.Message.{Message as Carried};
ghost use Rattle.esme_service.specs.Reports.{reported_on};
ghost use Rattle.esme_service.specs.Pushes.{deliver_sm};

use crate::pushed_on::PushedOn;
use delivery::{DeliverFault, deliver_pdu};
use fate_chain::Chain;
use pdu_codec::{Body, Message, Pdu, Tlvs};
use receipts::{ReceiptFault, receipt_pdu};
use sessions::encoded;
use std::alloc::{AllocError, Global};

/// The octets of the deliver_sm of the attempt in which a chain ends, for the session over which it is pushed; none if it ends in none. An
/// `Err` is want of memory.
pub(crate) fn delivery_octets(
    alloc: Global,
    pushed: PushedOn,
    chain: &Chain,
) -> Result<Option<Vec<u8>>, AllocError>
    ensures octets { IfOk result (λ octets. EndsInAttempt chain.now.decrees → (taken : Submission) → taken_in chain.now.decrees ≡ Some taken →
        option_map (λ vec. vec.items) octets ≡ Some (octets_of (deliver_sm pushed.sequence pushed.knows_optional (delivered_message taken)))) }
    ensures none { ¬ EndsInAttempt chain.now.decrees → result ≡ Ok None }
{
    match deliver_pdu(alloc, chain, pushed.sequence) {
        Ok(pdu) => Ok(Some(encoded(alloc, fitted(alloc, pushed, pdu))?)),
        Err(DeliverFault::Memory) => Err(AllocError),
        Err(DeliverFault::NoAttempt) => Ok(None),
    }
}

/// The octets of the deliver_sm of the receipt by a chain, for the session over which it is pushed; none if the chain does not end in a Told
/// behind a fate of which a receipt was asked. An `Err` is want of memory.
pub(crate) fn receipt_octets(
    alloc: Global,
    pushed: PushedOn,
    chain: &Chain,
) -> Result<Option<Vec<u8>>, AllocError>
    ensures octets { IfOk result (λ octets. option_map (λ vec. vec.items) octets ≡
        option_map (report_octets pushed.sequence pushed.knows_optional) (reported_on chain.now.id chain.now.decrees)) }
    ensures none { reported_on chain.now.id chain.now.decrees ≡ None → result ≡ Ok None }
{
    chain.bounds();
    match receipt_pdu(alloc, chain, pushed.sequence) {
        Ok(pdu) => Ok(Some(encoded(alloc, fitted(alloc, pushed, pdu))?)),
        Err(ReceiptFault::Memory) => Err(AllocError),
        Err(ReceiptFault::NoFate) => Ok(None),
        Err(ReceiptFault::NotAsked) => Ok(None),
        Err(ReceiptFault::NotTold) => Ok(None),
    }
}

/// A deliver_sm as an ESME is to get it: without its optional parameters, if the ESME knows none.
fn fitted(alloc: Global, pushed: PushedOn, pdu: Pdu) -> Pdu
    ensures { (message : Carried) → pdu ≡ deliver_sm pushed.sequence true message → result ≡ deliver_sm pushed.sequence pushed.knows_optional message }
{
    if pushed.knows_optional {
        return pdu;
    }
    let Pdu {
        status,
        sequence,
        body,
    } = pdu;
    let body = match body {
        Body::DeliverSm(message) => Body::DeliverSm(Message {
            tlvs: Tlvs::empty(alloc),
            ..message
        }),
        other => other,
    };
    Pdu {
        status,
        sequence,
        body,
    }
}
