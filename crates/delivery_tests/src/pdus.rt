//! The octets of deliver_sms, from what was asked of this message centre.

use crate::chains::*;
use crate::receipt_vectors::*;
use crate::same::assert_same;
use delivery::{DeliverFault, deliver_pdu};
use pdu_codec::{Pdu, encode};
use receipts::{ReceiptFault, receipt_pdu};
use std::alloc::Global;
use std::process::Abort;

/// The deliver_sm of an attempt, sequence_number 1: from 144 to 155 with the text Hi.
const DELIVERY: &[u8] = b"\0\0\0\x29\0\0\0\x05\0\0\0\0\0\0\0\x01\
\0\x01\x01144\0\x01\x01155\0\0\0\0\0\0\0\0\0\0\x02Hi";

/// That these are the octets of a PDU. It is let go by a call, which makes the proof shorter.
pub fn assert_octets(rt: &impl Abort, alloc: Global, pdu: Pdu, wanted: &[u8]) {
    let mut octets = Vec::new(alloc);
    encode(&pdu, &mut octets).expect(rt, "octets");
    drop(pdu);
    assert_same(rt, &octets.as_slice(), &wanted);
}

/// That these are the octets of the deliver_sm of the attempt after these decrees, with the sequence_number 1.
fn assert_delivery(rt: &impl Abort, alloc: Global, steps: &[Step], wanted: &[u8]) {
    let chain = chain(rt, alloc, 1, steps);
    let pdu = deliver_pdu(alloc, &chain, 1).expect(rt, "a deliver_sm");
    drop(chain);
    assert_octets(rt, alloc, pdu, wanted);
}

/// That they are those of the deliver_sm of the receipt, with the sequence_number 2.
fn assert_receipt(rt: &impl Abort, alloc: Global, steps: &[Step], wanted: &[u8]) {
    let chain = chain(rt, alloc, 1, steps);
    let pdu = receipt_pdu(alloc, &chain, 2).expect(rt, "a receipt");
    drop(chain);
    assert_octets(rt, alloc, pdu, wanted);
}

/// Why there is no deliver_sm after these decrees.
fn delivery_refused(rt: &impl Abort, alloc: Global, steps: &[Step]) -> Option<DeliverFault> {
    let chain = chain(rt, alloc, 1, steps);
    let refused = deliver_pdu(alloc, &chain, 1).err();
    drop(chain);
    refused
}

/// Why there is none of a receipt.
fn receipt_refused(
    rt: &impl Abort,
    alloc: Global,
    registered_delivery: u8,
    steps: &[Step],
) -> Option<ReceiptFault> {
    let chain = chain(rt, alloc, registered_delivery, steps);
    let refused = receipt_pdu(alloc, &chain, 2).err();
    drop(chain);
    refused
}

#[test]
fn an_attempt_is_delivered(rt: HostRuntime) {
    assert_delivery(&rt, rt.alloc(), &[Step::Attempt(0, 1)], DELIVERY);
}

#[test]
fn what_is_no_attempt_is_not_delivered(rt: HostRuntime) {
    let alloc = rt.alloc();
    let taken = delivery_refused(&rt, alloc, &[]);
    let failed = delivery_refused(&rt, alloc, &FAILURES);
    let refused = Some(DeliverFault::NoAttempt);
    assert_same(&rt, &(taken, failed), &(refused, refused));
    let told = delivery_refused(&rt, alloc, TOLD_DELIVERED);
    assert_same(&rt, &told, &refused);
}

#[test]
fn a_receipt_of_each_final_state_goes_back(rt: HostRuntime) {
    let alloc = rt.alloc();
    assert_receipt(&rt, alloc, TOLD_DELIVERED, DELIVERED_RECEIPT);
    assert_receipt(&rt, alloc, TOLD_EXPIRED, EXPIRED_RECEIPT);
    assert_receipt(&rt, alloc, TOLD_DELETED, DELETED_RECEIPT);
    assert_receipt(&rt, alloc, &told_undelivered(), UNDELIVERABLE_RECEIPT);
    assert_receipt(&rt, alloc, TOLD_REJECTED, REJECTED_RECEIPT);
}

#[test]
fn there_is_no_receipt_until_it_is_told(rt: HostRuntime) {
    let alloc = rt.alloc();
    let refused = [
        receipt_refused(&rt, alloc, 1, TO_DELIVERED),
        receipt_refused(&rt, alloc, 1, TO_EXPIRED),
        receipt_refused(&rt, alloc, 2, TO_DELETED),
        receipt_refused(&rt, alloc, 2, &undelivered()),
        receipt_refused(&rt, alloc, 2, TO_REJECTED),
    ];
    assert_same(&rt, &refused, &[Some(ReceiptFault::NotTold); 5]);
}

#[test]
fn there_is_no_receipt_of_a_message_on_its_way(rt: HostRuntime) {
    let alloc = rt.alloc();
    let fateless = receipt_refused(&rt, alloc, 1, &[]);
    let unasked = receipt_refused(&rt, alloc, 2, TO_DELIVERED);
    let wanted = (Some(ReceiptFault::NoFate), Some(ReceiptFault::NotAsked));
    assert_same(&rt, &(fateless, unasked), &wanted);
}
