//! What becomes of a submit_sm: the deliver_sm of its attempt, and the text of its receipt. The octets were written by hand from SMPP 3.4,
//! sections 4.4.1, 4.6.1, 5.2.12 and 5.3.2 and appendix B.

use crate::chains::TAKEN;
use crate::pdus::assert_octets;
use crate::same::assert_same;
use delivery::deliver_pdu;
use desk::{Admitted, Door, Request};
use fate_chain::{Author, Chain, Decree, ErrorCode, Final, Kind, Submission};
use mc_types::{Incarnation, Moment, MsgId, NodeNo};
use pdu_codec::{Body, Message, SystemId, Text, decode};
use receipts::{receipt_pdu, receipt_text};
use std::alloc::Global;
use std::process::Abort;

fn moment(rt: &impl Abort) -> Moment {
    Moment::make(TAKEN).expect(rt, "a moment")
}

fn account(rt: &impl Abort, alloc: Global) -> SystemId {
    let text = Text::make(alloc, b"a_longest_name_").expect(rt, "memory");
    text.expect(rt, "a text")
}

fn message(rt: &impl Abort, alloc: Global, octets: &[u8]) -> Message {
    let pdu = decode(alloc, octets).expect(rt, "a submit_sm");
    match pdu.body {
        Body::SubmitSm(message) => message,
        _ => panic!(rt; "a submit_sm"),
    }
}

/// What is taken of a submit_sm of an account to itself.
fn submission(rt: &impl Abort, alloc: Global, octets: &[u8]) -> Submission {
    let door = Door {
        clock: moment(rt),
        validity: 259200,
        serial: 1,
        busy: false,
    };
    let request = Request::Submit(message(rt, alloc, octets), Some(account(rt, alloc)));
    let account = account(rt, alloc);
    let admitted = door.admit(&account, request);
    drop(account);
    match admitted.expect(rt, "memory") {
        Ok(Admitted::Submit(submission)) => submission,
        _ => panic!(rt; "a message"),
    }
}

/// Its chain with the first attempt, at the moment at which it is taken.
fn attempted(rt: &impl Abort, alloc: Global, octets: &[u8]) -> Chain {
    let id = MsgId::read(b"1000100001").expect(rt, "an id");
    let submission = submission(rt, alloc, octets);
    let chain = Chain::begin(alloc, id, moment(rt), submission);
    decided(rt, chain.expect(rt, "a chain"), Kind::Attempt(1))
}

fn decided(rt: &impl Abort, chain: Chain, kind: Kind) -> Chain {
    let author = Author {
        node: NodeNo::of(1),
        incarnation: Incarnation::of(1),
    };
    let longer = chain.extended(Decree {
        author,
        moment: moment(rt),
        kind,
    });
    drop(chain);
    longer.expect(rt, "a chain")
}

/// That this is the deliver_sm of the attempt, with the sequence_number 1.
fn assert_delivery(rt: &impl Abort, alloc: Global, submit: &[u8], wanted: &[u8]) {
    let chain = attempted(rt, alloc, submit);
    let pdu = deliver_pdu(alloc, &chain, 1);
    drop(chain);
    assert_octets(rt, alloc, pdu.expect(rt, "a deliver_sm"), wanted);
}

/// Its chain, once the message is delivered and that told.
fn told(rt: &impl Abort, alloc: Global, submit: &[u8]) -> Chain {
    let attempted = attempted(rt, alloc, submit);
    let fate = Kind::Fate(Final::Delivered, ErrorCode::of(0));
    let ended = decided(rt, attempted, fate);
    decided(rt, ended, Kind::Told)
}

/// That this is the text of the receipt.
fn assert_receipt(rt: &impl Abort, alloc: Global, submit: &[u8], wanted: &[u8]) {
    let chain = told(rt, alloc, submit);
    let mut text = Vec::new(alloc);
    let told = receipt_text(&chain, &mut text);
    drop(chain);
    told.expect(rt, "a text");
    assert_same(rt, &text.as_slice(), &wanted);
}

/// From 144 to 155, with a receipt asked for and no octet of text.
const EMPTY_SUBMIT: &[u8] = b"\0\0\0\x27\0\0\0\x04\0\0\0\0\0\0\0\x02\
\0\x01\x01144\0\x01\x01155\0\0\0\0\0\0\x01\0\0\0\0";

const EMPTY_DELIVERY: &[u8] = b"\0\0\0\x27\0\0\0\x05\0\0\0\0\0\0\0\x01\
\0\x01\x01144\0\x01\x01155\0\0\0\0\0\0\0\0\0\0\0";

const EMPTY_TEXT: &[u8] =
    b"id:1000100001 sub:001 dlvrd:001 submit date:2401310000 done date:2401310000 stat:DELIVRD err:000 text:";

#[test]
fn a_message_may_have_no_octet_of_text(rt: HostRuntime) {
    let alloc = rt.alloc();
    assert_delivery(&rt, alloc, EMPTY_SUBMIT, EMPTY_DELIVERY);
    assert_receipt(&rt, alloc, EMPTY_SUBMIT, EMPTY_TEXT);
}

/// The fronts of a submit_sm and of its deliver_sm of 7,332 octets, up to the text of 254, which follows: of esm_class the deliver_sm has UDHI and
/// reply path, and of registered_delivery and sm_default_msg_id nothing.
const LONGEST_SUBMIT: &[u8] = b"\0\0\x1c\xa4\0\0\0\x04\0\0\0\0\0\0\0\x02\
CMT12\0\x01\x0812345678901234567890\0\x02\x0909876543210987654321\0\
\xc3\x7f\x03\0\0\x01\0\x03\x63\xfe";

const LONGEST_DELIVERY: &[u8] = b"\0\0\x1c\xa4\0\0\0\x05\0\0\0\0\0\0\0\x01\
CMT12\0\x01\x0812345678901234567890\0\x02\x0909876543210987654321\0\
\xc0\x7f\x03\0\0\0\0\x03\0\xfe";

/// The optional parameters behind it, 7,000 octets, all of which are passed on: user_message_reference, sar_total_segments,
/// sar_segment_seqnum, and sar_msg_ref_num with 6,980 octets, which follow.
const PARAMETERS: &[u8] =
    b"\x02\x04\x00\x02\x00\x07\x02\x0e\x00\x01\x02\x02\x0f\x00\x01\x01\x02\x0c\x1b\x44";

const LONGEST_TEXT: &[u8] =
    b"id:1000100001 sub:001 dlvrd:001 submit date:2401310000 done date:2401310000 stat:DELIVRD err:000 text:01234567890123456789";

/// So many digits 0, 1, 2 and so on up to 9, and again.
fn digits(rt: &impl Abort, alloc: Global, count: usize) -> Vec<u8> {
    let mut octets = Vec::new(alloc);
    for place in 0..count {
        octets.push(b'0' + (place % 10) as u8).expect(rt, "memory");
    }
    octets
}

/// This front with the text and the parameters behind it.
fn longest(rt: &impl Abort, alloc: Global, front: &[u8]) -> Vec<u8> {
    let text = digits(rt, alloc, 254);
    let value = digits(rt, alloc, 6980);
    let octets = [front, &text, PARAMETERS, &value].concat(alloc);
    drop(text);
    drop(value);
    octets.expect(rt, "memory")
}

#[test]
fn the_longest_message_is_delivered(rt: HostRuntime) {
    let alloc = rt.alloc();
    let submit = longest(&rt, alloc, LONGEST_SUBMIT);
    let delivery = longest(&rt, alloc, LONGEST_DELIVERY);
    assert_same(&rt, &(submit.len(), delivery.len()), &(7332, 7332));
    assert_delivery(&rt, alloc, &submit, &delivery);
    assert_receipt(&rt, alloc, &submit, LONGEST_TEXT);
}

/// The fronts of a submit_sm and of its deliver_sm, up to the 255 octets of text in message_payload, which follow.
const PAYLOAD_SUBMIT: &[u8] = b"\0\0\x01\x2a\0\0\0\x04\0\0\0\0\0\0\0\x02\
\0\x01\x01144\0\x01\x01155\0\0\0\0\0\0\x01\0\0\0\0\x04\x24\0\xff";

const PAYLOAD_DELIVERY: &[u8] = b"\0\0\x01\x2a\0\0\0\x05\0\0\0\0\0\0\0\x01\
\0\x01\x01144\0\x01\x01155\0\0\0\0\0\0\0\0\0\0\0\x04\x24\0\xff";

/// The deliver_sm of the receipt, with the sequence_number 2.
const PAYLOAD_RECEIPT: &[u8] = b"\0\0\0\xb5\0\0\0\x05\0\0\0\0\0\0\0\x02\
\0\x01\x01155\0\x01\x01144\0\x04\0\0\0\0\0\0\0\0\
\x7aid:1000100001 sub:001 dlvrd:001 submit date:2401310000 done date:2401310000 stat:DELIVRD err:000 text:01234567890123456789\
\0\x1e\0\x0b1000100001\0\x04\x27\0\x01\x02";

/// This front with the text behind it.
fn with_payload(rt: &impl Abort, alloc: Global, front: &[u8]) -> Vec<u8> {
    let text = digits(rt, alloc, 255);
    let octets = [front, &text].concat(alloc);
    drop(text);
    octets.expect(rt, "memory")
}

/// That this is the deliver_sm of the receipt.
fn assert_receipt_sent(rt: &impl Abort, alloc: Global, submit: &[u8], wanted: &[u8]) {
    let chain = told(rt, alloc, submit);
    let pdu = receipt_pdu(alloc, &chain, 2);
    drop(chain);
    assert_octets(rt, alloc, pdu.expect(rt, "a receipt"), wanted);
}

#[test]
fn a_text_too_long_for_a_short_message_has_its_receipt(rt: HostRuntime) {
    let alloc = rt.alloc();
    let submit = with_payload(&rt, alloc, PAYLOAD_SUBMIT);
    let delivery = with_payload(&rt, alloc, PAYLOAD_DELIVERY);
    assert_delivery(&rt, alloc, &submit, &delivery);
    assert_receipt(&rt, alloc, &submit, LONGEST_TEXT);
    assert_receipt_sent(&rt, alloc, &submit, PAYLOAD_RECEIPT);
}
