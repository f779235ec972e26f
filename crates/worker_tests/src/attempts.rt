//! The octets of an attempt, and what its answer tells.

use crate::same::assert_same;
use delivery::DeliverFault;
use fate_chain::{Chain, Kind};
use pdu_codec::{Body, Pdu};
use std::alloc::Global;
use std::process::Abort;
use worker_parts::{attempt_octets, attempt_outcome};

/// The octets of a chain as far as its decrees are counted: its format, and the id 1000100001.
const HEAD: &[u8] = b"\x01\0\0\0\0\x3b\x9c\x50\xa1\0";

/// The message from 144 to 155 with the text Hi is taken by node 1, in its first incarnation.
const TAKEN: &[u8] = b"\x01\x01\0\x01\x65\xb9\x8d\x80\
\x04sme1\x04sme1\0\x01\x01\x03144\x01\x01\x03155\0\0\0\x01\0\x65\xb9\x8d\x80\x65\xbd\x82\0\x02Hi\0\0";

/// Its first attempt, at the moment at which it was taken.
const ATTEMPT: &[u8] = b"\x02\x01\0\x01\x65\xb9\x8d\x80\x01";

/// The deliver_sm of that, with the sequence_number 7.
pub const DELIVERY: &[u8] = b"\0\0\0\x29\0\0\0\x05\0\0\0\0\0\0\0\x07\
\0\x01\x01144\0\x01\x01155\0\0\0\0\0\0\0\0\0\0\x02Hi";

/// The same with the greatest (SMPP 3.4, section 5.1.4).
const LAST_DELIVERY: &[u8] = b"\0\0\0\x29\0\0\0\x05\0\0\0\0\x7f\xff\xff\xff\
\0\x01\x01144\0\x01\x01155\0\0\0\0\0\0\0\0\0\0\x02Hi";

fn chain_of(rt: &impl Abort, alloc: Global, parts: &[&[u8]]) -> Chain {
    let octets = parts.concat(alloc).expect(rt, "memory");
    let chain = Chain::read(alloc, &octets);
    drop(octets);
    chain.expect(rt, "a chain")
}

/// The chain of the message as it is attempted.
pub fn attempted(rt: &impl Abort, alloc: Global) -> Chain {
    chain_of(rt, alloc, &[HEAD, b"\x02", TAKEN, ATTEMPT])
}

#[test]
fn an_attempt_has_its_octets(rt: HostRuntime) {
    let chain = attempted(&rt, rt.alloc());
    for (sequence, wanted) in [(7, DELIVERY), (0x7fff_ffff, LAST_DELIVERY)] {
        let octets = attempt_octets(rt.alloc(), &chain, sequence).expect(&rt, "octets");
        assert_same(&rt, &(sequence, octets.as_slice()), &(sequence, wanted));
    }
}

#[test]
fn a_message_that_is_not_attempted_has_none(rt: HostRuntime) {
    let chain = chain_of(&rt, rt.alloc(), &[HEAD, b"\x01", TAKEN]);
    let fault = attempt_octets(rt.alloc(), &chain, 7).err();
    drop(chain);
    assert_same(&rt, &fault, &Some(DeliverFault::NoAttempt));
}

/// The error that the attempt with the sequence_number 7 has if this is answered; none if that concludes the message.
pub fn error_by(rt: &impl Abort, answer: Option<Pdu>) -> Option<u16> {
    match attempt_outcome(7, answer).kind() {
        Kind::Failed(error) => Some(error.number()),
        Kind::Fate(_, _) => None,
        _ => panic!(rt; "a failure or a fate"),
    }
}

/// A PDU with this sequence_number and ESME_ROK.
fn answer(sequence: u32, body: Body) -> Option<Pdu> {
    Some(Pdu {
        status: 0,
        sequence,
        body,
    })
}

#[test]
fn an_attempt_ends_by_its_own_answer_or_by_none(rt: HostRuntime) {
    let own = error_by(&rt, answer(7, Body::DeliverSmResp(None)));
    let nack = error_by(&rt, answer(7, Body::GenericNack));
    let of_another = error_by(&rt, answer(8, Body::DeliverSmResp(None)));
    let no_answer = error_by(&rt, answer(7, Body::EnquireLinkResp));
    let none = error_by(&rt, None);
    assert_same(&rt, &(own, nack), &(None, Some(0)));
    assert_same(
        &rt,
        &(of_another, no_answer, none),
        &(Some(997), Some(997), Some(997)),
    );
}
