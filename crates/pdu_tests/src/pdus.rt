//! What PDUs say, and that each is written as it is read.

use crate::cases::assert_same;
use crate::full_vectors::FULL_PDUS;
use crate::told::assert_said;
use crate::vectors::{CANCEL_REFUSED, VECTORS};
use pdu_codec::{Body, Pdu, encode, read_header};
use std::alloc::Global;
use std::process::Abort;

/// That this is said of these octets.
fn assert_all_said(rt: &impl Abort, alloc: Global, pdus: &[(&[u8], &[u8])]) {
    for (number, (octets, told)) in pdus.iter().enumerate() {
        assert_said(rt, alloc, number, octets, told);
    }
}

#[test]
fn pdus(rt: HostRuntime) {
    assert_all_said(&rt, rt.alloc(), FULL_PDUS);
    assert_all_said(&rt, rt.alloc(), VECTORS);
}

/// A response of a header alone is another PDU than one with an empty text. A submit_sm may have no octet of text, if sm_length says so.
const EMPTY: &[(&[u8], &[u8])] = &[
    (
        b"\0\0\0\x10\x80\0\0\x04\0\0\0\x14\0\0\0\x02",
        b"submit_sm_resp|\0\0\0\x14|\0\0\0\x02",
    ),
    (
        b"\0\0\0\x11\x80\0\0\x04\0\0\0\x14\0\0\0\x02\0",
        b"submit_sm_resp|\0\0\0\x14|\0\0\0\x02|",
    ),
    (
        b"\0\0\0\x27\0\0\0\x04\0\0\0\0\0\0\0\x02\0\x01\x01144\0\x01\x01155\0\0\0\0\0\0\x01\0\0\0\0",
        b"submit_sm|\0\0\0\0|\0\0\0\x02||\x01|\x01|144|\x01|\x01|155|\x00|\x00|\x00|||\x01|\x00|\x00|\x00||",
    ),
];

#[test]
fn headers_alone_and_empty_texts(rt: HostRuntime) {
    let header = read_header(CANCEL_REFUSED).expect(&rt, "it has a header");
    let numbers = (
        header.length,
        header.command,
        header.status,
        header.sequence,
    );
    let cut = CANCEL_REFUSED.get(..15).expect(&rt, "octets");
    assert_all_said(&rt, rt.alloc(), EMPTY);
    assert_same(&rt, &numbers, &(16, 0x8000_0008, 0x11, 4));
    assert_same(&rt, &read_header(cut).is_none(), &true);
}

#[test]
fn a_pdu_is_written_behind_what_is_there(rt: HostRuntime) {
    let mut octets = Vec::from_slice(rt.alloc(), b"before").expect(&rt, "memory");
    let pdu = Pdu {
        status: 0x11,
        sequence: 4,
        body: Body::CancelSmResp,
    };
    let is_written = encode(&pdu, &mut octets).is_ok();
    drop(pdu);
    let whole = b"before\0\0\0\x10\x80\0\0\x08\0\0\0\x11\0\0\0\x04".as_slice();
    assert_same(&rt, &(is_written, octets.as_slice()), &(true, whole));
}
