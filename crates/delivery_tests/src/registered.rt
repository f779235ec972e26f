//! What each registered_delivery asks for, by the table of `asked.rt`.

use crate::asked::ASKED;
use crate::chains::*;
use crate::same::assert_same;
use desk::{Door, Request};
use mc_types::Moment;
use pdu_codec::{Body, SystemId, Text, decode};
use receipts::{ReceiptFault, receipt_text};
use std::alloc::Global;
use std::process::Abort;

/// Whether a receipt was asked for of the state in which these decrees end, behind which no Told stands.
fn is_asked(rt: &impl Abort, alloc: Global, registered_delivery: u8, steps: &[Step]) -> bool {
    let chain = chain(rt, alloc, registered_delivery, steps);
    let mut text = Vec::new(alloc);
    let told = receipt_text(&chain, &mut text);
    drop(chain);
    match told {
        Err(ReceiptFault::NotTold) => true,
        Err(ReceiptFault::NotAsked) => false,
        other => panic!(rt; "{other:?}"),
    }
}

/// A submit_sm from 144 to 155 with the text Hi.
const SUBMIT: &[u8] = b"\0\0\0\x29\0\0\0\x04\0\0\0\0\0\0\0\x02\
\0\x01\x01144\0\x01\x01155\0\0\0\0\0\0\0\0\0\0\x02Hi";

/// That submit_sm with this registered_delivery, for sme1.
fn request(rt: &impl Abort, alloc: Global, registered_delivery: u8) -> Request {
    let pdu = decode(alloc, SUBMIT).expect(rt, "a submit_sm");
    let Body::SubmitSm(mut message) = pdu.body else {
        panic!(rt; "a submit_sm");
    };
    message.registered_delivery = registered_delivery;
    Request::Submit(message, Some(account(rt, alloc)))
}

fn account(rt: &impl Abort, alloc: Global) -> SystemId {
    let text = Text::make(alloc, b"sme1").expect(rt, "memory");
    text.expect(rt, "a text")
}

/// The command_status of the response to a submit_sm of sme1 to itself with this registered_delivery.
fn status_of(rt: &impl Abort, alloc: Global, registered_delivery: u8) -> u32 {
    let door = Door {
        clock: Moment::least(),
        validity: 259200,
        serial: 1,
        busy: false,
    };
    let account = account(rt, alloc);
    let admitted = door.admit(&account, request(rt, alloc, registered_delivery));
    drop(account);
    match admitted.expect(rt, "memory") {
        Ok(admitted) => {
            drop(admitted);
            0
        }
        Err(status) => status.code(),
    }
}

/// What comes of this registered_delivery, as a line of the table.
fn line_of(rt: &impl Abort, alloc: Global, octet: usize) -> String {
    let octet = (octet % 256) as u8;
    let delivered = word_of(is_asked(rt, alloc, octet, TO_DELIVERED));
    let other = word_of(is_asked(rt, alloc, octet, TO_DELETED));
    let status = status_of(rt, alloc, octet);
    format!(in alloc; "{octet} {delivered} {other} {status}").expect(rt, "memory")
}

fn word_of(is_asked: bool) -> &'static str {
    if is_asked { "yes" } else { "no" }
}

#[test]
fn receipts_are_asked_for(rt: HostRuntime) {
    let mut rows = 0;
    for line in ASKED.lines() {
        assert_line(&rt, rt.alloc(), rows, line);
        rows = usize::saturating_add(rows, 1);
    }
    assert_same(&rt, &rows, &256);
}

/// That this is the line of the table for an octet.
fn assert_line(rt: &impl Abort, alloc: Global, octet: usize, wanted: &str) {
    let line = line_of(rt, alloc, octet);
    assert_same(rt, &line.as_str(), &wanted);
}
