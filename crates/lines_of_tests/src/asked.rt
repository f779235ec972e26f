//! The requests of the tests, from the PDU.

use desk::Request;
use pdu_codec::{Body, SystemId, Text, decode};
use std::alloc::Global;

// A submit_sm from 144 to 155 with the text Hi: with a receipt, without one, with one unless it is delivered, with one that is none, valid for a
// minute, and for no time.
const SUBMIT_WITH_RECEIPT: &[u8] =
    b"\x00\x00\x00\x29\x00\x00\x00\x04\x00\x00\x00\x00\x00\x00\x00\x02\x00\x01\x01144\x00\x01\x01155\x00\x00\x00\x00\x00\x00\x01\x00\x00\x00\x02Hi";

const SUBMIT: &[u8] =
    b"\x00\x00\x00\x29\x00\x00\x00\x04\x00\x00\x00\x00\x00\x00\x00\x02\x00\x01\x01144\x00\x01\x01155\x00\x00\x00\x00\x00\x00\x00\x00\x00\x00\x02Hi";

const SUBMIT_WITH_RECEIPT_OF_FAILURE: &[u8] =
    b"\x00\x00\x00\x29\x00\x00\x00\x04\x00\x00\x00\x00\x00\x00\x00\x02\x00\x01\x01144\x00\x01\x01155\x00\x00\x00\x00\x00\x00\x02\x00\x00\x00\x02Hi";

const SUBMIT_WITH_RECEIPT_OF_NO_KIND: &[u8] =
    b"\x00\x00\x00\x29\x00\x00\x00\x04\x00\x00\x00\x00\x00\x00\x00\x02\x00\x01\x01144\x00\x01\x01155\x00\x00\x00\x00\x00\x00\x03\x00\x00\x00\x02Hi";

const SUBMIT_FOR_A_MINUTE: &[u8] =
    b"\x00\x00\x00\x39\x00\x00\x00\x04\x00\x00\x00\x00\x00\x00\x00\x02\x00\x01\x01144\x00\x01\x01155\x00\x00\x00\x00\x00000000000100000R\x00\x00\x00\x00\x00\x02Hi";

const SUBMIT_FOR_NO_TIME: &[u8] =
    b"\x00\x00\x00\x39\x00\x00\x00\x04\x00\x00\x00\x00\x00\x00\x00\x02\x00\x01\x01144\x00\x01\x01155\x00\x00\x00\x00\x00000000000000000R\x00\x00\x00\x00\x00\x02Hi";

// A query_sm of message 1000100001 from 144, one from 145, and one of message 1000100009.
const QUERY: &[u8] =
    b"\x00\x00\x00\x21\x00\x00\x00\x03\x00\x00\x00\x00\x00\x00\x00\x031000100001\x00\x01\x01144\x00";

const QUERY_FROM_ANOTHER: &[u8] =
    b"\x00\x00\x00\x21\x00\x00\x00\x03\x00\x00\x00\x00\x00\x00\x00\x031000100001\x00\x01\x01145\x00";

const QUERY_OF_ANOTHER: &[u8] =
    b"\x00\x00\x00\x21\x00\x00\x00\x03\x00\x00\x00\x00\x00\x00\x00\x031000100009\x00\x01\x01144\x00";

// A cancel_sm of message 1000100001 from 144, and one with an empty message_id.
const CANCEL: &[u8] =
    b"\x00\x00\x00\x25\x00\x00\x00\x08\x00\x00\x00\x00\x00\x00\x00\x04\x001000100001\x00\x01\x01144\x00\x00\x00\x00";

const CANCEL_OF_NO_ID: &[u8] =
    b"\x00\x00\x00\x1b\x00\x00\x00\x08\x00\x00\x00\x00\x00\x00\x00\x04\x00\x00\x01\x01144\x00\x00\x00\x00";

fn octets_of(asked: &str) -> Option<&'static [u8]> {
    match asked {
        "submit_with_receipt" | "submit_nowhere" => Some(SUBMIT_WITH_RECEIPT),
        "submit" => Some(SUBMIT),
        "submit_with_receipt_of_failure" => Some(SUBMIT_WITH_RECEIPT_OF_FAILURE),
        "submit_with_receipt_of_no_kind" => Some(SUBMIT_WITH_RECEIPT_OF_NO_KIND),
        "submit_for_a_minute" => Some(SUBMIT_FOR_A_MINUTE),
        "submit_for_no_time" => Some(SUBMIT_FOR_NO_TIME),
        "query" => Some(QUERY),
        "query_from_another" => Some(QUERY_FROM_ANOTHER),
        "query_of_another" => Some(QUERY_OF_ANOTHER),
        "cancel" => Some(CANCEL),
        "cancel_of_no_id" => Some(CANCEL_OF_NO_ID),
        _ => None,
    }
}

/// The account of these octets, if they are one.
pub fn text(alloc: Global, octets: &str) -> Option<SystemId> {
    match Text::make(alloc, octets.as_bytes()) {
        Ok(text) => text,
        Err(_) => None,
    }
}

/// The account that asks, and to which the messages go.
pub fn account(alloc: Global) -> Option<SystemId> {
    text(alloc, "sme1")
}

/// A request of sme1, by its word. Its message goes to itself; that of `submit_nowhere` has no route.
pub fn request(alloc: Global, asked: &str) -> Option<Request> {
    let octets = octets_of(asked)?;
    let target = match asked {
        "submit_nowhere" => None,
        _ => account(alloc),
    };
    match decode(alloc, octets) {
        Ok(pdu) => request_in(pdu.body, target),
        Err(_) => None,
    }
}

fn request_in(body: Body, target: Option<SystemId>) -> Option<Request> {
    match body {
        Body::SubmitSm(message) => Some(Request::Submit(message, target)),
        Body::QuerySm(query) => Some(Request::Ask(query)),
        Body::CancelSm(cancel) => Some(Request::Cancel(cancel)),
        _ => None,
    }
}
