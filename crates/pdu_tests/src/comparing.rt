//! Bodies of requests that are the same.

use crate::cases::assert_same;
use crate::full_vectors::{CANCEL, QUERY, SUBMIT};
use pdu_codec::{Body, Cancel, Message, Query, decode};
use std::alloc::Global;
use std::process::Abort;

fn submit(rt: &impl Abort, alloc: Global) -> Message {
    match decode(alloc, SUBMIT).expect(rt, "a PDU").body {
        Body::SubmitSm(message) => message,
        _ => panic!(rt; "a submit_sm"),
    }
}

fn query(rt: &impl Abort, alloc: Global) -> Query {
    match decode(alloc, QUERY).expect(rt, "a PDU").body {
        Body::QuerySm(query) => query,
        _ => panic!(rt; "a query_sm"),
    }
}

fn cancel(rt: &impl Abort, alloc: Global) -> Cancel {
    match decode(alloc, CANCEL).expect(rt, "a PDU").body {
        Body::CancelSm(cancel) => cancel,
        _ => panic!(rt; "a cancel_sm"),
    }
}

#[test]
fn a_message_is_another_by_its_last_number(rt: HostRuntime) {
    let message = submit(&rt, rt.alloc());
    let mut other = submit(&rt, rt.alloc());
    let same = message.is(&other);
    other.sm_default_msg_id ^= 1;
    let changed = message.is(&other);
    drop(message);
    drop(other);
    assert_same(&rt, &(same, changed), &(true, false));
}

#[test]
fn a_query_is_another_by_its_numbering_plan(rt: HostRuntime) {
    let query = self::query(&rt, rt.alloc());
    let mut other = self::query(&rt, rt.alloc());
    let same = query.is(&other);
    other.source.npi ^= 1;
    let changed = query.is(&other);
    drop(query);
    drop(other);
    assert_same(&rt, &(same, changed), &(true, false));
}

#[test]
fn a_cancel_is_another_by_its_type_of_number(rt: HostRuntime) {
    let cancel = self::cancel(&rt, rt.alloc());
    let mut other = self::cancel(&rt, rt.alloc());
    let same = cancel.is(&other);
    other.destination.ton ^= 1;
    let changed = cancel.is(&other);
    drop(cancel);
    drop(other);
    assert_same(&rt, &(same, changed), &(true, false));
}
