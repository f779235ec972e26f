//! The frames of deliveries and of responses.

use crate::pushes::{NUMBER, job, job_of, linked, too_late};
use crate::same::assert_same;
use connection_parts::Frame;

/// A deliver_sm (SMPP 3.4, section 4.6.1) of the text Hi from 144 to 155 with the sequence_number 7 and user_message_reference 1, and the same without.
const WITH_REFERENCE: &[u8] = b"\0\0\0\x2f\0\0\0\x05\0\0\0\0\0\0\0\x07\
\0\x01\x01144\0\x01\x01155\0\0\0\0\0\0\0\0\0\0\x02Hi\x02\x04\0\x02\0\x01";

const PLAIN: &[u8] = b"\0\0\0\x29\0\0\0\x05\0\0\0\0\0\0\0\x07\
\0\x01\x01144\0\x01\x01155\0\0\0\0\0\0\0\0\0\0\x02Hi";

#[test]
fn a_delivery_goes_out_as_its_esme_knows_it(rt: HostRuntime) {
    for (knows_optional, octets) in [(true, WITH_REFERENCE), (false, PLAIN)] {
        let job = job_of(&rt, rt.alloc(), 7, knows_optional);
        let frame = Frame::of_attempt(rt.alloc(), &job, WITH_REFERENCE).expect(&rt, "memory");
        let frame = frame.expect(&rt, "a frame");
        assert_same(&rt, &frame.octets(), &octets);
        assert_same(&rt, &(frame.number(), frame.attempt()), &(NUMBER, Some(7)));
    }
}

#[test]
fn a_long_text_has_no_frame_for_who_knows_no_optional_parameters(rt: HostRuntime) {
    for (knows_optional, has_frame) in [(true, true), (false, false)] {
        let mut job = job_of(&rt, rt.alloc(), 1, knows_optional);
        job.long = true;
        let frame = Frame::of_attempt(rt.alloc(), &job, WITH_REFERENCE).expect(&rt, "memory");
        let is_there = frame.is_some();
        drop(frame);
        assert_same(&rt, &is_there, &has_frame);
    }
}

#[test]
fn what_is_no_deliver_sm_goes_out_only_as_it_is(rt: HostRuntime) {
    let known = Frame::of_attempt(rt.alloc(), &job(&rt, rt.alloc(), 1), b"\0");
    let known = known.expect(&rt, "memory").is_some();
    let unknown = Frame::of_attempt(rt.alloc(), &job_of(&rt, rt.alloc(), 1, false), b"\0");
    let unknown = unknown.expect(&rt, "memory").is_some();
    assert_same(&rt, &(known, unknown), &(true, false));
}

#[test]
fn a_response_is_the_frame_of_its_session(rt: HostRuntime) {
    let frame = linked(&rt, rt.alloc(), 99, 5);
    assert_same(
        &rt,
        &frame.octets(),
        &b"\0\0\0\x10\x80\0\0\x15\0\0\0\0\0\0\0\x05".as_slice(),
    );
    assert_same(&rt, &(frame.number(), frame.attempt()), &(99, None));
}

#[test]
fn what_a_service_sends_is_the_frame_of_its_session(rt: HostRuntime) {
    let frame = Frame::of_sending(rt.alloc(), &too_late(&rt, rt.alloc())).expect(&rt, "memory");
    let frame = frame.expect(&rt, "a frame");
    // a submit_sm_resp with ESME_RSYSERR, and no body (SMPP 3.4, section 4.4.2)
    assert_same(
        &rt,
        &frame.octets(),
        &b"\0\0\0\x10\x80\0\0\x04\0\0\0\x08\0\0\0\x02".as_slice(),
    );
    assert_same(&rt, &(frame.number(), frame.attempt()), &(NUMBER, None));
}
