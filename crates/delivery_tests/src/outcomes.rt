//! What came of an attempt.

use crate::same::assert_same;
use delivery::{Outcome, outcome_of};
use fate_chain::{Final, Kind};
use pdu_codec::{Body, Pdu};
use std::process::Abort;

/// The PDUs that tests are about.
#[derive(Clone, Copy)]
enum Sent {
    DeliverSmResp,
    GenericNack,
    CancelSmResp,
    SubmitSmResp,
}

/// The final state of the message, if there is one, and the error; none if nothing is told.
type Told = Option<(Option<Final>, u16)>;

fn body(sent: Sent) -> Body {
    match sent {
        Sent::DeliverSmResp => Body::DeliverSmResp(None),
        Sent::GenericNack => Body::GenericNack,
        Sent::CancelSmResp => Body::CancelSmResp,
        Sent::SubmitSmResp => Body::SubmitSmResp(None),
    }
}

fn told_in(rt: &impl Abort, outcome: Option<Outcome>) -> Told {
    match outcome?.kind() {
        Kind::Failed(error) => Some((None, error.number())),
        Kind::Fate(last, error) => Some((Some(last), error.number())),
        _ => panic!(rt; "a failure or a fate"),
    }
}

/// What a PDU with these numbers tells of the attempt with the sequence_number 7. It is let go by a call, which makes the proof shorter.
fn told_by(rt: &impl Abort, sequence: u32, status: u32, sent: Sent) -> Told {
    let pdu = Pdu {
        status,
        sequence,
        body: body(sent),
    };
    let outcome = outcome_of(7, &pdu);
    drop(pdu);
    told_in(rt, outcome)
}

/// That PDUs with the sequence_number 7 and these numbers as command_status tell this.
fn assert_told(rt: &impl Abort, sent: Sent, rows: &[(u32, Told)]) {
    for (number, (status, wanted)) in rows.iter().enumerate() {
        let told = told_by(rt, 7, *status, sent);
        assert_same(rt, &(number, told), &(number, *wanted));
    }
}

const CONCLUDES: &[(u32, Told)] = &[
    (0, Some((Some(Final::Delivered), 0))),
    (0x65, Some((Some(Final::Undeliverable), 101))),
    (0x66, Some((Some(Final::Rejected), 102))),
    (0x64, Some((None, 100))),
];

#[test]
fn a_response_concludes_the_message(rt: HostRuntime) {
    assert_told(&rt, Sent::DeliverSmResp, CONCLUDES);
}

const FAILS: &[(u32, Told)] = &[
    (0x64, Some((None, 100))),
    (900, Some((None, 900))),
    (0x400, Some((None, 900))),
    (0xffff_ffff, Some((None, 900))),
    (0, Some((Some(Final::Delivered), 0))),
];

#[test]
fn any_other_status_is_a_failure(rt: HostRuntime) {
    assert_told(&rt, Sent::DeliverSmResp, FAILS);
}

const NACKED: &[(u32, Told)] = &[(0, Some((None, 0))), (0x65, Some((None, 101)))];

#[test]
fn a_generic_nack_is_a_failure(rt: HostRuntime) {
    assert_told(&rt, Sent::GenericNack, NACKED);
    let unanswered = told_in(&rt, Some(Outcome::unanswered()));
    assert_same(&rt, &unanswered, &Some((None, 997)));
}

const NOTHING: &[(u32, Told)] = &[(0, None)];

#[test]
fn other_pdus_tell_nothing(rt: HostRuntime) {
    assert_told(&rt, Sent::CancelSmResp, NOTHING);
    assert_told(&rt, Sent::SubmitSmResp, NOTHING);
    let told_another = told_by(&rt, 8, 0, Sent::DeliverSmResp);
    assert_same(&rt, &told_another, &None);
}
