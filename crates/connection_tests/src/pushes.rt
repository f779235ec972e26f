//! What a service gives out and hears, on which sme1 is bound in session 3.

use config::Config;
use connection_parts::{Frame, Job};
use esme_service::{Heard, HeardPdu, PushedOn, Sending, Service};
use mc_types::{Incarnation, Moment, MsgId, NodeNo, Slot};
use pdu_codec::{SystemId, Text};
use sessions::{Outgoing, Response};
use std::alloc::Global;
use std::process::Abort;
use waiting_requests::Reply;

/// The number of the session.
pub const NUMBER: u8 = 3;

/// A bind_transceiver of sme1 with the password pw1 and the version 0x34 (SMPP 3.4, section 4.1.5).
const BIND: &[u8] = b"\0\0\0\x1e\0\0\0\x09\0\0\0\0\0\0\0\x01sme1\0pw1\0\0\x34\0\0\0";

/// The same with the version 0x33, of an ESME that knows no optional parameters (section 5.2.4).
const OLDER_BIND: &[u8] = b"\0\0\0\x1e\0\0\0\x09\0\0\0\0\0\0\0\x01sme1\0pw1\0\0\x33\0\0\0";

/// A submit_sm from 144 to 155 with the text Hi and the sequence_number 2 (section 4.4.1).
const SUBMIT: &[u8] = b"\0\0\0\x29\0\0\0\x04\0\0\0\0\0\0\0\x02\
\0\x01\x01144\0\x01\x01155\0\0\0\0\0\0\0\0\0\0\x02Hi";

fn sme1(rt: &impl Abort, alloc: Global) -> SystemId {
    let text = Text::make(alloc, b"sme1").expect(rt, "memory");
    text.expect(rt, "a text")
}

/// The slot of the first attempt of message 1000100001.
fn slot(rt: &impl Abort) -> Slot {
    let node = NodeNo::make(1).expect(rt, "a node");
    let incarnation = Incarnation::make(1).expect(rt, "an incarnation");
    let id = MsgId::make(node, incarnation, 1).expect(rt, "an id");
    Slot { id, place: 1 }
}

/// A service that heard this bind.
fn bound(rt: &impl Abort, config: &Config, alloc: Global, bind: &[u8]) -> Service {
    let mut service = Service::none(alloc);
    service.begin(NUMBER).expect(rt, "memory");
    drop(service.hear(config, NUMBER, bind).expect(rt, "memory"));
    service
}

/// So many attempts are pushed: the last one, which has this sequence_number.
fn pushed(rt: &impl Abort, alloc: Global, service: &mut Service, sequence: u32) -> PushedOn {
    let account = sme1(rt, alloc);
    let mut last = None;
    for _ in 0..sequence {
        last = service.push(&account, false, Moment::least(), slot(rt));
    }
    drop(account);
    last.expect(rt, "a place in the window")
}

/// The job of an attempt that is pushed with this sequence_number, of an ESME that knows optional parameters or not.
pub fn job_of(rt: &impl Abort, alloc: Global, sequence: u32, knows_optional: bool) -> Job {
    let config = Config::of_scripts(alloc).expect(rt, "memory");
    let bind = if knows_optional { BIND } else { OLDER_BIND };
    let mut service = bound(rt, &config, alloc, bind);
    let pushed = pushed(rt, alloc, &mut service, sequence);
    drop(service);
    drop(config);
    Job {
        slot: slot(rt),
        pushed,
        long: false,
    }
}

/// The same of one that knows them.
pub fn job(rt: &impl Abort, alloc: Global, sequence: u32) -> Job {
    job_of(rt, alloc, sequence, true)
}

/// The deliver_sm_resp to what was pushed with this sequence_number, which is below 11.
pub fn answer(rt: &impl Abort, alloc: Global, sequence: u8) -> HeardPdu {
    let config = Config::of_scripts(alloc).expect(rt, "memory");
    let mut service = bound(rt, &config, alloc, BIND);
    let _ = pushed(rt, alloc, &mut service, u32::from(sequence));
    let response = [0, 0, 0, 17, 0x80, 0, 0, 5, 0, 0, 0, 0, 0, 0, 0, sequence, 0];
    let heard = service
        .hear(&config, NUMBER, &response)
        .expect(rt, "memory");
    drop(service);
    drop(config);
    match heard {
        Heard::Answer(_, pdu) => pdu,
        _ => panic!(rt; "an answer"),
    }
}

/// The enquire_link_resp with this sequence_number, for the session of a number.
pub fn linked(rt: &impl Abort, alloc: Global, number: u8, sequence: u8) -> Frame {
    let account = sme1(rt, alloc);
    let outgoing = Outgoing {
        sequence: u32::from(sequence),
        response: Response::Linked,
    };
    let frame = Frame::of_response(alloc, &account, number, outgoing);
    drop(account);
    frame.expect(rt, "memory")
}

/// A frame of an attempt that is pushed with this sequence_number, whose only octet this is.
pub fn attempt(rt: &impl Abort, alloc: Global, sequence: u32, octet: u8) -> Frame {
    let job = job(rt, alloc, sequence);
    let frame = Frame::of_attempt(alloc, &job, &[octet]).expect(rt, "memory");
    frame.expect(rt, "a frame")
}

/// What goes out in answer to the submit_sm, for which it is too late.
pub fn too_late(rt: &impl Abort, alloc: Global) -> Sending {
    let config = Config::of_scripts(alloc).expect(rt, "memory");
    let mut service = bound(rt, &config, alloc, BIND);
    let heard = service.hear(&config, NUMBER, SUBMIT).expect(rt, "memory");
    let Heard::Request(asked, request) = heard else {
        panic!(rt; "a request");
    };
    drop(request);
    service.wait(NUMBER, asked, Some(1));
    let sending = service.reply(Reply::too_late(1, slot(rt).id));
    drop(service);
    drop(config);
    sending.expect(rt, "a response")
}
