//! Requests that wait, and the statuses of those that do not.

use crate::same::assert_same;
use crate::values::{address, text};
use desk::{Admitted, Door, Request};
use mc_types::Moment;
use pdu_codec::{Body, Cancel, Message, Query, ShortMessage, SystemId, decode};
use pdu_tables::Status;
use std::alloc::Global;
use std::process::Abort;

// From 144 to 155, with the text Hi and a receipt asked for.
const SUBMIT: &[u8] =
    b"\x00\x00\x00\x29\x00\x00\x00\x04\x00\x00\x00\x00\x00\x00\x00\x02\x00\x01\x01144\x00\x01\x01155\x00\x00\x00\x00\x00\x00\x01\x00\x00\x00\x02Hi";

const FIRST: &[u8] = b"1000100001";

// A request of sme1.
#[derive(Clone, Copy)]
enum Asked<'a> {
    // The message above, for sme1, with this registered_delivery.
    Submit(u8),
    // The same, and no route leads from its destination.
    Unrouted(u8),
    // The same with an empty short_message, and with optional parameters of this tag, each with so many octets in its value.
    Payloads(u16, &'a [u16]),
    // The same with its short_message, and such a parameter.
    Beside(u16, u16),
    // A message_payload of so many octets, and no route.
    UnroutedPayload(u16),
    // By message_id and source.
    Query(&'a [u8], &'a [u8]),
    // By message_id, source and destination.
    Cancel(&'a [u8], &'a [u8], &'a [u8]),
}

fn message(rt: &impl Abort, alloc: Global, registered_delivery: u8) -> Message {
    let pdu = decode(alloc, SUBMIT).expect(rt, "a submit_sm");
    let Body::SubmitSm(mut message) = pdu.body else {
        panic!(rt; "a submit_sm");
    };
    message.registered_delivery = registered_delivery;
    message
}

// The tag of message_payload, and that of receipted_message_id, which is no text.
const PAYLOAD: u16 = 0x0424;

const OTHER: u16 = 0x001e;

// A message gets one more optional parameter, with so many octets in its value.
fn put_payload(rt: &impl Abort, alloc: Global, message: &mut Message, tag: u16, length: u16) {
    let mut value = Vec::new(alloc);
    value.resize(usize::from(length), b'a').expect(rt, "memory");
    let room = 7000_usize.saturating_sub(message.tlvs.octets().len());
    if value.len().saturating_add(4) <= room {
        message.tlvs.push(tag, &value).expect(rt, "memory");
    }
    drop(value);
}

// The message above with an empty short_message, and these optional parameters.
fn with_payloads(rt: &impl Abort, alloc: Global, tag: u16, lengths: &[u16]) -> Message {
    let mut message = message(rt, alloc, 1);
    let empty = ShortMessage::make(alloc, b"").expect(rt, "memory");
    message.short_message = empty.expect(rt, "a short_message");
    for length in lengths {
        put_payload(rt, alloc, &mut message, tag, *length);
    }
    message
}

fn query(rt: &impl Abort, alloc: Global, message_id: &[u8], source: &[u8]) -> Query {
    Query {
        message_id: text(rt, alloc, message_id),
        source: address(rt, alloc, source),
    }
}

fn cancel(
    rt: &impl Abort,
    alloc: Global,
    message_id: &[u8],
    source: &[u8],
    destination: &[u8],
) -> Cancel {
    Cancel {
        service_type: text(rt, alloc, b""),
        message_id: text(rt, alloc, message_id),
        source: address(rt, alloc, source),
        destination: address(rt, alloc, destination),
    }
}

fn sme1(rt: &impl Abort, alloc: Global) -> SystemId {
    text(rt, alloc, b"sme1")
}

fn request(rt: &impl Abort, alloc: Global, asked: Asked<'_>) -> Request {
    match asked {
        Asked::Submit(registered_delivery) => {
            let message = message(rt, alloc, registered_delivery);
            Request::Submit(message, Some(sme1(rt, alloc)))
        }
        Asked::Unrouted(registered_delivery) => {
            Request::Submit(message(rt, alloc, registered_delivery), None)
        }
        Asked::Payloads(tag, lengths) => {
            let message = with_payloads(rt, alloc, tag, lengths);
            Request::Submit(message, Some(sme1(rt, alloc)))
        }
        Asked::Beside(tag, length) => {
            let mut message = message(rt, alloc, 1);
            put_payload(rt, alloc, &mut message, tag, length);
            Request::Submit(message, Some(sme1(rt, alloc)))
        }
        Asked::UnroutedPayload(length) => {
            Request::Submit(with_payloads(rt, alloc, PAYLOAD, &[length]), None)
        }
        Asked::Query(message_id, source) => Request::Ask(query(rt, alloc, message_id, source)),
        Asked::Cancel(message_id, source, destination) => {
            Request::Cancel(cancel(rt, alloc, message_id, source, destination))
        }
    }
}

// The door of a node at the least moment, with this next serial, where so many requests wait already that none more may, or not.
fn door(serial: u32, busy: bool) -> Door {
    Door {
        clock: Moment::least(),
        validity: 259200,
        serial,
        busy,
    }
}

// What became of a request at a door, as a word and numbers: it waits, a submit_sm with its schedule, its expiry and how many octets its text has, and another
// request with the message that it is about; or it is refused with a status.
type Judged = Result<(&'static str, [u64; 3]), Status>;

fn judgement(admitted: &Result<Admitted, Status>) -> Judged {
    match admitted {
        Ok(Admitted::Submit(message)) => {
            let schedule = u64::from(message.schedule.seconds());
            let expiry = u64::from(message.expiry.seconds());
            let length = message.content.text().len() as u64;
            Ok(("Taken", [schedule, expiry, length]))
        }
        Ok(Admitted::Query { id, .. }) => Ok(("Queries", [id.number(), 0, 0])),
        Ok(Admitted::Cancel { id, .. }) => Ok(("Cancels", [id.number(), 0, 0])),
        Err(status) => Err(*status),
    }
}

fn verdict_on(rt: &impl Abort, alloc: Global, door: &Door, asked: Asked<'_>) -> Judged {
    let account = sme1(rt, alloc);
    let admitted = door.admit(&account, request(rt, alloc, asked));
    drop(account);
    let admitted = admitted.expect(rt, "memory");
    let judged = judgement(&admitted);
    drop(admitted);
    judged
}

// A request, and what is to become of it.
type Row = (Asked<'static>, Judged);

// That these requests at the door of a node become what they are to become. A failure tells what is shown by it.
fn assert_judged(rt: &impl Abort, alloc: Global, shows: &str, door: &Door, rows: &[Row]) {
    for (number, (asked, wanted)) in rows.iter().enumerate() {
        let judged = verdict_on(rt, alloc, door, *asked);
        assert_same(rt, &(shows, number, judged), &(shows, number, *wanted));
    }
}

// Three days from 2000-01-01T00:00:00Z.
const SCHEDULE: u64 = 946684800;

const EXPIRY: u64 = 946944000;

const WAITING: &[Row] = &[
    (Asked::Submit(0), Ok(("Taken", [SCHEDULE, EXPIRY, 2]))),
    (
        Asked::Query(FIRST, b"144"),
        Ok(("Queries", [1000100001, 0, 0])),
    ),
    (
        Asked::Cancel(FIRST, b"144", b""),
        Ok(("Cancels", [1000100001, 0, 0])),
    ),
];

const REFUSED: &[Row] = &[
    (Asked::Query(b"1", b"144"), Err(Status::InvalidMessageId)),
    (Asked::Submit(3), Err(Status::InvalidRegisteredDelivery)),
    (Asked::Unrouted(3), Err(Status::InvalidDestinationAddress)),
    (Asked::Cancel(b"", b"144", b""), Err(Status::CancelFailed)),
    (
        Asked::Cancel(b"100010000", b"144", b""),
        Err(Status::InvalidMessageId),
    ),
];

const WITHOUT_SERIAL: &[Row] = &[(Asked::Submit(0), Err(Status::MessageQueueFull))];

const WITHOUT_ROOM: &[Row] = &[
    (Asked::Submit(0), Err(Status::Throttled)),
    (Asked::Query(FIRST, b"144"), Err(Status::Throttled)),
    (Asked::Cancel(FIRST, b"144", b""), Err(Status::Throttled)),
];

const TEXTS: &[Row] = &[
    (Asked::Submit(1), Ok(("Taken", [SCHEDULE, EXPIRY, 2]))),
    (
        Asked::Payloads(PAYLOAD, &[]),
        Ok(("Taken", [SCHEDULE, EXPIRY, 0])),
    ),
    (
        Asked::Payloads(PAYLOAD, &[0]),
        Ok(("Taken", [SCHEDULE, EXPIRY, 0])),
    ),
    (
        Asked::Payloads(PAYLOAD, &[2]),
        Ok(("Taken", [SCHEDULE, EXPIRY, 2])),
    ),
    (
        Asked::Payloads(PAYLOAD, &[255]),
        Ok(("Taken", [SCHEDULE, EXPIRY, 255])),
    ),
    (
        Asked::Payloads(PAYLOAD, &[4096]),
        Ok(("Taken", [SCHEDULE, EXPIRY, 4096])),
    ),
    (
        Asked::Payloads(PAYLOAD, &[4097]),
        Err(Status::InvalidMessageLength),
    ),
    (
        Asked::Payloads(PAYLOAD, &[3, 4097]),
        Ok(("Taken", [SCHEDULE, EXPIRY, 3])),
    ),
    (
        Asked::Payloads(PAYLOAD, &[4097, 3]),
        Err(Status::InvalidMessageLength),
    ),
    (
        Asked::Payloads(OTHER, &[4097]),
        Ok(("Taken", [SCHEDULE, EXPIRY, 0])),
    ),
    (
        Asked::Beside(PAYLOAD, 4097),
        Ok(("Taken", [SCHEDULE, EXPIRY, 2])),
    ),
    (
        Asked::UnroutedPayload(4097),
        Err(Status::InvalidMessageLength),
    ),
    (
        Asked::UnroutedPayload(4096),
        Err(Status::InvalidDestinationAddress),
    ),
];

// What each of these shows, the next serial at the door, whether so many requests wait already that none more may, and what becomes of requests.
const DOORS: &[(&str, u32, bool, &[Row])] = &[
    ("requests wait", 99999, false, WAITING),
    ("requests are refused at once", 1, false, REFUSED),
    (
        "serials run out before the room",
        100000,
        true,
        WITHOUT_SERIAL,
    ),
    ("no more requests wait than may", 1, true, WITHOUT_ROOM),
    (
        "a text is the short_message or the first payload",
        1,
        false,
        TEXTS,
    ),
];

#[test]
fn requests_are_judged(rt: HostRuntime) {
    for (shows, serial, busy, rows) in DOORS {
        assert_judged(&rt, rt.alloc(), shows, &door(*serial, *busy), rows);
    }
}

// Whether the bodies of the PDUs of two requests are the same, and whether a route leads from both or from neither.
fn have_same_body(one: &Request, other: &Request) -> bool {
    match (one, other) {
        (Request::Submit(one, route), Request::Submit(other, way)) => {
            one == other && route.is_some() == way.is_some()
        }
        (Request::Ask(one), Request::Ask(other)) => one == other,
        (Request::Cancel(one), Request::Cancel(other)) => one == other,
        _ => false,
    }
}

// Whether a request is another one, or a copy of it if none is named, and whether they have the same body.
fn compared(
    rt: &impl Abort,
    alloc: Global,
    one: Asked<'_>,
    other: Option<Asked<'_>>,
) -> (bool, bool) {
    let one = request(rt, alloc, one);
    let other = match other {
        Some(other) => request(rt, alloc, other),
        None => one.copy().expect(rt, "memory"),
    };
    let same = (one.is(&other), have_same_body(&one, &other));
    drop(one);
    drop(other);
    same
}

// No two of them are the same request, and no two of their bodies, with whether a route leads from them, are the same.
const APART: &[Asked] = &[
    Asked::Submit(0),
    Asked::Submit(1),
    Asked::Unrouted(0),
    Asked::Query(FIRST, b"144"),
    Asked::Query(FIRST, b"145"),
    Asked::Cancel(FIRST, b"144", b""),
    Asked::Cancel(FIRST, b"144", b"155"),
];

// That the request of this number is itself, and none of the others, and that its copy is it.
fn assert_itself_alone(rt: &impl Abort, alloc: Global, number: usize, asked: Asked<'_>) {
    let copied = compared(rt, alloc, asked, None);
    assert_same(rt, &(number, copied), &(number, (true, true)));
    for (place, other) in APART.iter().enumerate() {
        let same = compared(rt, alloc, asked, Some(*other));
        let wanted = (number == place, number == place);
        assert_same(rt, &(number, place, same), &(number, place, wanted));
    }
}

#[test]
fn each_request_is_copied_and_is_itself_alone(rt: HostRuntime) {
    for (number, asked) in APART.iter().enumerate() {
        assert_itself_alone(&rt, rt.alloc(), number, *asked);
    }
}
