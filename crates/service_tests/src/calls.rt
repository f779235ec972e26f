//! Each call of the service once, with ample memory.

use crate::octets::*;
use crate::same::assert_same;
use crate::steps::{NOTHING, Scene, Step, Told, take};
use crate::values::config;
use esme_service::Service;
use pdu_tables::Status;
use std::alloc::Global;
use std::process::Abort;

/// A step, the frame that comes at it, what it tells, and the octets that go out.
type Line = (Step, &'static [u8], Told, &'static [u8]);

const BEGUN: Line = (Step::Begins(1), &[], NOTHING, &[]);

const BOUND: Line = (Step::Hears, BIND, ("Response", [0; 5]), BIND_ANSWER);

/// A session 1 is connected once it begins, and its account is sme1 once it is bound.
const BINDS: &[Line] = &[
    (Step::Sees, &[], ("Seen", [0; 5]), &[]),
    BEGUN,
    BOUND,
    (Step::Sees, &[], ("Seen", [1, 1, 1, 1, 0]), &[]),
];

/// As many sessions as a node has, 99, are connected at once.
const BEGINS_ALL: &[Line] = &[
    (Step::Begins(99), &[], NOTHING, &[]),
    (Step::Sees, &[], ("Seen", [1, 0, 99, 0, 0]), &[]),
    (Step::Has(99), &[], ("Has", [1, 0, 0, 0, 0]), &[]),
];

/// A submit_sm waits under a ticket, and is answered once; a query_sm is refused.
const ASKS: &[Line] = &[
    BEGUN,
    BOUND,
    (Step::Waits(7), SUBMIT, ("Request", [0; 5]), &[]),
    (Step::Accepts(8), &[], NOTHING, &[]),
    (
        Step::Accepts(7),
        &[],
        ("Sent", [1, 0, 0, 0, 0]),
        SUBMIT_ANSWER,
    ),
    (Step::Accepts(7), &[], NOTHING, &[]),
    (
        Step::Refuses(Status::InvalidMessageId),
        QUERY,
        ("Request", [0; 5]),
        QUERY_REFUSED,
    ),
];

/// A deliver_sm goes out, and its answer is heard. A receipt waits, and goes out once.
const DELIVERS: &[Line] = &[
    BEGUN,
    BOUND,
    (Step::Attempts, &[], ("Sent", [1, 0, 0, 0, 0]), DELIVERY),
    (
        Step::Hears,
        DELIVERY_ANSWER,
        ("Answer", [1, 0, 0, 0, 0]),
        &[],
    ),
    (Step::Posts, &[], NOTHING, &[]),
    (Step::Sees, &[], ("Seen", [1, 1, 1, 1, 1]), &[]),
    (Step::Tells, &[], ("Sent", [1, 0, 0, 0, 0]), RECEIPT),
    (Step::Sees, &[], ("Seen", [1, 1, 1, 1, 0]), &[]),
    (Step::Tells, &[], NOTHING, &[]),
];

/// A long text goes over a session that knows optional parameters, and over no other.
const TAKES_LONG: &[Line] = &[
    BEGUN,
    BOUND,
    (Step::Pushes(true), &[], ("Pushed", [1, 0, 0, 0, 0]), &[]),
    (Step::Pushes(false), &[], ("Pushed", [1, 0, 0, 0, 0]), &[]),
];

const TAKES_SHORT: &[Line] = &[
    BEGUN,
    (
        Step::Hears,
        OLDER_BIND,
        ("Response", [0; 5]),
        OLDER_BIND_ANSWER,
    ),
    (Step::Pushes(true), &[], ("Pushed", [0; 5]), &[]),
    (Step::Pushes(false), &[], ("Pushed", [1, 0, 0, 0, 0]), &[]),
];

/// What waits for 30 seconds is let go.
const LETS_GO: &[Line] = &[
    BEGUN,
    BOUND,
    (Step::Attempts, &[], ("Sent", [1, 0, 0, 0, 0]), DELIVERY),
    (Step::Counts(29), &[], ("Overdue", [0; 5]), &[]),
    (Step::Counts(30), &[], ("Overdue", [1, 0, 0, 0, 0]), &[]),
    (Step::LetsGo(30), &[], NOTHING, &[]),
    (Step::Counts(30), &[], ("Overdue", [0; 5]), &[]),
];

/// A wrong length ends a session, and its attempt is given up.
const ENDS: &[Line] = &[
    BEGUN,
    BOUND,
    (Step::Attempts, &[], ("Sent", [1, 0, 0, 0, 0]), DELIVERY),
    (Step::HearsWrongLength, &[], ("Gone", [1, 0, 0, 0, 0]), &[]),
    (Step::Has(1), &[], ("Has", [0; 5]), &[]),
];

/// What each row shows, and its steps.
const ROWS: &[(&str, &[Line])] = &[
    ("a session is bound", BINDS),
    ("all sessions are connected", BEGINS_ALL),
    ("a request waits or is refused", ASKS),
    ("a message is delivered and its receipt goes out", DELIVERS),
    ("a session takes a long text", TAKES_LONG),
    ("an older session takes none", TAKES_SHORT),
    ("what waits too long is let go", LETS_GO),
    ("a wrong length ends a session", ENDS),
];

/// That each step of a row tells what it is to tell, and that these octets go out. A failure prints what the row shows, and the number of the step.
fn assert_row(
    rt: &impl Abort,
    scene: Scene<'_>,
    service: &mut Service,
    (shows, lines): (&str, &[Line]),
    out: &mut Vec<u8>,
) {
    for (number, (step, frame, told, octets)) in lines.iter().enumerate() {
        out.clear();
        let found = take(rt, scene, service, (*step, frame), out);
        let wanted = (shows, number, *told, *octets);
        assert_same(rt, &(shows, number, found, out.as_slice()), &wanted);
    }
}

/// The same over a new service.
fn assert_new(rt: &impl Abort, scene: Scene<'_>, row: (&str, &[Line])) {
    let mut service = Service::none(scene.alloc);
    let mut out = Vec::new(scene.alloc);
    assert_row(rt, scene, &mut service, row, &mut out);
    drop(out);
    drop(service);
}

#[test]
fn each_call_does_what_it_is_to_do(rt: HostRuntime) {
    let alloc = rt.alloc();
    let config = config(&rt, alloc);
    let scene = Scene {
        alloc,
        config: &config,
    };
    for row in ROWS {
        assert_new(&rt, scene, *row);
    }
    drop(config);
}
