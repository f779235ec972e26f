//! What is done with a service on which there is one session, step by step.

use crate::octets::{ATTEMPTED, TOLD};
use crate::replies::{accepted, shown};
use crate::values::{at, chain, slot, sme1};
use config::Config;
use esme_service::{Asked, Heard, PushedOn, Sending, Service};
use pdu_tables::Status;
use sessions::Outgoing;
use std::alloc::Global;
use std::process::Abort;
use waiting_requests::Reply;

/// What all steps are given.
#[derive(Clone, Copy)]
pub struct Scene<'a> {
    pub alloc: Global,
    pub config: &'a Config,
}

/// What is done.
#[derive(Clone, Copy)]
pub enum Step {
    /// The sessions begin, from 1 to this number.
    Begins(u8),
    /// A frame comes, and is answered at once, or answers what was pushed.
    Hears,
    /// A frame comes with a request, which waits under this ticket.
    Waits(u64),
    /// A frame comes with a request, which is refused with this status.
    Refuses(Status),
    /// The node replies to the request of a ticket: that the message is taken, and what its state is.
    Accepts(u64),
    Shows(u64),
    /// The first attempt of the message goes out.
    Attempts,
    /// An attempt is pushed, of which the text is long or not, and does not go out.
    Pushes(bool),
    /// A receipt of the message is due, and the oldest one goes out.
    Posts,
    Tells,
    /// What waits after so many seconds is counted, and let go.
    Counts(u32),
    LetsGo(u32),
    /// Octets come whose length is not that of a PDU.
    HearsWrongLength,
    /// Whether this session is connected.
    Has(u8),
    Sees,
}

/// What a step tells, as a word and numbers.
pub type Told = (&'static str, [usize; 5]);

pub const NOTHING: Told = ("Nothing", [0; 5]);

fn with_number(word: &'static str, number: usize) -> Told {
    (word, [number, 0, 0, 0, 0])
}

fn put(rt: &impl Abort, out: &mut Vec<u8>, octets: &[u8]) {
    out.extend_from_slice(octets).expect(rt, "memory");
}

fn respond(rt: &impl Abort, scene: Scene<'_>, response: Outgoing, out: &mut Vec<u8>) {
    let octets = response.octets(scene.alloc, &scene.config.system_id);
    put(rt, out, &octets.expect(rt, "memory"));
}

/// What goes out by the node on session 1, if anything does.
fn send(rt: &impl Abort, alloc: Global, sending: Option<Sending>, out: &mut Vec<u8>) -> Told {
    let Some(sending) = sending else {
        return NOTHING;
    };
    let number = sending.number();
    let octets = sending.octets(alloc);
    drop(sending);
    let octets = octets.expect(rt, "memory").expect(rt, "octets");
    put(rt, out, &octets);
    with_number("Sent", usize::from(number))
}

/// What comes of a frame on session 1; and the request that it is, if it is one.
fn heeded(
    rt: &impl Abort,
    scene: Scene<'_>,
    heard: Heard,
    out: &mut Vec<u8>,
) -> (Told, Option<Asked>) {
    match heard {
        Heard::Nothing => (NOTHING, None),
        Heard::Response(response) => {
            respond(rt, scene, response, out);
            (with_number("Response", 0), None)
        }
        Heard::Request(asked, request) => {
            drop(request);
            (with_number("Request", 0), Some(asked))
        }
        Heard::Answer(pushed, pdu) => {
            drop(pdu);
            let sequence = usize::try_from(pushed.sequence).expect(rt, "a number");
            (with_number("Answer", sequence), None)
        }
        Heard::Gone(_, abandoned) => {
            let count = abandoned.as_slice().len();
            drop(abandoned);
            (with_number("Gone", count), None)
        }
    }
}

fn hear(
    rt: &impl Abort,
    scene: Scene<'_>,
    service: &mut Service,
    frame: &[u8],
    out: &mut Vec<u8>,
) -> (Told, Option<Asked>) {
    let heard = service.hear(scene.config, 1, frame).expect(rt, "memory");
    heeded(rt, scene, heard, out)
}

/// A request waits under a ticket, or is refused with a status.
fn ask(
    rt: &impl Abort,
    scene: Scene<'_>,
    service: &mut Service,
    (frame, waits): (&[u8], Result<u64, Status>),
    out: &mut Vec<u8>,
) -> Told {
    let (told, asked) = hear(rt, scene, service, frame, out);
    let asked = asked.expect(rt, "a request");
    match waits {
        Ok(ticket) => service.wait(1, asked, Some(ticket)),
        Err(status) => respond(rt, scene, asked.refusal(status), out),
    }
    told
}

/// What goes out as the node replies to a request.
fn reply(
    rt: &impl Abort,
    alloc: Global,
    service: &mut Service,
    reply: Reply,
    out: &mut Vec<u8>,
) -> Told {
    let sending = service.reply(reply);
    send(rt, alloc, sending, out)
}

/// An attempt of the message is pushed, if a session takes it.
fn push(rt: &impl Abort, alloc: Global, service: &mut Service, long: bool) -> Option<PushedOn> {
    let account = sme1(rt, alloc);
    let pushed = service.push(&account, long, at(rt, 0), slot(rt));
    drop(account);
    pushed
}

fn attempt(rt: &impl Abort, alloc: Global, service: &mut Service, out: &mut Vec<u8>) -> Told {
    let pushed = push(rt, alloc, service, false).expect(rt, "a session");
    let sending = Sending::Attempt(pushed, chain(rt, alloc, ATTEMPTED));
    send(rt, alloc, Some(sending), out)
}

/// The oldest receipt of the account goes out, if one waits.
fn tell(rt: &impl Abort, alloc: Global, service: &mut Service, out: &mut Vec<u8>) -> Told {
    let account = sme1(rt, alloc);
    let sending = service.next_receipt(&account, at(rt, 0));
    drop(account);
    send(rt, alloc, sending, out)
}

fn begin(rt: &impl Abort, service: &mut Service, last: u8) {
    for number in 1..=last {
        service.begin(number).expect(rt, "memory");
    }
}

/// Whether session 1 is connected, whether its account is sme1, how many sessions and receivers there are, and whether a receipt waits.
fn seen(rt: &impl Abort, service: &Service) -> Told {
    let named = service
        .account(1)
        .is_some_and(|account| account.octets() == b"sme1".as_slice());
    let up = service.accounts_up().expect(rt, "memory");
    let numbers = [
        usize::from(service.has(1)),
        usize::from(named),
        service.sessions().len(),
        up.len(),
        usize::from(service.has_receipts()),
    ];
    drop(up);
    ("Seen", numbers)
}

/// How many deliver_sms wait too long after so many seconds.
fn overdue(rt: &impl Abort, service: &Service, seconds: u32) -> usize {
    let overdue = service.overdue(at(rt, seconds)).expect(rt, "memory");
    overdue.len()
}

/// A step of which nothing goes out.
fn look(rt: &impl Abort, alloc: Global, service: &mut Service, step: Step) -> Told {
    match step {
        Step::Begins(last) => begin(rt, service, last),
        Step::Pushes(long) => {
            let pushed = push(rt, alloc, service, long).is_some();
            return with_number("Pushed", usize::from(pushed));
        }
        Step::Posts => {
            let posted = service.post(chain(rt, alloc, TOLD));
            posted.ok().expect(rt, "memory");
        }
        Step::Counts(seconds) => return with_number("Overdue", overdue(rt, service, seconds)),
        Step::LetsGo(seconds) => service.let_go_overdue(at(rt, seconds)),
        Step::Has(number) => return with_number("Has", usize::from(service.has(number))),
        _ => return seen(rt, service),
    }
    NOTHING
}

/// What a step tells, at which this frame comes if one is heard. What goes out is put behind `out`.
pub fn take(
    rt: &impl Abort,
    scene: Scene<'_>,
    service: &mut Service,
    (step, frame): (Step, &[u8]),
    out: &mut Vec<u8>,
) -> Told {
    let alloc = scene.alloc;
    match step {
        Step::Hears => hear(rt, scene, service, frame, out).0,
        Step::HearsWrongLength => heeded(rt, scene, service.hear_wrong_length(1), out).0,
        Step::Waits(ticket) => ask(rt, scene, service, (frame, Ok(ticket)), out),
        Step::Refuses(status) => ask(rt, scene, service, (frame, Err(status)), out),
        Step::Accepts(ticket) => reply(rt, alloc, service, accepted(rt, alloc, ticket), out),
        Step::Shows(ticket) => reply(rt, alloc, service, shown(rt, alloc, ticket), out),
        Step::Attempts => attempt(rt, alloc, service, out),
        Step::Tells => tell(rt, alloc, service, out),
        _ => look(rt, alloc, service, step),
    }
}
