//! A request of a session goes to its node.

use crate::counted::{Counted, Place};
use crate::octets::{BIND, BIND_SME2, SUBMIT, SUBMIT_REFUSED};
use crate::same::assert_same;
use crate::values::bound;
use config::Config;
use esme_service::{Heard, Service};
use esme_site::{AskFault, Asking, Taken, ask};
use pdu_tables::Status;
use sessions::Outgoing;
use std::alloc::Global;
use std::process::Abort;

/// Session 1 is bound by sme1, and session 2 by sme2.
pub fn two_accounts(rt: &impl Abort, alloc: Global, config: &Config) -> Service {
    let mut service = bound(rt, alloc, 1, (BIND, b""));
    service.begin(2).expect(rt, "memory");
    let heard = service.hear(config, 2, BIND_SME2);
    drop(heard.expect(rt, "memory"));
    service
}

/// The submit_sm comes on a session.
fn submitted(rt: &impl Abort, service: &mut Service, config: &Config, number: u8) -> Asking {
    match service.hear(config, number, SUBMIT).expect(rt, "memory") {
        Heard::Request(asked, request) => Asking {
            number,
            asked,
            request,
        },
        other => {
            drop(other);
            panic!(rt; "no request")
        }
    }
}

/// What came of a request: the response that refuses it, or why no step was taken.
type Came = Result<Option<Outgoing>, AskFault<u8>>;

/// Asks on a session that is bound.
fn ask_bound(rt: &impl Abort, service: &mut Service, steps: &mut Counted, asking: Asking) -> Came {
    if service.account(asking.number).is_none() {
        panic!(rt; "not bound");
    }
    ask(service, steps, &Place(3), asking)
}

/// The octets of the response, or the number of the refusal; none if the request waits.
fn shown(rt: &impl Abort, alloc: Global, config: &Config, came: Came) -> (Vec<u8>, u8) {
    match came {
        Ok(Some(refusal)) => {
            let octets = refusal.octets(alloc, &config.system_id);
            (octets.expect(rt, "memory"), 0)
        }
        Ok(None) => (Vec::new(alloc), 0),
        Err(AskFault::Step(number)) => (Vec::new(alloc), number),
        Err(AskFault::Memory) => panic!(rt; "memory"),
    }
}

/// The tickets and sequence_numbers of the requests that wait on a session.
pub fn waiting(rt: &impl Abort, alloc: Global, service: &Service, number: u8) -> Vec<(u64, u32)> {
    let mut waiting = Vec::new(alloc);
    if let Some(session) = service.sessions().get(&number) {
        for request in session.requests() {
            let pushed = waiting.push((request.ticket, request.sequence));
            pushed.expect(rt, "memory");
        }
    }
    waiting
}

pub const WAITS: Taken = Taken {
    ticket: Some(7),
    refused: None,
};

pub const REFUSED: Taken = Taken {
    ticket: None,
    refused: Some(Status::MessageQueueFull),
};

/// What each row shows, what the node makes of the request or why it takes no step, the response that refuses it, and what waits on its session.
const REQUESTS: &[(&str, Result<Taken, u8>, &[u8], &[(u64, u32)])] = &[
    ("it waits under its ticket", Ok(WAITS), b"", &[(7, 2)]),
    ("it is refused", Ok(REFUSED), SUBMIT_REFUSED, &[]),
    ("no step is taken", Err(9), b"", &[]),
];

#[test]
fn a_request_goes_to_the_node_for_its_account(rt: HostRuntime) {
    let alloc = rt.alloc();
    for (shows, gives, refusal, waits) in REQUESTS {
        let config = Config::of_scripts(alloc).expect(&rt, "memory");
        let mut service = two_accounts(&rt, alloc, &config);
        let asking = submitted(&rt, &mut service, &config, 2);
        let mut steps = Counted::none(alloc, *gives);
        let came = ask_bound(&rt, &mut service, &mut steps, asking);
        let (octets, fault) = shown(&rt, alloc, &config, came);
        drop(config);
        let others = waiting(&rt, alloc, &service, 1);
        let own = waiting(&rt, alloc, &service, 2);
        drop(service);
        let found = (*shows, octets.as_slice(), fault, own.as_slice());
        assert_same(
            &rt,
            &found,
            &(*shows, *refusal, gives.err().unwrap_or(0), *waits),
        );
        assert_same(&rt, &(*shows, others.len()), &(*shows, 0));
        assert_handed(&rt, shows, steps);
    }
}

/// That the submit_sm was handed in once, at its place, for the account of its session.
pub fn assert_handed(rt: &impl Abort, shows: &str, steps: Counted) {
    let mut count = 0usize;
    for handed in steps.handed() {
        let found = (
            shows,
            handed.place,
            handed.account.octets(),
            handed.is_submit,
        );
        let wanted: &[u8] = b"sme2";
        assert_same(rt, &found, &(shows, 3, wanted, true));
        count = count.wrapping_add(1);
    }
    drop(steps);
    assert_same(rt, &(shows, count), &(shows, 1));
}
