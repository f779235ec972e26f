//! Values that the tests are given.

use config::Config;
use esme_service::{Asked, Heard, Service};
use fate_chain::Chain;
use mc_types::Moment;
use pdu_codec::{SystemId, Text};
use std::alloc::Global;
use std::process::Abort;

fn account(rt: &impl Abort, alloc: Global, octets: &[u8]) -> SystemId {
    let text = Text::make(alloc, octets).expect(rt, "memory");
    text.expect(rt, "a text")
}

pub fn sme1(rt: &impl Abort, alloc: Global) -> SystemId {
    account(rt, alloc, b"sme1")
}

pub fn sme2(rt: &impl Abort, alloc: Global) -> SystemId {
    account(rt, alloc, b"sme2")
}

/// 2024-01-31T00:00:00Z, and so many seconds.
pub fn at(rt: &impl Abort, seconds: u32) -> Moment {
    Moment::make(seconds.saturating_add(1706659200)).expect(rt, "a moment")
}

pub fn chain(rt: &impl Abort, alloc: Global, octets: &[u8]) -> Chain {
    Chain::read(alloc, octets).expect(rt, "a chain")
}

/// The request that came in a frame on the session of a number, if it is one.
fn heard(
    rt: &impl Abort,
    service: &mut Service,
    config: &Config,
    number: u8,
    frame: &[u8],
) -> Option<Asked> {
    match service.hear(config, number, frame).expect(rt, "memory") {
        Heard::Request(asked, request) => {
            drop(request);
            Some(asked)
        }
        Heard::Answer(_, pdu) => {
            drop(pdu);
            None
        }
        Heard::Gone(_, abandoned) => {
            drop(abandoned);
            None
        }
        _ => None,
    }
}

/// The sessions of the numbers from 1 to this begin, and are bound; then the submit_sm of each, if there is one, waits under the ticket of its number.
pub fn bound(rt: &impl Abort, alloc: Global, last: u8, (bind, submit): (&[u8], &[u8])) -> Service {
    let config = Config::of_scripts(alloc).expect(rt, "memory");
    let mut service = Service::none(alloc);
    for number in 1..=last {
        service.begin(number).expect(rt, "memory");
        let _ = heard(rt, &mut service, &config, number, bind);
        if !submit.is_empty()
            && let Some(asked) = heard(rt, &mut service, &config, number, submit)
        {
            service.wait(number, asked, Some(u64::from(number)));
        }
    }
    drop(config);
    service
}
