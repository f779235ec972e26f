//! What was heard on a session goes to its node, and out.

use crate::asks::{REFUSED, WAITS, two_accounts};
use crate::counted::{Counted, Place};
use crate::double::{ENDED, Event, Kept, assert_events};
use crate::octets::{
    ATTEMPTED, DELIVER_ANSWER, ENQUIRE_LINK, LINKED, STRAY_ANSWER, SUBMIT, SUBMIT_REFUSED, UNBIND,
    UNBOUND,
};
use crate::same::assert_same;
use crate::values::{at, chain, sme2};
use config::Config;
use esme_service::Service;
use esme_site::{AskFault, Centre, HeardOn, HeedFault, Heeded, Taken, heed};
use mc_types::Slot;
use std::alloc::Global;
use std::process::Abort;

/// What is left to who hands a frame in.
#[derive(Clone, Copy, Debug, PartialEq, Eq)]
enum Left {
    Nothing,
    /// This response was put.
    Response,
    /// A request waits.
    Waits,
    /// A request was refused.
    Refused,
    /// The delivery that was pushed with this sequence_number is answered.
    Answer(u32),
    /// The session is gone, with so many deliveries.
    Gone(usize),
    /// There was no memory.
    Memory,
    /// No step was taken of a request, for the reason of this number.
    Unasked(u8),
}

/// A frame comes on session 2.
fn heeded(
    service: &mut Service,
    steps: &mut Counted,
    kept: &mut Kept,
    config: &Config,
    frame: &[u8],
) -> Left {
    let Ok(heard) = service.hear(config, 2, frame) else {
        return Left::Memory;
    };
    let centre = Centre {
        system_id: &config.system_id,
        at: &Place(3),
    };
    left_by(heed(service, steps, kept, &centre, HeardOn { number: 2, heard }))
}

fn left_by(came: Result<Heeded, HeedFault<u8>>) -> Left {
    match came {
        Ok(Heeded::Nothing) => Left::Nothing,
        Ok(Heeded::Response(_)) => Left::Response,
        Ok(Heeded::Request(_, None)) => Left::Waits,
        Ok(Heeded::Request(_, Some(_))) => Left::Refused,
        Ok(Heeded::Answer(pushed, pdu)) => {
            drop(pdu);
            Left::Answer(pushed.sequence)
        }
        Ok(Heeded::Gone(_, abandoned)) => {
            let count = abandoned.as_slice().len();
            drop(abandoned);
            Left::Gone(count)
        }
        Err(HeedFault::Memory) => Left::Memory,
        Err(HeedFault::Unasked(unasked)) => match unasked.why {
            AskFault::Step(number) => Left::Unasked(number),
            AskFault::Memory => Left::Memory,
        },
    }
}

/// Session 1 is bound by sme1, and session 2 by sme2, to which a deliver_sm went out.
fn pushed(rt: &impl Abort, alloc: Global, config: &Config) -> Service {
    let mut service = two_accounts(rt, alloc, config);
    let account = sme2(rt, alloc);
    let slot = Slot {
        id: chain(rt, alloc, ATTEMPTED).id(),
        place: 1,
    };
    let pushed = service.push(&account, false, at(rt, 0), slot);
    drop(account);
    assert_same(rt, &pushed.is_some(), &true);
    service
}

/// What each row shows, the frame, what the node makes of a request, which put wants memory, what is left to the caller, how many requests were handed in, what
/// was put, and its last octets.
type Row = (
    &'static str,
    &'static [u8],
    Result<Taken, u8>,
    u64,
    Left,
    usize,
    &'static [Event],
    &'static [u8],
);

const FRAMES: &[Row] = &[
    (
        "a response is put",
        ENQUIRE_LINK,
        Ok(WAITS),
        0,
        Left::Response,
        0,
        &[(2, 16)],
        LINKED,
    ),
    (
        "a response wants memory",
        ENQUIRE_LINK,
        Ok(WAITS),
        1,
        Left::Memory,
        0,
        &[],
        b"",
    ),
    (
        "a request waits",
        SUBMIT,
        Ok(WAITS),
        0,
        Left::Waits,
        1,
        &[],
        b"",
    ),
    (
        "a refusal is put",
        SUBMIT,
        Ok(REFUSED),
        0,
        Left::Refused,
        1,
        &[(2, 16)],
        SUBMIT_REFUSED,
    ),
    (
        "a refusal wants memory",
        SUBMIT,
        Ok(REFUSED),
        1,
        Left::Memory,
        1,
        &[],
        b"",
    ),
    (
        "no step is taken",
        SUBMIT,
        Err(9),
        0,
        Left::Unasked(9),
        1,
        &[],
        b"",
    ),
    (
        "an answer is handed back",
        DELIVER_ANSWER,
        Ok(WAITS),
        0,
        Left::Answer(1),
        0,
        &[],
        b"",
    ),
    (
        "an answer to nothing",
        STRAY_ANSWER,
        Ok(WAITS),
        0,
        Left::Nothing,
        0,
        &[],
        b"",
    ),
    (
        "a session ends",
        UNBIND,
        Ok(WAITS),
        0,
        Left::Gone(1),
        0,
        &[(2, 16), (2, ENDED)],
        UNBOUND,
    ),
    (
        "its end wants memory",
        UNBIND,
        Ok(WAITS),
        2,
        Left::Memory,
        0,
        &[(2, 16)],
        UNBOUND,
    ),
];

#[test]
fn frames_are_heeded(rt: HostRuntime) {
    let alloc = rt.alloc();
    for (shows, frame, gives, fails_in, wanted, handed, events, last) in FRAMES {
        let config = Config::of_scripts(alloc).expect(&rt, "memory");
        let mut service = pushed(&rt, alloc, &config);
        let mut steps = Counted::none(alloc, *gives);
        let mut kept = Kept::none(alloc, *fails_in);
        let left = heeded(&mut service, &mut steps, &mut kept, &config, frame);
        drop(config);
        drop(service);
        let found = (*shows, left, steps.handed().len(), kept.last());
        assert_same(&rt, &found, &(*shows, *wanted, *handed, *last));
        drop(steps);
        assert_events(&rt, shows, kept, events);
    }
}
