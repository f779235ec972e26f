//! What comes of events at a session, in words.

use crate::names::digits_of;
use crate::values::{at, attempt, bring};
use crate::words::{word_of, word_of_abandoned, word_of_request};
use accounts::Accounts;
use pdu_codec::{Pdu, decode, read_header};
use sessions::{OpenRequest, Reaction, Requested, Session};
use std::alloc::Global;
use std::process::Abort;

/// What comes of a PDU. It is let go by a call, which makes the proof shorter.
fn served(rt: &impl Abort, accounts: &Accounts, session: &mut Session, pdu: Pdu) -> Reaction {
    let reaction = session.on_pdu(accounts, &pdu);
    drop(pdu);
    reaction.expect(rt, "memory")
}

/// What comes of these octets.
pub fn came(
    rt: &impl Abort,
    alloc: Global,
    accounts: &Accounts,
    session: &mut Session,
    octets: &[u8],
) -> Reaction {
    let Some(header) = read_header(octets) else {
        return session.on_wrong_length();
    };
    match decode(alloc, octets) {
        Ok(pdu) => served(rt, accounts, session, pdu),
        Err(fault) => session.on_fault(header, fault),
    }
}

/// What comes of these octets, as digits.
pub fn came_of(
    rt: &impl Abort,
    alloc: Global,
    accounts: &Accounts,
    session: &mut Session,
    digits: &str,
) -> Reaction {
    let octets = hex::decode(alloc, digits).expect(rt, "digits");
    let reaction = came(rt, alloc, accounts, session, &octets);
    drop(octets);
    reaction
}

fn number(rt: &impl Abort, word: &str) -> u32 {
    word.parse().expect(rt, "a number")
}

/// `new STATE`: what is seen of another session, in this state.
fn anew(
    rt: &impl Abort,
    alloc: Global,
    accounts: &Accounts,
    session: &mut Session,
    state: &str,
) -> String {
    *session = Session::make(alloc).expect(rt, "memory");
    bring(rt, alloc, accounts, session, state);
    see(rt, alloc, session)
}

/// `pdu NAME`: what is sent.
fn pdu(
    rt: &impl Abort,
    alloc: Global,
    accounts: &Accounts,
    session: &mut Session,
    name: &str,
) -> String {
    let reaction = came_of(rt, alloc, accounts, session, digits_of(rt, name));
    word_of(rt, alloc, reaction)
}

/// `wait TICKET`: whether the query_sm of sequence_number 3 waits under it.
fn wait(rt: &impl Abort, alloc: Global, session: &mut Session, ticket: &str) -> String {
    let waits = session.on_wait(OpenRequest {
        ticket: u64::from(number(rt, ticket)),
        requested: Requested::QuerySm,
        sequence: 3,
    });
    format!(in alloc; "{waits}").expect(rt, "memory")
}

/// `reply TICKET`: which request is answered.
fn reply(rt: &impl Abort, alloc: Global, session: &mut Session, ticket: &str) -> String {
    let request = session.on_reply(u64::from(number(rt, ticket)));
    word_of_request(rt, alloc, request)
}

/// `push SECONDS`: the sequence_number, or why there is none.
fn push(rt: &impl Abort, alloc: Global, session: &mut Session, seconds: &str) -> String {
    let pushed = session.push_request(at(rt, number(rt, seconds)), attempt(rt));
    format!(in alloc; "{pushed:?}").expect(rt, "memory")
}

/// `tick SECONDS`: which pushed requests are given up.
fn tick(rt: &impl Abort, alloc: Global, session: &mut Session, seconds: &str) -> String {
    let abandoned = session.on_tick(at(rt, number(rt, seconds)));
    word_of_abandoned(rt, alloc, abandoned.expect(rt, "memory"))
}

/// `see WHAT`: the state, whether the ESME knows optional parameters, how many requests wait each way, the account.
fn see(rt: &impl Abort, alloc: Global, session: &Session) -> String {
    let known = session
        .account()
        .is_some_and(|account| account.octets() == b"sme1".as_slice());
    let told = format!(in alloc;
        "{:?} {} {} {} {known}",
        session.state(),
        session.knows_optional(),
        session.requests().len(),
        session.pushed().len()
    );
    told.expect(rt, "memory")
}

/// What comes of an event.
pub fn event(
    rt: &impl Abort,
    alloc: Global,
    accounts: &Accounts,
    session: &mut Session,
    event: &str,
) -> String {
    let (kind, rest) = event.split_once(' ').expect(rt, "two words");
    match kind {
        "new" => anew(rt, alloc, accounts, session, rest),
        "pdu" => pdu(rt, alloc, accounts, session, rest),
        "wait" => wait(rt, alloc, session, rest),
        "reply" => reply(rt, alloc, session, rest),
        "push" => push(rt, alloc, session, rest),
        "tick" => tick(rt, alloc, session, rest),
        "fail" => word_of_abandoned(rt, alloc, session.fail()),
        "see" => see(rt, alloc, session),
        _ => panic!(rt; "an event"),
    }
}
