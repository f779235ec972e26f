//! Values that the tests are given.

use crate::events::came_of;
use crate::names::{BIND_RECEIVER, BIND_TRANSCEIVER, BIND_TRANSMITTER};
use accounts::{Account, Accounts};
use mc_types::{Moment, MsgId, Slot};
use pdu_codec::Text;
use sessions::{Delivery, Session};
use std::alloc::Global;
use std::process::Abort;

pub fn text<const LIMIT: usize>(rt: &impl Abort, alloc: Global, octets: &[u8]) -> Text<LIMIT> {
    let text = Text::make(alloc, octets).expect(rt, "memory");
    text.expect(rt, "a text")
}

/// The system_id and the password of an account, and whether it may submit, and be delivered to.
type Row = (&'static [u8], &'static [u8], bool, bool);

/// That of 15 octets has a password of eight: the longest of both (SMPP 3.4, sections 5.2.1 and 5.2.2).
const ACCOUNTS: &[Row] = &[
    (b"sme1", b"pw1", true, true),
    (b"sme2", b"pw1", true, false),
    (b"sme3", b"pw1", false, true),
    (b"a_longest_name_", b"password", true, true),
];

fn add(rt: &impl Abort, alloc: Global, accounts: &mut Accounts, row: Row) {
    let (name, password, transmit, receive) = row;
    let added = accounts.add(Account {
        system_id: text(rt, alloc, name),
        password: text(rt, alloc, password),
        transmit,
        receive,
    });
    added.expect(rt, "an account");
}

pub fn accounts(rt: &impl Abort, alloc: Global) -> Accounts {
    let mut accounts = Accounts::make(alloc);
    for row in ACCOUNTS {
        add(rt, alloc, &mut accounts, *row);
    }
    accounts
}

/// So many seconds after the least moment.
pub fn at(rt: &impl Abort, seconds: u32) -> Moment {
    Moment::make(seconds.saturating_add(946684800)).expect(rt, "a moment")
}

/// The first attempt of the message 1000100001.
pub fn attempt(rt: &impl Abort) -> Delivery {
    let id = MsgId::read(b"1000100001").expect(rt, "an id");
    Delivery::Attempt(Slot { id, place: 1 })
}

/// Brings a session that is connected into a state.
pub fn bring(
    rt: &impl Abort,
    alloc: Global,
    accounts: &Accounts,
    session: &mut Session,
    state: &str,
) {
    match state {
        "Fresh" => {}
        "Transmitter" => bind(rt, alloc, accounts, session, BIND_TRANSMITTER),
        "Receiver" => bind(rt, alloc, accounts, session, BIND_RECEIVER),
        "Transceiver" => bind(rt, alloc, accounts, session, BIND_TRANSCEIVER),
        "Gone" => drop(session.fail()),
        _ => panic!(rt; "a state"),
    }
}

fn bind(rt: &impl Abort, alloc: Global, accounts: &Accounts, session: &mut Session, digits: &str) {
    let answer = came_of(rt, alloc, accounts, session, digits);
    drop(answer);
}
